//! Writing a piece.

ghost use Rattle.std.specs.Prelude.{◌≡◌, ◌≤◌, ◌<◌, length, take, IfOk, IfErr, OnErr};
ghost use Rattle.std.specs.Io.KnownBytes.{Appends, Keeps};

use crate::host::OutputFault;
use crate::reading::is_interrupted;
use std::io::Write;

/// Writes a piece or a beginning of it, and returns how many bytes were taken, at least one. A call that was interrupted is made again.
///
/// The error is Unwritten, and nothing was taken: the writer failed, or took no byte. Without the latter a piece would be offered for ever.
pub fn write_some<W: Write>(writer: &mut W, piece: &[u8]) -> Result<usize, OutputFault>
    requires piece_not_empty { 0 < length piece.now }
    ensures count_bounded { IfOk result (λ n. (1 ≤ n) × (n ≤ length piece.now)) }
    ensures taken { IfOk result (λ n. Appends (W.contents writer.old) (W.contents writer.new) (take n piece.now)) }
    ensures none_taken { OnErr result (Keeps (W.contents writer.old) (W.contents writer.new)) }
    ensures failed { IfErr result (λ fault. fault ≡ OutputFault.Unwritten) }
{
    for _ in 0..u64::MAX {
        match writer.write(piece) {
            Ok(0) => return Err(OutputFault::Unwritten),
            Ok(count) => return Ok(count),
            Err(fault) if is_interrupted(&fault) => {}
            Err(_) => return Err(OutputFault::Unwritten),
        }
    }
    Err(OutputFault::Unwritten)
}
