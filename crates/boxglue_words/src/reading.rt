//! Reading to the end.

ghost use Rattle.std.specs.Prelude.{◌≡◌, ◌≢◌, ◌≤◌, ◌<◌, ◌+◌, ◌++◌, false, length, true, Err, IfOk, OnOk};
ghost use Rattle.std.specs.Io.KnownBytes.{Consumes, IsAtEnd};
ghost use Rattle.std.specs.IoError.{error_kind};
ghost use Rattle.boxglue_words.specs.Readings.{LosesFront, one_call};
ghost use Rattle.boxglue_words.specs.declared.host.TheConstants.{READ_LIMIT};

use crate::host::{READ_LIMIT, ReadFault};
use std::alloc::Global;
use std::io::{Error, ErrorKind, Read};

/// How many bytes one call asks for.
const BUFFER: usize = 16_384;

/// Reads all bytes that a reader has left, as `read_within` does, within `READ_LIMIT` bytes and as many calls.
pub fn read_all<R: Read>(alloc: Global, reader: &mut R) -> Result<Vec<u8>, ReadFault>
    ensures all { IfOk result (λ bytes. Consumes (R.remaining reader.old) (R.remaining reader.new) bytes.items) }
    ensures end { IfOk result (λ bytes. IsAtEnd (R.remaining reader.new)) }
    ensures length_bounded { IfOk result (λ bytes. length bytes.items ≤ READ_LIMIT) }
    ensures memory { result ≡ Err ReadFault.OutOfMemory → LosesFront 1 READ_LIMIT (R.remaining reader.old) (R.remaining reader.new) }
    ensures failed { result ≡ Err ReadFault.Unreadable → LosesFront 0 (READ_LIMIT + one_call) (R.remaining reader.old) (R.remaining reader.new) }
{
    read_within(alloc, reader, READ_LIMIT)
}

/// Reads all bytes that a reader has left. A call that was interrupted is made again.
///
/// Errors: Unreadable if a call fails, or if the end is not reached within so many bytes and as many calls, which bounds the loop; OutOfMemory for a
/// refused growth, so only where there was a byte to store, and never for too many of them. Where the reader's bytes are known, it has lost a
/// beginning of them: after OutOfMemory at most so many, after Unreadable at most one call's more. That a call failed, no contract of a reader says.
pub fn read_within<R: Read>(
    alloc: Global,
    reader: &mut R,
    limit: usize,
) -> Result<Vec<u8>, ReadFault>
    ensures all { IfOk result (λ bytes. Consumes (R.remaining reader.old) (R.remaining reader.new) bytes.items) }
    ensures end { IfOk result (λ bytes. IsAtEnd (R.remaining reader.new)) }
    ensures length_bounded { IfOk result (λ bytes. length bytes.items ≤ limit) }
    ensures memory { result ≡ Err ReadFault.OutOfMemory → LosesFront 1 limit (R.remaining reader.old) (R.remaining reader.new) }
    ensures failed { result ≡ Err ReadFault.Unreadable → LosesFront 0 (limit + one_call) (R.remaining reader.old) (R.remaining reader.new) }
{
    let mut bytes = Vec::new(alloc);
    let mut buffer = [0u8; BUFFER];
    for _ in 0..limit {
        match reader.read(&mut buffer) {
            Ok(0) => return Ok(bytes),
            Ok(count) => push_piece(&mut bytes, &buffer[..count], limit)?,
            Err(fault) if is_interrupted(&fault) => {}
            Err(_) => return Err(ReadFault::Unreadable),
        }
    }
    Err(ReadFault::Unreadable)
}

/// Appends a piece to the bytes before it. Unreadable if that is more than the limit, and then only; OutOfMemory if memory is refused.
fn push_piece(bytes: &mut Vec<u8>, piece: &[u8], limit: usize) -> Result<(), ReadFault>
    requires bytes_bounded { length bytes.old.items ≤ limit }
    ensures ok { OnOk result (bytes.new.items ≡ bytes.old.items ++ piece.now) }
    ensures length_bounded { OnOk result (length bytes.new.items ≤ limit) }
    ensures failed { result ≡ Err ReadFault.Unreadable → limit < length bytes.old.items + length piece.now }
    ensures memory { result ≡ Err ReadFault.OutOfMemory → length bytes.old.items + length piece.now ≤ limit }
{
    if piece.len() > limit - bytes.len() {
        return Err(ReadFault::Unreadable);
    }
    bytes.extend_from_slice(piece)?;
    Ok(())
}

/// Whether a call was only interrupted, so that it is made again.
pub(crate) fn is_interrupted(fault: &Error) -> bool
    ensures yes { result ≡ true → error_kind fault.now ≡ ErrorKind.Interrupted }
    ensures no { result ≡ false → error_kind fault.now ≢ ErrorKind.Interrupted }
{
    fault.kind() == ErrorKind::Interrupted
}
