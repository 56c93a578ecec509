//! Writing a text to its end.

ghost use Rattle.std.specs.Prelude.{◌≡◌, ◌≢◌, ◌≤◌, [], length, take, IfOk, OnOk, OnErr};
ghost use Rattle.std.specs.Io.KnownBytes.{Appends};
ghost use Rattle.std.specs.IoError.{error_kind};
ghost use Rattle.boxglue_program.specs.Runs.{WritesFront, memory_line};

use std::io::{Error, ErrorKind, Write};
use thiserror::Error;

/// A writer did not take all of a text.
#[derive(Clone, Copy, Debug, PartialEq, Eq, Error)]
#[error("the text could not be written")]
pub struct UnwrittenText;

/// The result of a call that took nothing: the call is repeated if it was interrupted, and only then.
fn nothing_taken(fault: &Error) -> Result<usize, UnwrittenText>
    ensures none { IfOk result (λ count. count ≡ 0) }
    ensures again { OnOk result (error_kind fault.now ≡ ErrorKind.Interrupted) }
    ensures refused { OnErr result (error_kind fault.now ≢ ErrorKind.Interrupted) }
{
    if fault.kind() == ErrorKind::Interrupted {
        Ok(0)
    } else {
        Err(UnwrittenText)
    }
}

/// Offers a piece of a text to a writer, and returns how many bytes it took. It is 0 only if the call was interrupted.
#[tactic(auto, using(crate::proofs::WritingLemmas::nothing_written))]
fn write_piece<W: Write>(writer: &mut W, piece: &[u8]) -> Result<usize, UnwrittenText>
    ensures count_bounded { IfOk result (λ count. count ≤ length piece.now) }
    ensures taken { IfOk result (λ count. Appends (W.contents writer.old) (W.contents writer.new) (take count piece.now)) }
    ensures none { OnErr result (Appends (W.contents writer.old) (W.contents writer.new) []) }
{
    match writer.write(piece) {
        Ok(0) => Err(UnwrittenText),
        Ok(count) => Ok(count),
        Err(fault) => nothing_taken(&fault),
    }
}

/// Writes a text in as many calls as it takes. A call that was interrupted is repeated.
///
/// The error is a writer that failed or took nothing: it has taken a beginning of the text, once, and not all of it.
pub fn write_text<W: Write>(writer: &mut W, text: &[u8]) -> Result<(), UnwrittenText>
    ensures all { OnOk result (Appends (W.contents writer.old) (W.contents writer.new) text.now) }
    ensures front { OnErr result (WritesFront (W.contents writer.old) (W.contents writer.new) text.now) }
{
    let mut written = 0;
    for _ in 0..u64::MAX {
        if written >= text.len() {
            return Ok(());
        }
        written += write_piece(writer, &text[written..])?;
    }
    if written < text.len() {
        return Err(UnwrittenText);
    }
    Ok(())
}

/// Writes the line for a refused growth of memory. It is a constant, so it takes no memory.
pub fn refuse_memory<W: Write>(writer: &mut W) -> Result<(), UnwrittenText>
    ensures said { OnOk result (Appends (W.contents writer.old) (W.contents writer.new) memory_line) }
    ensures unsaid { OnErr result (WritesFront (W.contents writer.old) (W.contents writer.new) memory_line) }
{
    write_text(writer, b"refused 1 OutOfMemory\n")
}
