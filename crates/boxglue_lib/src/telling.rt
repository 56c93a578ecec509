//! Messages on the errors, and the status.

ghost use Rattle.std.specs.Prelude.{◌≡◌, ◌++◌, codes, IfOk, OnOk, OnErr};
ghost use Rattle.std.specs.Io.KnownBytes.{Appends};
ghost use Rattle.boxglue_program.specs.Runs.{WritesFront, memory_line};
ghost use Rattle.boxglue_lib.specs.Ends.{PrintsVersion, TakesText, TellsErrors, TellsOutput, message_line, status_of};

use crate::task_fault::TaskFault;
use boxglue_program::{UnwrittenText, refuse_memory, write_text};
use boxglue_words::VERSION_LINE;
use std::alloc::{AllocError, Global};
use std::io::Write;

/// Writes a message. What the writer does not take is lost: there is no other place to report it.
pub fn say<W: Write>(writer: &mut W, text: &[u8])
    ensures { TakesText (W.contents writer.old) (W.contents writer.new) text.now }
{
    let _ = write_text(writer, text);
}

/// Writes the line for a refused growth of memory. It takes no memory.
pub fn say_out_of_memory<W: Write>(writer: &mut W)
    ensures { TakesText (W.contents writer.old) (W.contents writer.new) memory_line }
{
    let _ = refuse_memory(writer);
}

/// A line of two parts.
fn message_line(alloc: Global, what: &str, name: &str) -> Result<Vec<u8>, AllocError>
    ensures { IfOk result (λ line. line.items ≡ message_line what.now name.now) }
{
    let mut line = Vec::from_slice(alloc, what.as_bytes())?;
    line.extend_from_slice(name.as_bytes())?;
    line.push(b'\n')?;
    Ok(line)
}

/// Writes a line of two parts, without memory of its own.
fn write_line<W: Write>(writer: &mut W, what: &str, name: &str) -> Result<(), UnwrittenText>
    ensures all { OnOk result (Appends (W.contents writer.old) (W.contents writer.new) (what.now ++ (name.now ++ codes "\n"))) }
    ensures front { OnErr result (WritesFront (W.contents writer.old) (W.contents writer.new) (what.now ++ (name.now ++ codes "\n"))) }
{
    let Ok(()) = write_text(writer, what.as_bytes()) else {
        return Err(UnwrittenText);
    };
    let Ok(()) = write_text(writer, name.as_bytes()) else {
        return Err(UnwrittenText);
    };
    write_text(writer, b"\n")
}

/// Writes a message about a name without memory for the line. Lines of several programs in one file may then mix.
fn tell_in_parts<W: Write>(writer: &mut W, what: &str, name: &str)
    ensures { TakesText (W.contents writer.old) (W.contents writer.new) (what.now ++ (name.now ++ codes "\n")) }
{
    let _ = write_line(writer, what, name);
}

/// Writes a message about a name. The whole line goes to the writer in one call if there is memory for it, so that lines of several programs in one
/// file do not mix.
pub fn tell<W: Write>(alloc: Global, writer: &mut W, what: &str, name: &str)
    ensures { TakesText (W.contents writer.old) (W.contents writer.new) (what.now ++ (name.now ++ codes "\n")) }
{
    match message_line(alloc, what, name) {
        Ok(line) => say(writer, &line),
        Err(_) => tell_in_parts(writer, what, name),
    }
}

/// Prints the version, and returns the status: 0 if the output took the whole line, otherwise 1.
pub fn print_version<W: Write>(output: &mut W) -> u8
    ensures { PrintsVersion (W.contents output.old) (W.contents output.new) result }
{
    match write_text(output, VERSION_LINE.as_bytes()) {
        Ok(()) => 0,
        Err(UnwrittenText) => 1,
    }
}

/// Reports how a task ended, and returns the status: 0 if its text was printed and all was accepted, 2 if there is no such page, otherwise 1.
pub fn report_end<W: Write, E: Write>(
    alloc: Global,
    end: Result<bool, TaskFault<'_>>,
    output: &mut W,
    errors: &mut E,
) -> u8
    ensures output { TellsOutput end.entry (W.contents output.old) (W.contents output.new) }
    ensures errors { TellsErrors end.entry (E.contents errors.old) (E.contents errors.new) }
    ensures status { result ≡ status_of end.entry }
{
    match end {
        Ok(true) => 0,
        Ok(false) | Err(TaskFault::Unwritten) => 1,
        Err(TaskFault::OutOfMemory) => {
            say_out_of_memory(output);
            1
        }
        Err(TaskFault::Unreadable(path)) => {
            tell(alloc, errors, "boxglue: cannot read ", path);
            1
        }
        Err(TaskFault::NoSuchPage) => {
            say(errors, b"boxglue: no such page\n");
            2
        }
    }
}
