//! What one line of an input says.

ghost use Rattle.std.specs.Prelude.{◌≡◌, drop, true, IfOk, OnErr};
ghost use Rattle.std.specs.List.{list_all};
ghost use Rattle.job_machine.specs.declared.command.Command.{Command as ACommand};
ghost use Rattle.boxglue_script.specs.declared.line_content.LineContent.{LineContent as ALineContent};
ghost use Rattle.boxglue_script.specs.ScriptLines.{is_printable};
ghost use Rattle.boxglue_script.specs.Causes.{IsPrintable};
ghost use Rattle.boxglue_script.specs.Script.{HoldsBytes, SaysLine};
ghost use Rattle.boxglue_script.specs.LineContents.{Says};
ghost use Rattle.boxglue_script.specs.Private.Reading.{command_of_line, content_of, ReadsBytes};

use crate::cause::Cause;
use crate::fields::Fields;
use crate::lines::{first_field, is_passed_over, is_printable, text_after};
use job_machine::{Characters, Command};
use std::alloc::{AllocError, Global};

/// What a line of an input says.
#[derive(Debug, Drop)]
pub enum LineContent {
    /// The line is empty or begins with `%`.
    Nothing,
    /// The line gives this command.
    Command(Command),
    /// The line should give a command and does not, for this cause.
    Bad(Cause),
}

/// Reads one line, without its end. The error is a refused growth, only where the line gives a text, a special or a font.
pub fn read_line(alloc: Global, line: &[u8]) -> Result<LineContent, AllocError>
    ensures said { IfOk result (Says line.now) }
    ensures only { IfOk result (λ content. (other : ALineContent) → Says line.now other → other ≡ content) }
    ensures memory { OnErr result ((command : ACommand) × SaysLine line.now command × HoldsBytes command) }
{
    read_line_of(alloc, line, false)
}

/// Reads one line, as `read_line`. A line of a plain text is printable, and is not tested again.
pub(crate) fn read_line_of(
    alloc: Global,
    line: &[u8],
    plain: bool,
) -> Result<LineContent, AllocError>
    requires { plain ≡ true → IsPrintable line.now }
    ensures said { IfOk result (Says line.now) }
    ensures only { IfOk result (λ content. (other : ALineContent) → Says line.now other → other ≡ content) }
    ensures memory { OnErr result ((command : ACommand) × SaysLine line.now command × HoldsBytes command) }
{
    if is_passed_over(line) {
        return Ok(LineContent::Nothing);
    }
    command_of(alloc, line, plain)
}

/// What a line says of which this was read.
pub(crate) fn content_of(read: Result<Command, Cause>) -> LineContent
    ensures { result ≡ content_of read }
{
    match read {
        Ok(command) => LineContent::Command(command),
        Err(cause) => LineContent::Bad(cause),
    }
}

/// Whether each byte of a line is printable, as each is in a plain text.
fn has_printable_bytes(line: &[u8], plain: bool) -> bool
    requires { plain ≡ true → IsPrintable line.now }
    ensures { result ≡ list_all is_printable line.now }
{
    plain || is_printable(line)
}

/// The text after the first field of a line, in memory of its own.
fn text_of(alloc: Global, rest: &[u8]) -> Result<Characters, AllocError>
    ensures { IfOk result (λ text. text ≡ drop 1 rest.now) }
{
    Ok(Characters::new(text_after(rest).to_vec(alloc)?))
}

/// What a line says that is not passed over: its command, or the cause why it has none. Byte comes first, since a line with a byte that is not
/// printable is not cut into fields. A text may have any length here: how long a special may be is a limit of the job, so the other commands run. The
/// error is a refused growth, only for a text, a special or a font.
#[tactic(auto, unfolding(crate::specs::Private::Reading::command_of_line, crate::specs::Private::Reading::command_of_printable))]
fn command_of(alloc: Global, line: &[u8], plain: bool) -> Result<LineContent, AllocError>
    requires { plain ≡ true → IsPrintable line.now }
    ensures read { IfOk result (λ content. content ≡ content_of (command_of_line line.now)) }
    ensures memory { OnErr result (ReadsBytes (command_of_line line.now)) }
{
    if !has_printable_bytes(line, plain) {
        return Ok(LineContent::Bad(Cause::Byte));
    }
    let (word, rest) = first_field(line);
    if word == b"text".as_slice() {
        let text = text_of(alloc, rest)?;
        return Ok(LineContent::Command(Command::Text(text)));
    }
    if word == b"special".as_slice() {
        let text = text_of(alloc, rest)?;
        return Ok(LineContent::Command(Command::Special(text)));
    }
    Fields::new(rest).command(alloc, word)
}
