//! Reading a script.

ghost use Rattle.std.specs.Prelude.{◌≡◌, ◌⊎◌, ◌<◌, ◌≤◌, ◌+◌, true, List, [], length, Ok, Err, IfOk, OnOk, IfErr, vec_len};
ghost use Rattle.std.specs.Str.Lines.{lines};
ghost use Rattle.boxglue_script.specs.Blocks.{lines_of};
ghost use Rattle.boxglue_script.specs.Causes.{IsPrintable};
ghost use Rattle.boxglue_script.specs.Script.{IsScript, Explains, IsOneFault, IsRightSoFar};
ghost use Rattle.boxglue_script.specs.Private.Reading.{GivesCommand, ReadsOn, HasFaultAtLine, reading_from};
ghost use Rattle.boxglue_script.specs.declared.script.ScriptFault.TheVariants.{OutOfMemory};

use crate::blocks::{BLOCK_SIZE, LineBlocks};
use crate::cause::Cause;
use crate::line_content::{LineContent, read_line_of};
use crate::lines::{first_line, is_plain};
use job_machine::Command;
use std::alloc::{AllocError, AllocFailed, Global};
use thiserror::Error;

/// A line of a script, and the command that it gives.
#[derive(Debug, Drop)]
pub struct Line {
    /// The number of the line in its script, from 1.
    pub number: usize,
    pub command: Command,
}

/// Why a script was not read. No command of it was run.
#[derive(Clone, Copy, Debug, PartialEq, Eq, Error)]
pub enum ScriptFault {
    #[error("a growth of memory was refused")]
    OutOfMemory,
    #[error("line {line} of the script says no command")]
    BadScript { line: usize, cause: Cause },
}

impl From<AllocError> for ScriptFault {
    ghost from_gives = { λ _ fault. fault ≡ OutOfMemory };

    fn from(_error: AllocError) -> ScriptFault {
        ScriptFault::OutOfMemory
    }
}

impl<T: Drop> From<AllocFailed<T>> for ScriptFault {
    ghost from_gives = { λ _ fault. fault ≡ OutOfMemory };

    fn from(_failed: AllocFailed<T>) -> ScriptFault {
        ScriptFault::OutOfMemory
    }
}

/// Reads the text of a script into its commands, each with the number of its line. A line feed ends a line, and one carriage return directly before
/// it belongs to this end. A line that is empty or begins with `%` gives no command, but is counted.
///
/// Errors: BadScript with the first line that should give a command and does not, and the cause; OutOfMemory for a refused growth at a line that
/// gives a command, so that it hides no bad line up to there.
#[tactic(auto, using(crate::proofs::ScriptLaws::reading))]
pub fn read_script(alloc: Global, text: &[u8]) -> Result<Vec<Line>, ScriptFault>
    ensures lines { IfOk result (λ found. IsScript text.now found.items) }
    ensures only { IfOk result (λ found. (others : List Line) → IsScript text.now others → others ≡ found.items) }
    ensures refused { IfErr result (λ fault. Explains text.now fault) }
    ensures one { IfErr result (λ fault. IsOneFault text.now fault) }
    ensures memory { result ≡ Err ScriptFault.OutOfMemory → IsRightSoFar text.now }
{
    let LineBlocks { full: _, last } = read_lines(alloc, text, usize::MAX)?;
    Ok(last)
}

/// Reads the text of a script as `read_script` does, into blocks of lines.
#[tactic(auto, using(crate::proofs::ScriptLaws::reading))]
pub fn read_blocks(alloc: Global, text: &[u8]) -> Result<LineBlocks, ScriptFault>
    ensures lines { IfOk result (λ found. IsScript text.now (lines_of found)) }
    ensures only { IfOk result (λ found. (others : List Line) → IsScript text.now others → others ≡ lines_of found) }
    ensures refused { IfErr result (λ fault. Explains text.now fault) }
    ensures one { IfErr result (λ fault. IsOneFault text.now fault) }
    ensures memory { result ≡ Err ScriptFault.OutOfMemory → IsRightSoFar text.now }
{
    read_lines(alloc, text, BLOCK_SIZE)
}

/// Reads the text of a script into blocks of at most so many lines: one block, if the text has no more bytes.
fn read_lines(alloc: Global, text: &[u8], most: usize) -> Result<LineBlocks, ScriptFault>
    ensures found { IfOk result (λ found. reading_from 1 (lines text.now) ≡ Ok (lines_of found)) }
    ensures refused { IfErr result (λ fault. (fault ≡ ScriptFault.OutOfMemory) ⊎ (reading_from 1 (lines text.now) ≡ Err fault)) }
    ensures memory { result ≡ Err ScriptFault.OutOfMemory → IsRightSoFar text.now }
    ensures one { length text.now ≤ most → IfOk result (λ found. found.full.items ≡ []) }
{
    let mut found = LineBlocks::new(alloc);
    let plain = is_plain(text);
    let mut rest = text;
    let mut number = 0;
    while !rest.is_empty() {
        let (line, after) = first_line(rest);
        number += 1;
        take_line(number, line, plain, most, &mut found)?;
        rest = after;
    }
    Ok(found)
}

/// Takes what a line says, which may be one of a plain text: appends its command, if it has one, to those of the lines before it, in blocks of at
/// most so many lines. OutOfMemory only if it has one.
fn take_line(
    number: usize,
    line: &[u8],
    plain: bool,
    most: usize,
    found: &mut LineBlocks,
) -> Result<(), ScriptFault>
    requires { plain ≡ true → IsPrintable line.now }
    ensures ok { OnOk result (ReadsOn number line.now (lines_of found.old) (lines_of found.new)) }
    ensures bad { IfErr result (λ fault. (fault ≡ ScriptFault.OutOfMemory) ⊎ HasFaultAtLine number line.now (lines_of found.old) fault) }
    ensures memory { result ≡ Err ScriptFault.OutOfMemory → GivesCommand line.now }
    ensures full { vec_len found.old.last < most → found.new.full.items ≡ found.old.full.items }
    ensures last { vec_len found.old.last < most → OnOk result (vec_len found.new.last ≤ vec_len found.old.last + 1) }
{
    match read_line_of(*found.last.allocator(), line, plain)? {
        LineContent::Nothing => Ok(()),
        LineContent::Command(command) => Ok(found.push(most, Line { number, command })?),
        LineContent::Bad(cause) => Err(ScriptFault::BadScript {
            line: number,
            cause,
        }),
    }
}
