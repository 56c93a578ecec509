//! Runs of scripts in memory.

ghost use Rattle.std.specs.Prelude.{◌≡◌, true, List, [], Result, Some, IfOk};
ghost use Rattle.job_machine.specs.declared.replies.Refusal.{Refusal};
ghost use Rattle.page_core.specs.declared.summary.Summary.{Summary};
ghost use Rattle.job_machine.specs.Reply.{Reply};
ghost use Rattle.boxglue_script.specs.Blocks.{lines_of};
ghost use Rattle.job_core.specs.Headline.{WasRunAndSent};
ghost use Rattle.boxglue_program.specs.Reports.{any_bytes, written_bytes};
ghost use Rattle.boxglue_program.specs.Runs.{commands_of, line_numbers};
ghost use Rattle.boxglue_program.specs.Texts.{answers_text, script_refusal_text};
ghost use Rattle.boxglue_calls.specs.Fonts.{are_named, files_of};
ghost use Rattle.boxglue_calls.specs.RunStatus.{run_status};
ghost use Rattle.boxglue_calls.specs.Runs.{IsRun};
ghost use Rattle.boxglue_calls.specs.Calls.{KeepsUndone, RefusesNames, Runs};

use crate::buffers::hand_over_both;
use crate::given::{Font, are_named, font_files};
use crate::run_status::outcome_status;
use crate::status::{BAD_FONT_NAME, OUT_OF_MEMORY, REFUSED};
use boxglue_program::{
    Cause, FontFile, LineBlocks, Memory, ScriptFault, WholeRun, read_blocks, run_whole,
    script_refusal_text,
};
use std::alloc::{AllocError, Global};

/// How many bytes the two outputs of a run have.
#[repr(C)]
#[derive(Clone, Copy, Debug, PartialEq, Eq)]
pub struct Lengths {
    pub answers: usize,
    pub dvi: usize,
}

/// The answers of a script, the device with the bytes of its DVI file, and the status.
#[derive(Drop)]
struct ScriptRun {
    answers: Vec<u8>,
    device: Memory,
    status: u32,
}

/// Runs the lines of a script with these font files on a device in memory, and ends the job.
fn run_job(alloc: Global, lines: LineBlocks, files: &[FontFile]) -> Result<ScriptRun, AllocError>
    ensures { IfOk result (λ run. (replies : List Reply) × (end : Result Summary Refusal)
        × WasRunAndSent files.now 0 (commands_of (lines_of lines)) replies end run.device.failures (Some run.device.bytes)
        × (run.answers.items ≡ answers_text (line_numbers (lines_of lines)) replies end) × (run.status ≡ run_status replies end)) }
{
    let whole = match run_whole(alloc, lines, files, Memory::new(alloc)) {
        Ok(whole) => whole,
        Err(_) => return Err(AllocError),
    };
    let WholeRun {
        answers,
        outcome,
        device,
    } = whole;
    match answers {
        Some(answers) => Ok(ScriptRun {
            answers,
            device,
            status: outcome_status(outcome),
        }),
        None => Err(AllocError),
    }
}

/// The run of a bad script: its one line, and no bytes.
fn refused_run(alloc: Global, line: usize, cause: Cause) -> Result<ScriptRun, AllocError>
    ensures text { IfOk result (λ run. run.answers.items ≡ script_refusal_text line cause) }
    ensures device { IfOk result (λ run. run.device.bytes ≡ []) }
    ensures status { IfOk result (λ run. run.status ≡ 1) }
{
    Ok(ScriptRun {
        answers: script_refusal_text(alloc, line, cause)?,
        device: Memory::new(alloc),
        status: REFUSED,
    })
}

/// Runs a script with these fonts, which have names, on a device in memory.
fn run_on_memory(alloc: Global, script: &[u8], fonts: &[Font<'_>]) -> Result<ScriptRun, AllocError>
    requires { are_named fonts.now ≡ true }
    ensures { IfOk result (λ run. IsRun written_bytes script.now (files_of fonts.now) run.answers.items run.device.bytes run.status) }
{
    let files = font_files(alloc, fonts)?;
    match read_blocks(alloc, script) {
        Ok(lines) => run_job(alloc, lines, &files),
        Err(ScriptFault::OutOfMemory) => Err(AllocError),
        Err(ScriptFault::BadScript { line, cause }) => refused_run(alloc, line, cause),
    }
}

/// Runs a script with these fonts. The answers and the bytes of the DVI file go into the buffers, and the numbers of these bytes into `lengths`.
///
/// Returns ACCEPTED, REFUSED or REFUSED_MEMORY, and then both are written; BUFFER_TOO_SMALL, and then `lengths` alone is written;
/// OUT_OF_MEMORY or BAD_FONT_NAME, and then nothing is.
pub fn run(
    alloc: Global,
    script: &[u8],
    fonts: &[Font<'_>],
    answers: &mut [u8],
    dvi: &mut [u8],
    lengths: &mut Lengths,
) -> u32
    ensures named { RefusesNames fonts.now result }
    ensures done { Runs any_bytes script.now fonts.now (answers.old, answers.new) (dvi.old, dvi.new) lengths.new result }

    // The same with the bytes of the file by the rules of its writer, also if something failed.
    ensures sent { Runs written_bytes script.now fonts.now (answers.old, answers.new) (dvi.old, dvi.new) lengths.new result }
    ensures answers { KeepsUndone result answers.old answers.new }
    ensures dvi { KeepsUndone result dvi.old dvi.new }
    ensures lengths { KeepsUndone result lengths.old lengths.new }
{
    if !are_named(fonts) {
        return BAD_FONT_NAME;
    }
    let results = match run_on_memory(alloc, script, fonts) {
        Ok(results) => results,
        Err(_) => return OUT_OF_MEMORY,
    };
    let bytes = results.device.bytes();
    *lengths = Lengths {
        answers: results.answers.len(),
        dvi: bytes.len(),
    };
    hand_over_both(&results.answers, answers, bytes, dvi, results.status)
}
