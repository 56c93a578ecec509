//! Whole scripts, which are replied to in rows.

ghost use Rattle.std.specs.Prelude.{◌≡◌, ◌++◌, [], ◌∷◌, true, List, length, Some, Result, IfOk};
ghost use Rattle.job_machine.specs.declared.replies.Refusal.{Refusal};
ghost use Rattle.page_core.specs.declared.summary.Summary.{Summary};
ghost use Rattle.job_machine.specs.Reply.{Reply};
ghost use Rattle.job_core.specs.Headline.{WasRunAndSent};
ghost use Rattle.boxglue_program.specs.Runs.{commands_of, line_numbers};
ghost use Rattle.boxglue_calls.specs.Fonts.{are_named, files_of};
ghost use Rattle.boxglue_calls.specs.RunStatus.{run_status};
ghost use Rattle.boxglue_calls.specs.Rows.{bad_row, end_row, reply_rows};
ghost use Rattle.boxglue_calls.specs.Whole.{IsReplied};
ghost use Rattle.boxglue_calls.specs.Calls.{KeepsUndone, RefusesNames, RunsInRows};

use crate::buffers::hand_over_both;
use crate::jobs::replied::reply_to_each;
use crate::jobs::reply_kind;
use crate::jobs::rows::{ReplyRow, bad_row, end_row, row_of_kind};
use crate::run_status::reply_status;
use crate::status::{BAD_FONT_NAME, OUT_OF_MEMORY, REFUSED};
use crate::{Font, are_named, font_files};
use boxglue_program::{Cause, FontFile, Line, Memory, ScriptFault, read_script};
use job_core::Job;
use std::alloc::{AllocError, Global};

/// How many replies and how many bytes of a DVI file a call has.
#[repr(C)]
#[derive(Clone, Copy, Debug, PartialEq, Eq)]
pub struct ReplySizes {
    pub replies: usize,
    pub dvi: usize,
}

/// The rows of the replies to a script and its end, the device with the bytes of its DVI file, and the status.
#[derive(Drop)]
struct ScriptReplies {
    rows: Vec<ReplyRow>,
    device: Memory,
    status: u32,
}

/// Runs the lines of a script with these font files on a device in memory, and ends the job.
fn reply_to_lines(
    alloc: Global,
    lines: &[Line],
    files: &[FontFile],
) -> Result<ScriptReplies, AllocError>
    ensures { IfOk result (λ ran. (replies : List Reply) × (end : Result Summary Refusal)
        × WasRunAndSent files.now 0 (commands_of lines.now) replies end ran.device.failures (Some ran.device.bytes)
        × (length replies ≡ length lines.now)
        × (ran.rows.items ≡ reply_rows (line_numbers lines.now) replies ++ end_row end ∷ []) × (ran.status ≡ run_status replies end)) }
{
    let mut rows = Vec::from_elem(alloc, row_of_kind(reply_kind::OK), lines.len())?;
    let mut job = match Job::new(alloc, Memory::new(alloc), files) {
        Ok(job) => job,
        Err(_) => return Err(AllocError),
    };
    let status = reply_to_each(&mut job, lines, &mut rows);
    let end = job.finish();
    rows.push(end_row(&end))?;
    Ok(ScriptReplies {
        rows,
        device: job.into_device(),
        status: status.max(reply_status(&end)),
    })
}

/// The replies to a bad script: its one row, and no bytes.
fn reply_to_bad(alloc: Global, line: usize, cause: Cause) -> Result<ScriptReplies, AllocError>
    ensures rows { IfOk result (λ ran. ran.rows.items ≡ bad_row line cause ∷ []) }
    ensures device { IfOk result (λ ran. ran.device.bytes ≡ []) }
    ensures status { IfOk result (λ ran. ran.status ≡ 1) }
{
    let mut rows = Vec::new(alloc);
    rows.push(bad_row(line, cause))?;
    Ok(ScriptReplies {
        rows,
        device: Memory::new(alloc),
        status: REFUSED,
    })
}

/// Runs a script with these fonts, which have names, on a device in memory.
fn reply_to_script(
    alloc: Global,
    script: &[u8],
    fonts: &[Font<'_>],
) -> Result<ScriptReplies, AllocError>
    requires { are_named fonts.now ≡ true }
    ensures { IfOk result (λ ran. IsReplied script.now (files_of fonts.now) ran.rows.items ran.device.bytes ran.status) }
{
    let files = font_files(alloc, fonts)?;
    match read_script(alloc, script) {
        Ok(lines) => reply_to_lines(alloc, &lines, &files),
        Err(ScriptFault::OutOfMemory) => Err(AllocError),
        Err(ScriptFault::BadScript { line, cause }) => reply_to_bad(alloc, line, cause),
    }
}

/// Runs a script with these fonts. The rows of its replies and the bytes of the DVI file go into the buffers, and the numbers of both into
/// `sizes`. The last row is that of the end. A bad script has one row.
///
/// Returns ACCEPTED, REFUSED or REFUSED_MEMORY, and then both are written; BUFFER_TOO_SMALL, and then `sizes` alone is written;
/// OUT_OF_MEMORY or BAD_FONT_NAME, and then nothing is.
pub fn run_replies(
    alloc: Global,
    script: &[u8],
    fonts: &[Font<'_>],
    rows: &mut [ReplyRow],
    dvi: &mut [u8],
    sizes: &mut ReplySizes,
) -> u32
    ensures named { RefusesNames fonts.now result }
    ensures done { RunsInRows script.now fonts.now (rows.old, rows.new) (dvi.old, dvi.new) sizes.new result }
    ensures rows { KeepsUndone result rows.old rows.new }
    ensures dvi { KeepsUndone result dvi.old dvi.new }
    ensures sizes { KeepsUndone result sizes.old sizes.new }
{
    if !are_named(fonts) {
        return BAD_FONT_NAME;
    }
    let ran = match reply_to_script(alloc, script, fonts) {
        Ok(ran) => ran,
        Err(AllocError) => return OUT_OF_MEMORY,
    };
    let bytes = ran.device.bytes();
    *sizes = ReplySizes {
        replies: ran.rows.len(),
        dvi: bytes.len(),
    };
    hand_over_both(&ran.rows, rows, bytes, dvi, ran.status)
}
