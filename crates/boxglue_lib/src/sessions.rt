//! `session`: a script is run as it comes, and its pages go to a file.

ghost use Rattle.std.specs.Prelude.{◌≡◌, ◌+◌, ◌==◌, ◌^◌, ◌<◌, [], IfSome, false, true, not};
ghost use Rattle.boxglue_program.specs.Reports.{written_bytes};
ghost use Rattle.boxglue_words.specs.Hosts.{created_after, has_failed};
ghost use Rattle.boxglue_lib.specs.Private.Parts.{IsSessionEnd};
ghost use Rattle.boxglue_lib.specs.Sessions.{EndsSession};
ghost use Rattle.boxglue_lib.specs.Typesets.{OutFile};

use crate::task_fault::TaskFault;
use crate::typesetting::{TypesetEnd, end_with};
use boxglue_program::{FontFile, SessionEnd, SessionFault, run_session};
use boxglue_words::{FileDevice, FileHost, READ_LIMIT};
use std::alloc::Global;
use std::io::{Read, Write};

/// The end of a task whose session ended so. To a client that does not read any longer nothing more is said.
fn end_of<'a>(outcome: Result<bool, SessionFault>, reads: bool) -> Result<bool, TaskFault<'a>>
    ensures { IsSessionEnd outcome reads result }
{
    match outcome {
        Err(SessionFault::Unreadable) => Err(TaskFault::Unreadable("-")),
        Ok(accepted) if reads => Ok(accepted),
        Err(SessionFault::OutOfMemory) if reads => Err(TaskFault::OutOfMemory),
        _ => Err(TaskFault::Unwritten),
    }
}

/// Runs a script as it comes from a reader, with these font files and on a device that writes the file `out`. Each line is run when it is whole, and
/// the answers of all lines that one reading brings are written before the next reading. At the end of the input the job is finished.
///
/// The file is as `typeset_file` leaves it. At the ends Unreadable and OutOfMemory the session stopped: its answers so far were written, and its job
/// was not finished, so the file has the pages that were shipped and no end. Unreadable is a reading that failed, or an input that does not end
/// within `READ_LIMIT` bytes and as many calls. At Unwritten the writer took a beginning of the answers. The lines were run all the same and the job
/// was finished, unless memory was refused: then the session stopped as at OutOfMemory.
pub fn session_file<'a, H: FileHost, R: Read, W: Write>(
    alloc: Global,
    host: H,
    out: &str,
    files: &[FontFile],
    reader: &mut R,
    writer: &mut W,
) -> TypesetEnd<'a, H>
    ensures session_ended { let file : OutFile = record { is_created = result.is_created; done = result.written; written = H.written result.host } in
        EndsSession written_bytes (R.remaining reader.old) files.now file result.end (W.contents writer.old) (W.contents writer.new) }
    ensures placed { H.created result.host ≡ created_after result.is_created out.now (H.created host) }
    ensures untouched { result.is_created ≡ false → H.written result.host ≡ H.written host }
    ensures unchanged { result.is_created ≡ false → result.written ≡ true → result.host ≡ host }
    ensures blamed { has_failed (H.failures host) (H.failures result.host) ≡ not result.written }
{
    let device = FileDevice::new(host, out);
    let SessionEnd {
        outcome,
        written,
        device,
    } = run_session(alloc, files, device, READ_LIMIT, reader, writer);
    end_with(end_of(outcome, written), device)
}
