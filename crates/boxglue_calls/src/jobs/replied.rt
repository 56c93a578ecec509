//! Lines that are run and answered in rows.

ghost use Rattle.std.specs.Prelude.{◌≡◌, ◌≤◌, true, List, length};
ghost use Rattle.job_machine.specs.Reply.{Reply};
ghost use Rattle.dvi_write.specs.Writing.{GoesOn};
ghost use Rattle.job_core.specs.Jobs.{RunsTo, writing_of};
ghost use Rattle.boxglue_program.specs.Runs.{commands_of, line_numbers};
ghost use Rattle.boxglue_calls.specs.Buffers.{Holds};
ghost use Rattle.boxglue_calls.specs.RunStatus.{replies_status};
ghost use Rattle.boxglue_calls.specs.Rows.{reply_rows};

use crate::jobs::rows::{ReplyRow, reply_row};
use crate::run_status::reply_status;
use crate::status::ACCEPTED;
use boxglue_program::{Device, Line};
use job_core::Job;

/// Runs lines of a script in order on a job, and writes the row of each reply, in order, to the front of `rows`. Returns the status of the
/// replies. It takes no memory but what the commands take.
pub(crate) fn reply_to_each<D: Device>(
    job: &mut Job<D>,
    lines: &[Line],
    rows: &mut [ReplyRow],
) -> u32
    requires { length lines.now ≤ length rows.old }
    ensures ran { (replies : List Reply) × RunsTo job.old (commands_of lines.now) replies job.new × (length replies ≡ length lines.now)
        × Holds rows.old rows.new (reply_rows (line_numbers lines.now) replies) × (result ≡ replies_status replies) }
    ensures idle { job.old.state.over ≡ true → job.new ≡ job.old }
    ensures goes_on { GoesOn (writing_of job.old) (writing_of job.new) }
{
    let mut status = ACCEPTED;
    for at in 0..lines.len() {
        let line = &lines[at];
        let reply = job.step(&line.command);
        status = status.max(reply_status(&reply));
        rows[at] = reply_row(line.number, &reply);
    }
    status
}
