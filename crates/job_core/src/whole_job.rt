//! A job from its beginning to its end, in one call.

ghost use Rattle.std.specs.Prelude.{◌≡◌, ◌<◌, ◌+◌, ◌^◌, [], IfOk, IfErr, IfSome};
ghost use Rattle.dvi_device.specs.Pasts.{KeepsPast};
ghost use Rattle.job_core.specs.Headline.{WasRun};
ghost use Rattle.job_core.specs.Jobs.{due_bytes};
ghost use Rattle.job_core.specs.Sent.{WasSent};

use crate::device_job::Job;
use dvi_device::Device;
use job_machine::{Command, Refusal, Reply, Summary};
use std::alloc::Global;
use tfm_core::FontFile;

/// What a job gave from its beginning to its end: a reply for each command, the result of the end, and the device.
#[derive(Debug, Drop)]
pub struct JobRun<D> {
    pub replies: Vec<Reply>,
    pub end: Result<Summary, Refusal>,
    pub device: D,
}

/// Makes a job over a device with these font files, runs the commands in order, and ends the job.
///
/// The replies are a run of the abstract machine. If the end succeeds and the device reports its bytes, they are a DVI file of exactly the machine's
/// pages. A refused command does not stop the run. The error is a refused growth: it returns the device unchanged, and nothing was run.
pub fn run_commands<D: Device>(
    alloc: Global,
    device: D,
    files: &[FontFile],
    commands: &[Command],
) -> Result<JobRun<D>, D>
    requires countable { D.failed device + 1 < 2 ^ 64 }
    requires fresh { IfSome (D.bytes_written device) (λ bytes. bytes ≡ []) }
    ensures headline { IfOk result (λ job.
        WasRun files.now (D.failed device) commands.now job.replies.items job.end (D.failed job.device) (D.bytes_written job.device)) }

    // These two speak of each such run, since the replies leave one machine.
    ensures sent { IfOk result (λ job.
        (run : WasRun files.now (D.failed device) commands.now job.replies.items job.end (D.failed job.device) (D.bytes_written job.device))
        → WasSent run.middle run.last job.end (D.bytes_written job.device)) }
    ensures past { IfOk result (λ job.
        (run : WasRun files.now (D.failed device) commands.now job.replies.items job.end (D.failed job.device) (D.bytes_written job.device))
        → KeepsPast (D.past device) (due_bytes run.last) (D.past job.device)) }
    ensures none { IfErr result (λ back. back ≡ device) }
{
    let Ok(mut replies) = Vec::with_capacity(alloc, commands.len()) else {
        return Err(device);
    };
    let mut job = Job::new(alloc, device, files)?;
    let Ok(()) = job.run(commands, &mut replies) else {
        unreachable!()
    };
    let end = job.finish();
    Ok(JobRun {
        replies,
        end,
        device: job.into_device(),
    })
}
