//! The end of a job that completes a file whose beginning was sent before.

ghost use Rattle.std.specs.Prelude.{◌≡◌, ◌+◌, length, drop, Some, Err, IfOk, OnOk};
ghost use Rattle.job_machine.specs.declared.replies.Refusal.TheVariants as refusals;
ghost use Rattle.dvi_device.specs.Written.{written_then, IsFrontOf};
ghost use Rattle.dvi_device.specs.Resumed.{PassesOn};
ghost use Rattle.dvi_write.specs.Layout.{whole};
ghost use Rattle.job_machine.specs.Machine.{Machine};
ghost use Rattle.job_core.specs.Jobs.{JobView, Represents, FinishesTo};

use crate::device_job::Job;
use dvi_device::{Device, Rest};
use job_machine::{Refusal, Summary};

/// Ends a job over `Rest` of a device, and returns the result and that device, to which only bytes after those sent before were sent.
///
/// Suppose that the bytes that were sent before are a beginning of the file of the job's pages. Then the end is refused for the device only if this
/// device fails, and after an end that succeeds it has got exactly the rest of the file. If it had reported exactly those bytes, it now reports the
/// whole file. The refusals are those of `Job::finish`.
pub fn finish_rest<D: Device>(mut job: Job<Rest<D>>) -> (Result<Summary, Refusal>, D)
    ensures whole { (m : Machine) → Represents job m → job.began.made.bytes_written ≡ Some job.began.made.sent
        → IsFrontOf job.began.made.sent (whole m.state.fonts m.pages)
        → OnOk result.0 (D.bytes_written result.1 ≡ Some (whole m.state.fonts m.pages)) }
    ensures rest { (m : Machine) → Represents job m → IsFrontOf job.began.made.sent (whole m.state.fonts m.pages)
        → OnOk result.0
        (D.bytes_written result.1 ≡ written_then job.began.made.bytes_written (drop (length job.began.made.sent) (whole m.state.fonts m.pages))) }

    // If the bytes that were left to meet when the job was made are a beginning of the file, and the inner device has failed as often as before, the
    // device did not fail.
    ensures device { (m : Machine) → Represents job m → IsFrontOf job.began.left (whole m.state.fonts m.pages)
        → D.failed result.1 + job.past.differing ≡ job.failed
        → result.0 ≡ Err refusals.Device → ⊥ }

    // The failures of the job are those of the inner device and its own.
    ensures finished { (ended : JobView) × FinishesTo job result.0 ended × PassesOn job.began.made.sent job.began.made.bytes_written
        (D.bytes_written result.1) ended.bytes_written
        × (ended.failed ≡ D.failed result.1 + ended.past.differing) × (ended.began ≡ job.began) }
    ensures count { IfOk result.0 (λ summary. (m : Machine) → Represents job m → summary.bytes ≡ length (whole m.state.fonts m.pages)) }
{
    let end = job.finish();
    let rest = job.into_device();
    (end, rest.into_device())
}
