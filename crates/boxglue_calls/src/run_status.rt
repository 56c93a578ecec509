//! The status of a run, from what was refused of it.

ghost use Rattle.std.specs.Prelude.{◌≡◌};
ghost use Rattle.boxglue_calls.specs.RunStatus.{outcome_status, reply_status};

use crate::status::{ACCEPTED, REFUSED, REFUSED_MEMORY};
use boxglue_program::Outcome;
use job_core::Refusal;

/// The status of a run of which this was refused.
pub fn outcome_status(outcome: Outcome) -> u32
    ensures { result ≡ outcome_status outcome }
{
    match outcome {
        Outcome::Accepted => ACCEPTED,
        Outcome::Refused => REFUSED,
        Outcome::LackedMemory => REFUSED_MEMORY,
    }
}

/// The status of a reply, or of the end of a job.
pub fn reply_status<T>(reply: &Result<T, Refusal>) -> u32
    ensures { result ≡ reply_status reply.now }
{
    outcome_status(Outcome::of(reply))
}
