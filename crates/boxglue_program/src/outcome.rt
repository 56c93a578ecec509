//! What was refused of some commands, taken together.

ghost use Rattle.std.specs.Prelude.{◌≡◌};
ghost use Rattle.boxglue_program.specs.Outcomes.{is_accepting, outcome_of, refusal_outcome, worse_outcome};

use job_core::Refusal;

/// What was refused of some commands. Each case outweighs those before it.
#[derive(Clone, Copy, Debug, PartialEq, Eq)]
pub enum Outcome {
    /// Nothing was refused.
    Accepted,
    /// Something was refused, and memory for none of it.
    Refused,
    /// Memory was refused for one of them.
    LackedMemory,
}

/// What a refusal is.
fn refusal_outcome(refusal: Refusal) -> Outcome
    ensures { result ≡ refusal_outcome refusal }
{
    match refusal {
        Refusal::OutOfMemory => Outcome::LackedMemory,
        _ => Outcome::Refused,
    }
}

impl Outcome {
    /// What was refused of one command, or of the end of a job.
    pub fn of<T>(reply: &Result<T, Refusal>) -> Outcome
        ensures { result ≡ outcome_of reply.now }
    {
        match reply {
            Ok(_) => Outcome::Accepted,
            Err(refusal) => refusal_outcome(*refusal),
        }
    }

    /// What was refused of both.
    pub fn worse(self, other: Outcome) -> Outcome
        ensures { result ≡ worse_outcome self other }
    {
        match self {
            Outcome::Accepted => other,
            Outcome::Refused => match other {
                Outcome::Accepted => Outcome::Refused,
                _ => other,
            },
            Outcome::LackedMemory => Outcome::LackedMemory,
        }
    }

    /// Whether nothing was refused.
    pub fn is_accepting(self) -> bool
        ensures { result ≡ is_accepting self }
    {
        match self {
            Outcome::Accepted => true,
            _ => false,
        }
    }
}
