//! Why a paragraph is not broken.

ghost use Rattle.std.specs.Prelude.{◌≡◌};
ghost use Rattle.break_lines.specs.declared.fault.BreakFault.TheVariants.{OutOfMemory};

use std::alloc::AllocError;
use thiserror::Error;

/// Why a paragraph is not broken into lines.
#[derive(Clone, Copy, Debug, PartialEq, Eq, Error)]
pub enum BreakFault {
    /// Some glue shrinks in an infinite order.
    #[error("glue of a paragraph shrinks without end")]
    InfiniteShrink,
    /// There are more than 8,192 legal places.
    #[error("a paragraph has too many places for breaks")]
    TooManyBreaks,
    /// Out of memory: an allocation was refused.
    #[error("out of memory")]
    OutOfMemory,
}

impl From<AllocError> for BreakFault {
    ghost from_gives = { λ _ fault. fault ≡ OutOfMemory };

    fn from(_error: AllocError) -> BreakFault {
        BreakFault::OutOfMemory
    }
}
