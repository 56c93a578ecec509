//! Why a text gives no dimension, and why a size is refused.

ghost use Rattle.std.specs.Prelude.{◌≡◌};
ghost use Rattle.scaled_core.specs.declared.fault.SizeFault.TheVariants.{OutOfMemory};

use std::alloc::AllocError;
use thiserror::Error;

/// Why a text gives no dimension.
#[derive(Clone, Copy, Debug, PartialEq, Eq, Error)]
pub enum DimenFault {
    /// The text is a dimension whose absolute value is above 2^30 - 1 scaled points.
    #[error("the dimension is too large")]
    TooLarge,
    /// The text is not a dimension: a digit or the unit is missing, or there is something else in it.
    #[error("this is not a dimension")]
    NotADimension,
}

/// Why something that has sizes was not made: of a font, a bitmap, a line, or the glue before a box. The function that answers it names the bound.
#[derive(Clone, Copy, Debug, PartialEq, Eq, Error)]
pub enum SizeFault {
    /// A size is outside its bounds.
    #[error("a size does not fit")]
    DimensionTooLarge,
    /// Out of memory: an allocation was refused.
    #[error("out of memory")]
    OutOfMemory,
}

impl From<AllocError> for SizeFault {
    ghost from_gives = { λ _ fault. fault ≡ OutOfMemory };

    fn from(_error: AllocError) -> SizeFault {
        SizeFault::OutOfMemory
    }
}
