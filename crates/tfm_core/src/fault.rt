//! Why there is no metric file, or no font.

ghost use Rattle.std.specs.Prelude.{◌≡◌};
ghost use Rattle.tfm_core.specs.declared.fault.TfmFault.TheVariants as tfm_faults;

use scaled_core::SizeFault;
use std::alloc::AllocError;
use thiserror::Error;

/// The first rule that the bytes break, in the order of the variants.
#[derive(Clone, Copy, Debug, PartialEq, Eq, Error)]
pub enum TfmCause {
    /// There are fewer than 24 bytes, or fewer than the file says that it has.
    #[error("the metric file is too short")]
    TooShort,
    /// The twelve numbers at the front do not agree with each other.
    #[error("the metric file's sizes of tables do not go together")]
    Counts,
    /// The design size is below one point.
    #[error("the metric file's design size is too small")]
    DesignSize,
    /// A character names an entry that is not in its table.
    #[error("the metric file's characters name what is not there")]
    CharInfo,
    /// A width, height, depth, italic correction, kern or size of the space is 16 design sizes or more, or a table does not begin with 0.
    #[error("the metric file has a number that is too large")]
    FixWord,
    /// A ligature or kern step names a step, a kern or a character that is not there.
    #[error("the metric file's ligature and kern steps name what is not there")]
    LigKern,
}

/// Why bytes are no metric file.
#[derive(Clone, Copy, Debug, PartialEq, Eq, Error)]
pub enum TfmFault {
    /// Out of memory: an allocation was refused.
    #[error("out of memory")]
    OutOfMemory,
    /// The bytes break this rule.
    #[error("{0}")]
    Bad(TfmCause),
}

/// Why a metric file gives no font at a size: `DimensionTooLarge` where the absolute value of a width, height, depth, kern or size of the space is
/// above 2^30 - 1 scaled points.
pub type FontFault = SizeFault;

impl From<AllocError> for TfmFault {
    ghost from_gives = { λ _ fault. fault ≡ tfm_faults.OutOfMemory };

    fn from(_error: AllocError) -> TfmFault {
        TfmFault::OutOfMemory
    }
}

impl From<TfmCause> for TfmFault {
    ghost from_gives = { λ cause fault. fault ≡ tfm_faults.Bad cause };

    fn from(cause: TfmCause) -> TfmFault {
        TfmFault::Bad(cause)
    }
}
