//! Why a page is not written, or a file not finished.

ghost use Rattle.std.specs.Prelude.{◌≡◌};

use std::alloc::AllocError;
use thiserror::Error;

/// Why a page was not written, or a file not finished.
#[derive(Clone, Copy, Debug, PartialEq, Eq, Error)]
pub enum WriteFault {
    /// The file is finished, or its device has failed.
    #[error("the file is over")]
    JobOver,
    /// The file has `MAX_PAGES` pages, as many as there may be.
    #[error("there are too many pages")]
    TooManyPages,
    /// The boxes of all pages would have more than `MAX_SHIPPED_NODES` nodes in total.
    #[error("too much is shipped")]
    TooMuchShipped,
    /// The special texts of all pages would have more than `MAX_SHIPPED_TEXT` bytes in total.
    #[error("too much special text is shipped")]
    TooMuchSpecial,
    /// A place or a size on the page is more than 2^30 - 1 sp or less than -(2^30 - 1) sp.
    #[error("a place or size of the page does not fit")]
    HugePage,
    /// A growth of memory was refused.
    #[error("a growth of memory was refused")]
    OutOfMemory,
    /// The device failed during the call.
    #[error("the device did not take the bytes")]
    Device,
}

impl From<AllocError> for WriteFault {
    ghost use Rattle.dvi_write.specs.declared.fault.WriteFault.TheVariants.{OutOfMemory};

    ghost from_gives = { λ _ fault. fault ≡ OutOfMemory };

    fn from(_error: AllocError) -> WriteFault {
        WriteFault::OutOfMemory
    }
}
