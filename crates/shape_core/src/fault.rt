//! Why a text is not shaped.

use thiserror::Error;

/// Why the items of a text are not appended.
#[derive(Clone, Copy, Debug, PartialEq, Eq, Error)]
pub enum ShapeFault {
    /// The list would have more items than it may.
    #[error("the list would be too long")]
    ListTooLong,
    /// Out of memory: an allocation was refused.
    #[error("out of memory")]
    OutOfMemory,
}
