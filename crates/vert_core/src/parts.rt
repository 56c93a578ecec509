//! The parts of a split vertical list, and why a list is not split.

use crate::tails::Tails;
use node_core::NodeList;
use pack_core::PackedBox;
use thiserror::Error;

/// The parts of a vertical list that was split.
#[derive(Debug, Drop)]
pub struct Split {
    /// The items before the place, in a vbox of the given height.
    pub front: PackedBox,
    /// The items that are left, in a vbox of its natural height, or `None` if nothing is left.
    pub rest: Option<PackedBox>,
    /// The tails of the rest, if they are known. Its next split then does not look at all its items.
    pub tails: Option<Tails>,
}

/// Why a vertical list is not split.
#[derive(Clone, Copy, Debug, PartialEq, Eq, Error)]
pub enum SplitFault {
    /// Some glue of the list shrinks in an infinite order.
    #[error("the list shrinks without limit")]
    InfiniteShrink,
    /// A size of the front or of the rest does not fit, or the width of the glue above the rest does not.
    #[error("a size of the parts is too large")]
    DimensionTooLarge,
    /// Out of memory: an allocation was refused.
    #[error("out of memory")]
    OutOfMemory,
}

/// The list was not split. It is returned as it was, with its tails, if they were known.
#[derive(Debug, Drop, Error)]
#[error("the list was not split: {fault}")]
pub struct UnsplitList {
    pub list: NodeList,
    pub tails: Option<Tails>,
    pub fault: SplitFault,
}
