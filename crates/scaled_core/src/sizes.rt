//! The sizes of what is put beside other things.

use crate::dimen::Dimen;

/// Width, height and depth of a box or a character, in scaled points.
#[derive(Clone, Copy, Debug, PartialEq, Eq)]
pub struct Sizes {
    pub width: Dimen,
    pub height: Dimen,
    pub depth: Dimen,
}
