//! How far a page is moved from the corner of the paper.

ghost use Rattle.std.specs.Prelude.{◌≡◌, ◌+ℤ◌};

use crate::placing::{PagePoint, Point};
use node_core::BoxNode;
use scaled_core::Dimen;

/// The distance by which a page is moved to the right and down, in scaled points (TeX: The Program, part 32, §617: hoffset and voffset).
#[derive(Clone, Copy, Debug, PartialEq, Eq)]
pub struct Offsets {
    pub h: Dimen,
    pub v: Dimen,
}

impl Offsets {
    /// The reference point of a box on its page: the box's height below the origin, and then moved by the offsets.
    pub fn point_of(self, box_node: &BoxNode) -> PagePoint
        ensures { result ≡ record { h = self.h; v = box_node.now.height +ℤ self.v } }
    {
        Point {
            h: self.h.get(),
            v: box_node.height.get() + self.v.get(),
        }
    }
}
