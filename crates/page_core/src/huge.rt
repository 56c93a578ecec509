//! Whether the numbers of a page fit.

ghost use Rattle.std.specs.Prelude.{◌≡◌, ◌+ℤ◌, ℤ, List, ◌&&◌};
ghost use Rattle.scaled_core.specs.Dimensions.{fits};
ghost use Rattle.page_core.specs.Marks.{is_huge};
ghost use Rattle.page_core.specs.Pages.{page_at};

use crate::list_drawing::draw_list;
use crate::placing::PagePoint;
use crate::sink::NoMarks;
use node_core::BoxNode;
use scaled_core::Dimen;

/// Whether a number plus a size fits.
#[tactic(auto, unfolding(scaled_core::specs::Dimensions::dimension_of))]
fn end_fits(from: i32, size: Dimen) -> bool
    ensures { result ≡ fits (from +ℤ size) }
{
    Dimen::try_new(i64::from(from) + i64::from(size.get())).is_some()
}

/// Whether the bottom and the right edge of a page fit, where its box has the reference point `at`.
pub fn ends_fit(box_node: &BoxNode, at: PagePoint) -> bool
    ensures { result ≡ (fits (at.v +ℤ box_node.now.depth) && fits (at.h +ℤ box_node.now.width)) }
{
    end_fits(at.v, box_node.depth) && end_fits(at.h, box_node.width)
}

/// Whether the page of a box with the reference point `at` is huge: its bottom, its right edge, or a place or a size of an item does not fit, items
/// of inner boxes included. The reference point itself need not fit. It takes no memory.
#[tactic(auto, unfolding(crate::specs::Marks::is_huge))]
pub fn is_huge(box_node: &BoxNode, at: PagePoint) -> bool
    ensures { (counts : List ℤ) → result ≡ is_huge (page_at counts at.h at.v box_node.now) }
{
    if !ends_fit(box_node, at) {
        return true;
    }
    match draw_list(&mut NoMarks, box_node, at) {
        Ok(fit) => !fit,
        Err(never) => match never {},
    }
}
