//! A walk over the items of a box, with the position of each on the page.

ghost use Rattle.std.specs.Prelude.{◌≡◌, ◌<◌, pos, Some, is_some, IfSome, OnSome};
ghost use Rattle.std.specs.List.{list_all};
ghost use Rattle.node_core.specs.Nodes.{max_nodes};
ghost use Rattle.scaled_core.specs.Dimensions.{fits};
ghost use Rattle.pack_core.specs.Cursors.{one_more, place_at};
ghost use Rattle.page_core.specs.Marks.{right_at, down_at, list_v};
ghost use Rattle.page_core.specs.DrawnPages.{DrawnPage};
ghost use Rattle.page_core.specs.Private.Placing.{point_in, numbers_between, marked_at, is_rigid};
ghost use Rattle.page_core.specs.Placing.{IsMarkEnd, marked_in, reference_h, reference_v};

use crate::placing::{
    PagePoint, PagePosition, PlacedItem, Point, place_item, point_at, position_after,
};
use node_core::{BoxNode, Kind, Node};
use pack_core::{Cursor, advance_of};
use scaled_core::Dimen;

/// The start of a list.
pub type ListOrigin = Point<i64>;

/// The start of the list of a box with the reference point `at`.
pub fn begin_of(box_node: &BoxNode, at: PagePoint) -> ListOrigin
    ensures h { result.h ≡ at.h }
    ensures v { result.v ≡ list_v box_node.now.kind box_node.now.height at.v }
{
    let v = match box_node.kind {
        Kind::Horizontal => i64::from(at.v),
        Kind::Vertical => i64::from(at.v) - i64::from(box_node.height.get()),
    };
    Point {
        h: i64::from(at.h),
        v,
    }
}

/// A walk over the items of a box: the cursor before the next item, and its position, or None where the position does not fit.
#[derive(Clone, Copy, Debug)]
pub struct ItemWalk {
    pub cursor: Cursor,
    pub here: Option<PagePosition>,
}

/// The position of a cursor in a list.
#[inline(always)]
fn place_of(box_node: &BoxNode, begin: &ListOrigin, cursor: &Cursor) -> Option<PagePosition>
    ensures { result ≡ point_in box_node.now begin.now.h begin.now.v (place_at box_node.now.setting cursor.now) }
{
    point_at(
        box_node.kind,
        begin.h,
        begin.v,
        cursor.place(&box_node.setting),
    )
}

/// Whether an item is independent of the glue setting.
#[inline(always)]
pub fn is_rigid(node: &Node) -> bool
    ensures { result ≡ is_rigid node.now }
{
    match node {
        Node::Glue(_) => false,
        _ => true,
    }
}

impl ItemWalk {
    /// A walk before the first item of a list.
    pub fn new(box_node: &BoxNode, begin: &ListOrigin) -> ItemWalk
        ensures cursor { result.cursor ≡ record { natural = pos 0; shares = pos 0; passed = 0 } }
        ensures here { result.here ≡ point_in box_node.now begin.now.h begin.now.v (place_at box_node.now.setting result.cursor) }
    {
        let cursor = Cursor::new();
        ItemWalk {
            cursor,
            here: place_of(box_node, begin, &cursor),
        }
    }

    /// Moves past an item at the position `at`, which the walk has reached. Only glue is rounded: after another item the next position is exact, so
    /// no quotient is taken.
    #[inline(always)]
    pub fn go_past(
        &mut self,
        box_node: &BoxNode,
        begin: &ListOrigin,
        at: &PagePosition,
        node: &Node,
    )
        requires items_bounded { self.old.cursor.passed < max_nodes }
        requires at { point_in box_node.now begin.now.h begin.now.v (place_at box_node.now.setting self.old.cursor) ≡ Some at.now }
        ensures cursor { self.new.cursor ≡ one_more box_node.now.kind box_node.now.setting self.old.cursor node.now }
        ensures here { self.new.here ≡ point_in box_node.now begin.now.h begin.now.v
            (place_at box_node.now.setting (one_more box_node.now.kind box_node.now.setting self.old.cursor node.now)) }
    {
        if is_rigid(node) {
            let distance = advance_of(box_node.kind, node);
            self.here = position_after(box_node.kind, at, distance);
            self.cursor.move_on(distance);
            return;
        }
        self.cursor.pass(box_node.kind, &box_node.setting, node);
        self.here = place_of(box_node, begin, &self.cursor);
    }
}
