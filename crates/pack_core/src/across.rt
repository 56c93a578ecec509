//! The measures of a horizontal list, found in one walk.

ghost use Rattle.std.specs.Prelude.{◌≡◌, ◌≤◌, ◌+◌, ◌+ℤ◌, ℕ, pos, length};
ghost use Rattle.std.specs.Int.{int_max};
ghost use Rattle.node_core.specs.Nodes.{max_nodes};
ghost use Rattle.pack_core.specs.Items.{item_width, height_above_baseline, depth_below_baseline, stretch_in, shrink_in};
ghost use Rattle.pack_core.specs.Totals.{total, greatest_of};
ghost use Rattle.pack_core.specs.Glue.{stretch_totals, shrink_totals};
ghost use Rattle.pack_core.specs.Orders.{order_amounts, plus};
ghost use Rattle.pack_core.specs.Private.Measures.{HasPassed};

use crate::orders::{OrderAmounts, no_amounts};
use crate::sizes::{across_of, depth_of, height_of};
use node_core::Node;

/// The measures of the items of a horizontal list that were passed, in scaled points.
#[derive(Clone, Copy, Debug, PartialEq, Eq)]
pub struct Across {
    /// The sum of their widths.
    pub width: i64,
    /// The greatest height above the baseline, at least 0.
    pub height: i64,
    /// The greatest depth below the baseline, at least 0.
    pub depth: i64,
    /// The total stretch of their glue, in each order.
    pub stretch: OrderAmounts,
    /// The total shrink of their glue, in each order.
    pub shrink: OrderAmounts,
}

impl Across {
    /// The measures of no items.
    fn new() -> Across
        ensures width { result.width ≡ pos 0 }
        ensures height { result.height ≡ pos 0 }
        ensures depth { result.depth ≡ pos 0 }
        ensures stretch { result.stretch ≡ order_amounts (λ _. pos 0) }
        ensures shrink { result.shrink ≡ order_amounts (λ _. pos 0) }
    {
        Across {
            width: 0,
            height: 0,
            depth: 0,
            stretch: no_amounts(),
            shrink: no_amounts(),
        }
    }

    /// Passes one more item. Characters, glue and kerns have match arms of their own for speed, since nearly all items of a line are of these kinds.
    fn pass(&mut self, node: &Node)
        requires { HasPassed max_nodes self.old }
        ensures width { self.new.width ≡ self.old.width +ℤ item_width node.now }
        ensures height { self.new.height ≡ int_max self.old.height (height_above_baseline node.now) }
        ensures depth { self.new.depth ≡ int_max self.old.depth (depth_below_baseline node.now) }
        ensures stretch { self.new.stretch ≡ plus self.old.stretch (λ order. stretch_in order node.now) }
        ensures shrink { self.new.shrink ≡ plus self.old.shrink (λ order. shrink_in order node.now) }
        ensures bound { (n : ℕ) → HasPassed n self.old → HasPassed (n + 1) self.new }
    {
        match node {
            Node::Glyph(glyph) => {
                self.width += i64::from(glyph.width.get());
                self.height = self.height.max(i64::from(glyph.height.get()));
                self.depth = self.depth.max(i64::from(glyph.depth.get()));
            }
            Node::Glue(glue) => {
                self.width += i64::from(glue.width.get());
                self.stretch.add(glue.stretch_order, glue.stretch);
                self.shrink.add(glue.shrink_order, glue.shrink);
            }
            Node::FontKern(width) => self.width += i64::from(width.get()),
            Node::Kern(width) => self.width += i64::from(width.get()),
            _ => {
                self.width += across_of(node);
                self.height = self.height.max(height_of(node));
                self.depth = self.depth.max(depth_of(node));
            }
        }
    }

    /// The measures of the items of a list.
    pub(crate) fn of(nodes: &[Node]) -> Across
        requires { length nodes.now ≤ max_nodes }
        ensures width { result.width ≡ total item_width nodes.now }
        ensures height { result.height ≡ greatest_of height_above_baseline nodes.now }
        ensures depth { result.depth ≡ greatest_of depth_below_baseline nodes.now }
        ensures stretch { result.stretch ≡ order_amounts (stretch_totals nodes.now) }
        ensures shrink { result.shrink ≡ order_amounts (shrink_totals nodes.now) }
        ensures sums_bounded { HasPassed max_nodes result }
    {
        let mut across = Across::new();
        for node in nodes {
            across.pass(node);
        }
        across
    }
}
