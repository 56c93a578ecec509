//! The measures of a vertical list, found in one walk.

ghost use Rattle.std.specs.Prelude.{◌≡◌, ◌+◌, ◌+ℤ◌, ◌^◌, ◌++◌, ◌∷◌, [], ℕ, List, length};
ghost use Rattle.std.specs.Int.{int_max};
ghost use Rattle.node_core.specs.declared.tree.Node.{Node};
ghost use Rattle.pack_core.specs.Items.{downward, breadth, stretch_in, shrink_in};
ghost use Rattle.pack_core.specs.Orders.{plus};
ghost use Rattle.pack_core.specs.ListTotals.{pending_after};
ghost use Rattle.pack_core.specs.Tails.{AreMeasuresOf, HasGoneDown};

use crate::orders::{OrderAmounts, no_amounts};
use crate::sizes::{advance_of, breadth_of};
use crate::totals::pending_after;
use node_core::{Glue, Kind, Node};
use scaled_core::Dimen;

/// The exact measures of the items of a vertical list that were passed, in scaled points. The sums do not overflow, and need not fit as dimensions.
#[derive(Clone, Copy, Debug, PartialEq, Eq)]
pub struct Down {
    /// The sum of their advances.
    pub advance: i128,
    /// The distance to the right edge of the widest of them, at least 0.
    pub breadth: i64,
    /// The depth of the last rule or box if only penalties and specials follow it, and otherwise 0.
    pub pending_depth: Dimen,
    /// The total stretch of their glue, in each order.
    pub stretch: OrderAmounts,
    /// The total shrink of their glue, in each order.
    pub shrink: OrderAmounts,
}

impl Down {
    /// The measures of no items.
    pub fn new() -> Down
        ensures value { AreMeasuresOf [] result }
        ensures bound { HasGoneDown 0 result }
    {
        Down {
            advance: 0,
            breadth: 0,
            pending_depth: Dimen::ZERO,
            stretch: no_amounts(),
            shrink: no_amounts(),
        }
    }

    /// The measures of some glue.
    pub fn of_glue(glue: &Glue) -> Down
        ensures value { AreMeasuresOf (Node.Glue glue.now ∷ []) result }
        ensures bound { HasGoneDown 1 result }
    {
        let node = Node::Glue(*glue);
        let mut down = Down::new();
        down.pass(&node);
        down
    }

    /// Passes one more item. Boxes, glue and penalties have match arms of their own for speed, since nearly all items of a page are of these kinds.
    #[inline(always)]
    fn pass(&mut self, node: &Node)
        requires { HasGoneDown (2 ^ 64) self.old }
        ensures advance { self.new.advance ≡ self.old.advance +ℤ downward node.now }
        ensures breadth { self.new.breadth ≡ int_max self.old.breadth (breadth node.now) }
        ensures pending_depth { self.new.pending_depth ≡ pending_after self.old.pending_depth node.now }
        ensures stretch { self.new.stretch ≡ plus self.old.stretch (λ order. stretch_in order node.now) }
        ensures shrink { self.new.shrink ≡ plus self.old.shrink (λ order. shrink_in order node.now) }
        ensures bound { (n : ℕ) → HasGoneDown n self.old → HasGoneDown (n + 1) self.new }
    {
        match node {
            Node::Box(shift, inner) => {
                self.advance += i128::from(inner.height.exact_add(inner.depth));
                self.breadth = self.breadth.max(inner.width.exact_add(*shift));
                self.pending_depth = inner.depth;
            }
            Node::Glue(glue) => {
                self.advance += i128::from(glue.width.get());
                self.pending_depth = Dimen::ZERO;
                self.stretch.add(glue.stretch_order, glue.stretch);
                self.shrink.add(glue.shrink_order, glue.shrink);
            }
            _ => {
                self.advance += i128::from(advance_of(Kind::Vertical, node));
                self.breadth = self.breadth.max(breadth_of(node));
                self.pending_depth = pending_after(self.pending_depth, node);
            }
        }
    }

    /// The measures of the items that were passed and of these.
    pub fn followed_by(self, nodes: &[Node]) -> Down
        requires { HasGoneDown 1 self }
        ensures value { (before : List Node) → AreMeasuresOf before self → AreMeasuresOf (before ++ nodes.now) result }
        ensures bound { HasGoneDown (2 ^ 64) result }
        ensures count_bounded { (n : ℕ) → HasGoneDown n self → HasGoneDown (n + length nodes.now) result }
    {
        let mut down = self;
        for node in nodes {
            down.pass(node);
        }
        down
    }
}
