//! The exact totals of lists.

ghost use Rattle.std.specs.Prelude.{◌≡◌, ◌<◌, ◌*◌, ◌^◌, ◌++◌, ◌∷◌, [], List};
ghost use Rattle.scaled_core.specs.Dimensions.{Within};
ghost use Rattle.node_core.specs.declared.tree.Node.{Node};
ghost use Rattle.pack_core.specs.Orders.{AreWithin};
ghost use Rattle.pack_core.specs.ListTotals.{totals_of, with_item, pending_after};

use crate::orders::{OrderAmounts, no_amounts};
use crate::sizes::{advance_of, depth_by_itself};
use node_core::{ItemClass, Kind, Node};
use scaled_core::Dimen;
use std::marker::Model;

/// The exact totals of the items of a list that were passed, in scaled points: the sum of their advances, the stretch and shrink of their glue in
/// each order, and the pending depth after them. The sums do not overflow, and need not fit as dimensions.
#[derive(Clone, Copy, Debug)]
pub struct Totals {
    kind: Kind,
    advance: i128,
    stretch: OrderAmounts,
    shrink: OrderAmounts,
    pending_depth: Dimen,
    passed: u64,
}

impl Model for Totals {
    ghost use Rattle.pack_core.specs.ListTotals.{ListTotals};
    ghost use Rattle.pack_core.specs.Private.ListTotals.{AreSmall};

    ghost Value = { ListTotals };

    ghost view = { λ t.
        record { kind = t.kind; advance = t.advance; stretch = t.stretch; shrink = t.shrink; pending_depth = t.pending_depth; passed = t.passed } };

    ghost invariant = { λ t. AreSmall t.passed t.advance t.stretch t.shrink };

    ghost inverse = { λ t.
        record { kind = t.kind; advance = t.advance; stretch = t.stretch; shrink = t.shrink; pending_depth = t.pending_depth; passed = t.passed } };
}

impl Totals {
    /// The totals of no items, in a list of this kind.
    #[tactic(auto, unfolding(crate::specs::ListTotals::totals_of))]
    pub fn new(kind: Kind) -> Totals
        ensures { result ≡ totals_of kind [] }
    {
        Totals {
            kind,
            advance: 0,
            stretch: no_amounts(),
            shrink: no_amounts(),
            pending_depth: Dimen::ZERO,
            passed: 0,
        }
    }

    /// Passes one more item, and adds what it has to each total. Fewer items were passed before than a list can hold.
    pub fn pass(&mut self, node: &Node)
        requires { self.old.passed < u64.MAX }
        ensures value { self.new ≡ with_item self.old node.now }
        ensures totals { (before : List Node) → self.old ≡ totals_of self.old.kind before
            → self.new ≡ totals_of self.old.kind (before ++ node.now ∷ []) }
    {
        self.passed += 1;
        // Only glue changes the amounts of the orders, and its advance is the same in both kinds of lists.
        let Node::Glue(glue) = node else {
            self.advance += i128::from(advance_of(self.kind, node));
            self.pending_depth = pending_after(self.pending_depth, node);
            return;
        };
        self.advance += i128::from(glue.width.get());
        self.pending_depth = Dimen::ZERO;
        self.stretch.add(glue.stretch_order, glue.stretch);
        self.shrink.add(glue.shrink_order, glue.shrink);
    }

    /// The sum of the advances of the items.
    pub fn advance(&self) -> i128
        ensures value { result ≡ self.now.advance }
        ensures bound { Within (2 ^ 31 * self.now.passed) result }
        ensures total_bounded { Within (2 ^ 95) result }
    {
        self.advance
    }

    /// The total stretch of the glue, in each order.
    pub fn stretch(&self) -> OrderAmounts
        ensures value { result ≡ self.now.stretch }
        ensures bound { AreWithin (2 ^ 31 * self.now.passed) result }
        ensures total_bounded { AreWithin (2 ^ 95) result }
    {
        self.stretch
    }

    /// The total shrink of the glue, in each order.
    pub fn shrink(&self) -> OrderAmounts
        ensures value { result ≡ self.now.shrink }
        ensures bound { AreWithin (2 ^ 31 * self.now.passed) result }
        ensures total_bounded { AreWithin (2 ^ 95) result }
    {
        self.shrink
    }

    /// The depth of the last rule or box if only penalties and specials follow it, and otherwise 0.
    pub fn pending_depth(&self) -> Dimen
        ensures { result ≡ self.now.pending_depth }
    {
        self.pending_depth
    }
}

/// The pending depth after one more item.
pub fn pending_after(before: Dimen, node: &Node) -> Dimen
    ensures { result ≡ pending_after before node.now }
{
    match node.class() {
        ItemClass::Penalty | ItemClass::Special => before,
        ItemClass::BoxOrRule => depth_by_itself(node),
        _ => Dimen::ZERO,
    }
}
