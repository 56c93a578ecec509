//! The measures of the items at the end of a vertical list, to which those of the items above them are added.

ghost use Rattle.std.specs.Prelude.{◌≡◌, ◌≤◌, ◌+◌, ◌^◌, ◌++◌, [], ℕ, List, length, if◌then◌else◌};
ghost use Rattle.std.specs.List.{list_all};
ghost use Rattle.node_core.specs.Nodes.{max_nodes};
ghost use Rattle.node_core.specs.declared.tree.Node.{Node};
ghost use Rattle.pack_core.specs.Items.{is_sizeless};
ghost use Rattle.pack_core.specs.Tails.{AreMeasuresOf, HasGoneDown, IsTail};

use crate::down::Down;
use crate::orders::sum_of;
use node_core::{ItemClass, Node};
use scaled_core::Dimen;

/// The measures of the items of a vertical list from one of them to its end.
#[derive(Clone, Copy, Debug, PartialEq, Eq)]
pub struct Tail {
    pub(crate) down: Down,
    /// Whether all of them are penalties and specials: then the pending depth after them is that of the items above them.
    pub(crate) is_sizeless: bool,
}

/// Whether an item is a penalty or a special.
fn is_sizeless(node: &Node) -> bool
    ensures { result ≡ is_sizeless node.now }
{
    match node.class() {
        ItemClass::Penalty | ItemClass::Special => true,
        _ => false,
    }
}

/// Whether all of these items are penalties and specials.
fn are_sizeless(nodes: &[Node]) -> bool
    ensures { result ≡ list_all is_sizeless nodes.now }
{
    nodes.iter().all(|node| is_sizeless(node))
}

impl Tail {
    /// The measures of no items.
    pub fn new() -> Tail
        ensures { IsTail [] result }
    {
        Tail {
            down: Down::new(),
            is_sizeless: true,
        }
    }

    /// The measures of these nodes and of the items of this tail, which come after them.
    pub fn preceded_by(&self, nodes: &[Node]) -> Tail
        requires list_bounded { length nodes.now ≤ max_nodes }
        requires small { HasGoneDown max_nodes self.now.down }
        ensures { (after : List Node) → IsTail after self.now → IsTail (nodes.now ++ after) result }
    {
        Tail {
            down: Down::new().followed_by(nodes).above(self),
            is_sizeless: self.is_sizeless && are_sizeless(nodes),
        }
    }
}

/// The pending depth after a tail, below items with this pending depth.
fn pending_below(above: Dimen, tail: &Tail) -> Dimen
    ensures { result ≡ (if tail.now.is_sizeless then above else tail.now.down.pending_depth) }
{
    if tail.is_sizeless {
        above
    } else {
        tail.down.pending_depth
    }
}

impl Down {
    /// The measures of the items that were passed and of those of a tail, which come after them.
    pub(crate) fn above(self, tail: &Tail) -> Down
        requires small { HasGoneDown (2 ^ 40) self }
        requires tail_small { HasGoneDown max_nodes tail.now.down }
        ensures value { (before after : List Node) → AreMeasuresOf before self → IsTail after tail.now → AreMeasuresOf (before ++ after) result }
        ensures bound { (m n : ℕ) → HasGoneDown m self → HasGoneDown n tail.now.down → HasGoneDown (m + n) result }
    {
        let advance = sum_of(self.advance, tail.down.advance);
        let stretch = self.stretch.sum_with(&tail.down.stretch);
        let shrink = self.shrink.sum_with(&tail.down.shrink);
        Down {
            advance,
            breadth: self.breadth.max(tail.down.breadth),
            pending_depth: pending_below(self.pending_depth, tail),
            stretch,
            shrink,
        }
    }
}
