//! The vbox of a vertical list with some glue above it, found without building a list that holds both, and without a walk over the tail of the list.

ghost use Rattle.std.specs.Prelude.{◌≡◌, ◌≤◌, ◌∷◌, ◌++◌, List, is_some, length};
ghost use Rattle.std.specs.List.{list_all};
ghost use Rattle.std.specs.Option.{IfSome};
ghost use Rattle.scaled_core.specs.Dimensions.{fits};
ghost use Rattle.node_core.specs.Nodes.{max_nodes};
ghost use Rattle.node_core.specs.declared.tree.Node.{Node};
ghost use Rattle.pack_core.specs.Boxes.{some_if, vbox_numbers, vbox_shell};
ghost use Rattle.pack_core.specs.Tails.{HasGoneDown, IsTail};

use crate::down::Down;
use crate::pack::{Shell, Target, vertical_shell};
use crate::tail::Tail;
use node_core::{Glue, Node};
use scaled_core::Dimen;

/// The box that `vpack` would make of some glue, of these nodes below it and of the items of a tail below them, at their natural height, but without
/// the list. `None` exactly when one of their numbers does not fit. Takes one walk over the nodes, and none over the tail. Does not allocate.
pub fn vbox_below(depth_limit: Dimen, glue: &Glue, nodes: &[Node], tail: &Tail) -> Option<Shell>
    requires list_bounded { length nodes.now ≤ max_nodes }
    requires tail_small { HasGoneDown max_nodes tail.now.down }
    ensures value { (after : List Node) → IsTail after tail.now
        → result ≡ some_if (list_all fits (vbox_numbers Target.Natural depth_limit (Node.Glue glue.now ∷ nodes.now ++ after)))
        (vbox_shell Target.Natural depth_limit (Node.Glue glue.now ∷ nodes.now ++ after)) }
    ensures fits { (after : List Node) → IsTail after tail.now
        → is_some result ≡ list_all fits (vbox_numbers Target.Natural depth_limit (Node.Glue glue.now ∷ nodes.now ++ after)) }
    ensures shell { (after : List Node) → IsTail after tail.now
        → IfSome result (λ shell. shell ≡ vbox_shell Target.Natural depth_limit (Node.Glue glue.now ∷ nodes.now ++ after)) }
{
    let down = Down::of_glue(glue).followed_by(nodes).above(tail);
    vertical_shell(Target::Natural, depth_limit, false, &down)
}
