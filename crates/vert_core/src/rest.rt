//! Taking the items of a rest out of a list that is split (TeX: The Program, part 44, §968, prune_page_top).

ghost use Rattle.std.specs.Prelude.{◌≡◌, ◌≤◌, ◌<◌, ◌-◌, ◌++◌, IfOk, OnOk, OnErr, length, drop, take};
ghost use Rattle.std.specs.List.{filter};
ghost use Rattle.vert_core.specs.Split.{is_special};
ghost use Rattle.vert_core.specs.Private.Steps.{glued_items, rest_list, IsInside};

use crate::plan::SplitRest;
use node_core::{Glue, Node};
use std::alloc::AllocError;

fn is_special(node: &Node) -> bool
    ensures { result ≡ is_special node.now }
{
    matches!(node, Node::Special(_))
}

/// Moves the specials among the first `count` nodes, except the first node, to the front, and returns how many there are. The order of the other
/// nodes does not matter, because they are dropped.
fn gather_specials(nodes: &mut Vec<Node>, count: usize) -> usize
    requires count_positive { 0 < count }
    requires count_bounded { count ≤ length nodes.old.items }
    ensures specials { take result nodes.new.items ≡ filter is_special (take (count - 1) (drop 1 nodes.old.items)) }
    ensures below { drop count nodes.new.items ≡ drop count nodes.old.items }
    ensures specials_bounded { result < count }
    ensures length { length nodes.new.items ≡ length nodes.old.items }
{
    let mut specials = 0;
    for index in 1..count {
        if is_special(&nodes[index]) {
            nodes.swap(specials, index);
            specials += 1;
        }
    }
    specials
}

/// Keeps only the specials among the first `count` nodes, followed by the glue, if there is any. The specials stay because TeX's prune_page_top keeps
/// whatsits; a rest with only specials has no splittopskip glue. The first node is not a special, so its slot is free for the glue.
fn prune_top(nodes: &mut Vec<Node>, count: usize, glue: Option<Glue>)
    requires count_positive { 0 < count }
    requires count_bounded { count ≤ length nodes.old.items }
    ensures { nodes.new.items ≡ filter is_special (take (count - 1) (drop 1 nodes.old.items)) ++ glued_items glue (drop count nodes.old.items) }
{
    let specials = gather_specials(nodes, count);
    let top = match glue {
        None => specials,
        Some(glue) => {
            nodes[specials] = Node::Glue(glue);
            specials + 1
        }
    };
    nodes.drain(top..count);
}

/// Removes the rest from the nodes and returns it. The vector that is split off begins one item earlier, with an item that is dropped, so that its
/// single allocation has space for the glue. If memory is refused, the nodes are as they were before the call.
pub fn take_rest(nodes: &mut Vec<Node>, rest: &SplitRest) -> Result<Vec<Node>, AllocError>
    requires { IsInside rest.now nodes.old.items }
    ensures items_returned { IfOk result (λ left. left.items ≡ rest_list rest.now nodes.old.items) }
    ensures front { OnOk result (nodes.new.items ≡ take (rest.now.first - 1) nodes.old.items) }
    ensures err { OnErr result (nodes.new.items ≡ nodes.old.items) }
{
    let from = rest.first - 1;
    let mut left = nodes.split_off(from)?;
    prune_top(&mut left, rest.start - from, rest.glue);
    Ok(left)
}
