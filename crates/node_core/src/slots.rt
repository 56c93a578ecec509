//! Free slots: slots at the front of a vector of nodes that hold no node of the list.

ghost use Rattle.std.specs.Prelude.{◌≡◌, ◌≢◌, ◌<◌, ◌≤◌, ◌-◌, ◌++◌, length, take, drop, OnOk, OnErr, IfOk};
ghost use Rattle.std.specs.Option.{option_to_list};
ghost use Rattle.node_core.specs.Nodes.{IsPlain};

use crate::tree::Node;
use std::alloc::AllocError;
use std::mem::replace;

/// Removes the free slots. The nodes after them move only if there are any.
#[inline]
pub fn drop_free_slots(nodes: &mut Vec<Node>, first: &mut u32)
    requires { first.old ≤ length nodes.old.items }
    ensures nodes { nodes.new.items ≡ drop first.old nodes.old.items }
    ensures first { first.new ≡ 0 }
{
    if *first != 0 {
        drop_first(nodes, *first as usize);
        *first = 0;
    }
}

/// Drops the first `count` nodes and moves the others to the front. It stands apart, so that what a push inlines stays small.
#[inline(never)]
fn drop_first(nodes: &mut Vec<Node>, count: usize)
    requires { count ≤ length nodes.old.items }
    ensures { nodes.new.items ≡ drop count nodes.old.items }
{
    nodes.drain(..count);
}

/// Drops the nodes from `first` to `end`. Their slots are then free, as those before them are.
fn free_nodes(nodes: &mut Vec<Node>, first: usize, end: usize)
    requires order { first ≤ end }
    requires end_bounded { end ≤ length nodes.old.items }
    requires free_slots { IsPlain (take first nodes.old.items) }
    ensures free { IsPlain (take end nodes.new.items) }
    ensures others { drop end nodes.new.items ≡ drop end nodes.old.items }
    ensures length { length nodes.new.items ≡ length nodes.old.items }
{
    for index in first..end {
        nodes[index] = Node::Penalty(0);
    }
}

/// Replaces the nodes from `first` to `end` by this node, or drops them, and returns the number of free slots before the nodes that stay. The slots
/// before `first` are free.
pub fn replace_nodes(nodes: &mut Vec<Node>, first: usize, end: usize, node: Option<Node>) -> usize
    requires order { first < end }
    requires end_bounded { end ≤ length nodes.old.items }
    requires free_slots { IsPlain (take first nodes.old.items) }
    ensures free { IsPlain (take result nodes.new.items) }
    ensures kept { drop result nodes.new.items ≡ option_to_list node ++ drop end nodes.old.items }
    ensures length { length nodes.new.items ≡ length nodes.old.items }
    ensures free_bounded { result ≤ end }
{
    free_nodes(nodes, first, end);
    match node {
        None => end,
        Some(node) => {
            nodes[end - 1] = node;
            end - 1
        }
    }
}

/// Moves the nodes from `first` to `end` out of their slots, which are then free, as those before them are. If memory is refused, the nodes are as
/// they were before the call.
pub fn take_nodes(nodes: &mut Vec<Node>, first: usize, end: usize) -> Result<Vec<Node>, AllocError>
    requires order { first ≤ end }
    requires end_bounded { end ≤ length nodes.old.items }
    requires free_slots { IsPlain (take first nodes.old.items) }
    ensures taken { IfOk result (λ taken. taken.items ≡ take (end - first) (drop first nodes.old.items)) }
    ensures free { OnOk result (IsPlain (take end nodes.new.items)) }
    ensures others { OnOk result (drop end nodes.new.items ≡ drop end nodes.old.items) }
    ensures length { length nodes.new.items ≡ length nodes.old.items }
    ensures err { OnErr result (nodes.new.items ≡ nodes.old.items) }
    ensures growth { OnErr result (first ≢ end) }
{
    let mut taken = Vec::with_capacity(*nodes.allocator(), end - first)?;
    for index in first..end {
        taken.push_reserved(replace(&mut nodes[index], Node::Penalty(0)));
    }
    Ok(taken)
}
