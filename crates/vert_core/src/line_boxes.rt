//! The items in the boxes of the lines of a paragraph.

ghost use Rattle.std.specs.Prelude.{◌≡◌, ◌<◌, ◌+◌, ◌++◌, ◌∷◌, [], length, drop, take, slice_get, IfSome};
ghost use Rattle.std.specs.List.{cons_option};
ghost use Rattle.break_lines.specs.LineItems.{at_break, without_first, kept_items};
ghost use Rattle.vert_core.specs.Private.Planned.{front_items, items_with_break};

use node_core::Node;
use scaled_core::Dimen;

/// The items of a list without those that are dropped at the beginning of a line.
fn without_first(nodes: &[Node]) -> &[Node]
    ensures { result.now ≡ without_first nodes.now }
{
    for index in 0..nodes.len() {
        if !nodes[index].class().is_discardable() {
            return &nodes[index..];
        }
    }
    &[]
}

/// The items after a place.
fn after(nodes: &[Node], place: usize) -> &[Node]
    ensures { result.now ≡ drop (place + 1) nodes.now }
{
    if place >= nodes.len() {
        return &[];
    }
    &nodes[place + 1..]
}

/// The items that a line keeps before the place where it ends.
pub(crate) fn front_of(nodes: &[Node], begin: Option<usize>, end: usize) -> &[Node]
    ensures items { result.now ++ at_break (slice_get nodes.now end) ≡ kept_items nodes.now begin end }
    ensures front { result.now ≡ front_items nodes.now begin end }
{
    let front = &nodes[..end.min(nodes.len())];
    match begin {
        None => front,
        Some(begin) => without_first(after(front, begin)),
    }
}

/// What a line keeps of the item at its end, if anything: a kern without its width, or a penalty.
fn kept_at(nodes: &[Node], end: usize) -> Option<Node>
    ensures kept { cons_option result [] ≡ at_break (slice_get nodes.now end) }
    ensures within { IfSome result (λ _. end < length nodes.now) }
{
    match nodes.get(end) {
        Some(Node::Kern(_)) => Some(Node::Kern(Dimen::ZERO)),
        Some(Node::Penalty(penalty)) => Some(Node::Penalty(*penalty)),
        _ => None,
    }
}

/// Replaces the item at an index, and drops the items after it.
fn end_with(items: &mut Vec<Node>, index: usize, node: Node)
    requires { index < length items.old.items }
    ensures { items.new.items ≡ take index items.old.items ++ node ∷ [] }
{
    items[index] = node;
    items.truncate(index + 1);
}

/// Keeps this number of items, and after them what a line keeps of the item at its end.
pub(crate) fn keep_line(items: &mut Vec<Node>, count: usize)
    ensures { items.new.items ≡ items_with_break count items.old.items }
{
    match kept_at(items, count) {
        Some(kept) => end_with(items, count, kept),
        None => items.truncate(count),
    }
}
