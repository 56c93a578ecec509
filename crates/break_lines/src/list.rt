//! The legal places of a list of nodes, and the reasons to refuse it.

ghost use Rattle.std.specs.Prelude.{◌≡◌, ◌≤◌, length, replicate, slice_get, IfOk};
ghost use Rattle.std.specs.List.{list_any};
ghost use Rattle.node_core.specs.Nodes.{max_nodes};
ghost use Rattle.break_lines.specs.Legal.{is_dropped, is_kept, is_glue, is_break, node_before, is_legal, legal_places, penalty_of};
ghost use Rattle.break_lines.specs.Facts.{refusal};
ghost use Rattle.break_lines.specs.Private.Marks.{has_negative_stretch};
ghost use Rattle.node_core.specs.Classes.{shrinks_infinitely};

use crate::fault::BreakFault;
use node_core::{Kind, Node};
use std::alloc::{AllocError, Global};

/// The greatest number of legal places of a list.
pub const MAX_PLACES: usize = 8192;

/// Whether an item is dropped at the beginning of a line.
#[tactic(auto, unfolding(crate::specs::Legal::is_dropped))]
pub fn is_dropped(node: &Node) -> bool
    ensures { result ≡ is_dropped node.now }
{
    node.class().is_discardable()
}

/// Whether the item at an index is glue.
#[tactic(auto, unfolding(crate::specs::Legal::is_glue))]
fn is_glue(nodes: &[Node], index: usize) -> bool
    ensures { result ≡ is_glue (slice_get nodes.now index) }
{
    match nodes.get(index) {
        Some(Node::Glue(_)) => true,
        _ => false,
    }
}

/// Whether glue at an index is a legal place: there is an item before it that is not discardable.
fn is_kept_before(nodes: &[Node], index: usize) -> bool
    ensures { result ≡ is_kept (node_before nodes.now index) }
{
    if index == 0 {
        return false;
    }
    match nodes.get(index - 1) {
        Some(node) => node.class().precedes_break(Kind::Horizontal),
        None => false,
    }
}

/// Whether a place of a list of nodes is legal. The length of the list is a place too, its end.
#[tactic(auto, unfolding(crate::specs::Legal::is_legal, crate::specs::Legal::is_break))]
pub fn is_legal(nodes: &[Node], index: usize) -> bool
    requires { length nodes.now ≤ max_nodes }
    ensures { result ≡ is_legal nodes.now index }
{
    match nodes.get(index) {
        None => true,
        Some(Node::Glue(_)) => is_kept_before(nodes, index),
        Some(Node::Kern(_)) => is_glue(nodes, index + 1),
        Some(Node::Penalty(penalty)) => *penalty < 10_000,
        Some(_) => false,
    }
}

/// The number of legal places of a list of nodes.
fn count_places(nodes: &[Node]) -> usize
    requires { length nodes.now ≤ max_nodes }
    ensures { result ≡ length (legal_places nodes.now) }
{
    let mut count = 0;
    for index in 0..nodes.len() + 1 {
        if is_legal(nodes, index) {
            count += 1;
        }
    }
    count
}

/// Whether there is glue that shrinks in an infinite order.
fn any_shrinks_infinitely(nodes: &[Node]) -> bool
    ensures { result ≡ list_any shrinks_infinitely nodes.now }
{
    nodes.iter().any(|node| node.shrinks_infinitely())
}

/// Why a list of nodes is refused, if it is. The glue is tested before the number of places.
pub fn refusal(nodes: &[Node]) -> Option<BreakFault>
    requires { length nodes.now ≤ max_nodes }
    ensures { result ≡ refusal nodes.now }
{
    if any_shrinks_infinitely(nodes) {
        return Some(BreakFault::InfiniteShrink);
    }
    if count_places(nodes) > MAX_PLACES {
        return Some(BreakFault::TooManyBreaks);
    }
    None
}

/// Whether an item is glue whose stretch is negative.
pub fn has_negative_stretch(node: &Node) -> bool
    ensures { result ≡ has_negative_stretch node.now }
{
    match node {
        Node::Glue(glue) => glue.stretch.get() < 0,
        _ => false,
    }
}

/// The penalty of a break at a place: -10000 at the end, which is a forced break, and 0 at glue and kerns.
#[tactic(auto, unfolding(crate::specs::Legal::penalty_of))]
pub fn penalty_at(nodes: &[Node], index: usize) -> i32
    ensures { result ≡ penalty_of (slice_get nodes.now index) }
{
    match nodes.get(index) {
        None => -10_000,
        Some(Node::Penalty(penalty)) => *penalty,
        Some(_) => 0,
    }
}

/// A counter at 0 for each place. The error is that memory was refused.
pub fn no_trials(alloc: Global, count: usize) -> Result<Vec<u64>, AllocError>
    ensures { IfOk result (λ trials. trials.items ≡ replicate count 0) }
{
    vec![in alloc; 0; count]
}
