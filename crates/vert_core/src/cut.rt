//! Splitting a vertical list (TeX: The Program, part 44, §977 to §979, vsplit).

ghost use Rattle.std.specs.Prelude.{◌≡◌, ◌≢◌, ◌≤◌, ◌<◌, ◌-◌, ◌∷◌, [], Some, None, IfOk, IfErr, OnOk, OnErr, true, false, is_some, length, drop, take};
ghost use Rattle.std.specs.List.{list_any};
ghost use Rattle.std.specs.Option.{IfSome};
ghost use Rattle.node_core.specs.Classes.{shrinks_infinitely};
ghost use Rattle.node_core.specs.Nodes.{max_nodes, items_of, nodes_of};
ghost use Rattle.pack_core.specs.Boxes.{packed_of};
ghost use Rattle.vert_core.specs.Split.{front_of, rest_of, refusal, fault_of};
ghost use Rattle.vert_core.specs.Tails.{AreTails, AreTailsOfRest, MeasureEnds};
ghost use Rattle.vert_core.specs.Private.Steps.{rest_list, packed_left, IsInside, PlanFits};

use crate::parts::{Split, SplitFault, UnsplitList};
use crate::plan::{Plan, SplitRest, plan_split};
use crate::rest::take_rest;
use crate::tails::Tails;
use node_core::{Glue, Node, NodeList, SplitParams};
use pack_core::{PackedBox, Shell, packed_of};
use scaled_core::Dimen;
use std::alloc::{AllocError, Global};

/// Removes the rest from the nodes and puts it into its box.
fn pack_rest(nodes: &mut Vec<Node>, rest: &SplitRest) -> Result<PackedBox, AllocError>
    requires list_bounded { length nodes.old.items ≤ max_nodes }
    requires inside { IsInside rest.now nodes.old.items }
    ensures box_returned { IfOk result (λ packed. packed ≡ packed_of (items_of (rest_list rest.now nodes.old.items)) rest.now.shell) }
    ensures front { OnOk result (nodes.new.items ≡ take (rest.now.first - 1) nodes.old.items) }
    ensures err { OnErr result (nodes.new.items ≡ nodes.old.items) }
{
    let left = take_rest(nodes, rest)?;
    Ok(packed_of(NodeList::from_vec(left), &rest.shell))
}

/// Puts the items before a place into their box.
fn pack_front(mut list: NodeList, place: usize, front: &Shell) -> PackedBox
    ensures { result ≡ packed_of (items_of (take place (nodes_of list))) front.now }
{
    list.truncate(place);
    packed_of(list, front)
}

/// Splits a list as planned; specials are at the top of its rest. The rest moves into memory of its own, since the specials stay above the glue.
fn move_rest(
    list: NodeList,
    tails: Option<Tails>,
    plan: &Plan,
    rest: &SplitRest,
) -> Result<Split, UnsplitList>
    requires list_bounded { length (nodes_of list) ≤ max_nodes }
    requires after { plan.now.place < rest.now.first }
    requires inside { IsInside rest.now (nodes_of list) }
    ensures front { IfOk result (λ s. s.front ≡ packed_of (items_of (take plan.now.place (nodes_of list))) plan.now.front) }
    ensures rest_part { IfOk result (λ s. s.rest ≡ Some (packed_of (items_of (rest_list rest.now (nodes_of list))) rest.now.shell)) }
    ensures tails { IfOk result (λ s. AreTailsOfRest s.tails s.rest) }
    ensures list_returned { IfErr result (λ e. e.list ≡ list) }
    ensures tails_returned { IfErr result (λ e. e.tails ≡ tails) }
    ensures fault { IfErr result (λ e. e.fault ≡ SplitFault.OutOfMemory) }
{
    let mut nodes = list.into_vec();
    match pack_rest(&mut nodes, rest) {
        Err(AllocError) => Err(UnsplitList {
            list: NodeList::from_vec(nodes),
            tails,
            fault: SplitFault::OutOfMemory,
        }),
        Ok(packed) => Ok(Split {
            front: pack_front(NodeList::from_vec(nodes), plan.place, &plan.front),
            rest: Some(packed),
            tails: None,
        }),
    }
}

/// The two parts of a list in their boxes.
#[derive(Debug, Drop)]
struct Parts {
    front: PackedBox,
    rest: PackedBox,
}

/// Moves the items before a place out of a list, and puts the glue above its rest into the slot of the last item that is dropped. The items below it
/// do not move. If memory is refused, the list is returned.
fn move_front(
    mut list: NodeList,
    plan: &Plan,
    rest: &SplitRest,
    glue: Glue,
) -> Result<Parts, NodeList>
    requires list_bounded { length (nodes_of list) ≤ max_nodes }
    requires after { plan.now.place < rest.now.start }
    requires within { rest.now.start ≤ length (nodes_of list) }
    ensures front { IfOk result (λ parts. parts.front ≡ packed_of (items_of (take plan.now.place (nodes_of list))) plan.now.front) }
    ensures rest_part { IfOk result
        (λ parts. parts.rest ≡ packed_of (items_of (Node.Glue glue ∷ drop rest.now.start (nodes_of list))) rest.now.shell) }
    ensures list_returned { IfErr result (λ back. back ≡ list) }
{
    let Ok(front) = list.take_front(plan.place) else {
        return Err(list);
    };
    list.replace_front(rest.start - plan.place, Some(Node::Glue(glue)));
    Ok(Parts {
        front: packed_of(NodeList::from_vec(front), &plan.front),
        rest: packed_of(list, &rest.shell),
    })
}

/// Finds the tails of what stays of a list from an item on.
fn find_tails(list: NodeList, start: usize) -> (NodeList, Result<Tails, AllocError>)
    requires list_bounded { length (nodes_of list) ≤ max_nodes }
    requires start_bounded { start ≤ length (nodes_of list) }
    ensures same { result.0 ≡ list }
    ensures tails { IfOk result.1 (λ tails. MeasureEnds tails.entries.items (drop start (nodes_of list))) }
{
    let nodes = list.into_vec();
    let tails = Tails::of(*nodes.allocator(), &nodes[start..]);
    (NodeList::from_vec(nodes), tails)
}

/// Splits a list with known tails as planned, with this glue at the top of its rest. They are the tails of the rest, too.
fn leave_rest(
    list: NodeList,
    tails: Tails,
    plan: &Plan,
    rest: &SplitRest,
    glue: Glue,
) -> Result<Split, UnsplitList>
    requires list_bounded { length (nodes_of list) ≤ max_nodes }
    requires after { plan.now.place < rest.now.start }
    requires within { rest.now.start ≤ length (nodes_of list) }
    requires known { AreTails tails (nodes_of list) }
    ensures front { IfOk result (λ s. s.front ≡ packed_of (items_of (take plan.now.place (nodes_of list))) plan.now.front) }
    ensures rest_part { IfOk result
        (λ s. s.rest ≡ Some (packed_of (items_of (Node.Glue glue ∷ drop rest.now.start (nodes_of list))) rest.now.shell)) }
    ensures tails { IfOk result (λ s. AreTailsOfRest s.tails s.rest) }
    ensures list_returned { IfErr result (λ e. e.list ≡ list) }
    ensures tails_returned { IfErr result (λ e. e.tails ≡ Some tails) }
    ensures fault { IfErr result (λ e. e.fault ≡ SplitFault.OutOfMemory) }
{
    match move_front(list, plan, rest, glue) {
        Err(list) => Err(UnsplitList {
            list,
            tails: Some(tails),
            fault: SplitFault::OutOfMemory,
        }),
        Ok(parts) => Ok(Split {
            front: parts.front,
            rest: Some(parts.rest),
            tails: Some(tails),
        }),
    }
}

/// Splits a list without known tails as planned, with this glue at the top of its rest. The tails of the rest are found first.
fn leave_first_rest(
    list: NodeList,
    plan: &Plan,
    rest: &SplitRest,
    glue: Glue,
) -> Result<Split, UnsplitList>
    requires list_bounded { length (nodes_of list) ≤ max_nodes }
    requires after { plan.now.place < rest.now.start }
    requires within { rest.now.start ≤ length (nodes_of list) }
    requires finite { list_any shrinks_infinitely (nodes_of list) ≡ false }
    ensures front { IfOk result (λ s. s.front ≡ packed_of (items_of (take plan.now.place (nodes_of list))) plan.now.front) }
    ensures rest_part { IfOk result
        (λ s. s.rest ≡ Some (packed_of (items_of (Node.Glue glue ∷ drop rest.now.start (nodes_of list))) rest.now.shell)) }
    ensures tails { IfOk result (λ s. AreTailsOfRest s.tails s.rest) }
    ensures list_returned { IfErr result (λ e. e.list ≡ list) }
    ensures tails_returned { IfErr result (λ e. e.tails ≡ None) }
    ensures fault { IfErr result (λ e. e.fault ≡ SplitFault.OutOfMemory) }
{
    let (list, found) = find_tails(list, rest.start);
    let Ok(tails) = found else {
        return Err(UnsplitList {
            list,
            tails: None,
            fault: SplitFault::OutOfMemory,
        });
    };
    match move_front(list, plan, rest, glue) {
        Err(list) => Err(UnsplitList {
            list,
            tails: None,
            fault: SplitFault::OutOfMemory,
        }),
        Ok(parts) => Ok(Split {
            front: parts.front,
            rest: Some(parts.rest),
            tails: Some(tails),
        }),
    }
}

/// The glue at the top of a rest, if no special is above it.
fn top_glue_of(rest: &SplitRest) -> Option<Glue>
    ensures { IfSome result (λ glue. (rest.now.glue ≡ Some glue) × (rest.now.first ≡ rest.now.start)) }
{
    if rest.first == rest.start {
        rest.glue
    } else {
        None
    }
}

/// Splits a list as planned. If memory is refused, the list and its tails are returned. Memory is needed only if there is a rest.
fn carry_out(list: NodeList, tails: Option<Tails>, plan: &Plan) -> Result<Split, UnsplitList>
    requires list_bounded { length (nodes_of list) ≤ max_nodes }
    requires sound { PlanFits (nodes_of list) plan.now }
    requires known { IfSome tails (λ known. AreTails known (nodes_of list)) }
    requires finite { list_any shrinks_infinitely (nodes_of list) ≡ false }
    ensures front { IfOk result (λ s. s.front ≡ packed_of (items_of (take plan.now.place (nodes_of list))) plan.now.front) }
    ensures rest_part { IfOk result (λ s. s.rest ≡ packed_left plan.now.rest (nodes_of list)) }
    ensures tails { IfOk result (λ s. AreTailsOfRest s.tails s.rest) }
    ensures growth { OnErr result (is_some plan.now.rest ≡ true) }
    ensures list_returned { IfErr result (λ e. e.list ≡ list) }
    ensures tails_returned { IfErr result (λ e. e.tails ≡ tails) }
    ensures fault { IfErr result (λ e. e.fault ≡ SplitFault.OutOfMemory) }
{
    let Some(rest) = &plan.rest else {
        return Ok(Split {
            front: pack_front(list, plan.place, &plan.front),
            rest: None,
            tails: None,
        });
    };
    let Some(glue) = top_glue_of(rest) else {
        return move_rest(list, tails, plan, rest);
    };
    match tails {
        Some(tails) => leave_rest(list, tails, plan, rest, glue),
        None => leave_first_rest(list, plan, rest, glue),
    }
}

/// Splits a vertical list: the items before the place of the split are packed to exactly this height, with a depth of at most splitmaxdepth, and the
/// rest is packed to its natural height. No item is copied, and the items of the rest do not move, unless specials are at its top. If there is a
/// rest, memory is taken for the nodes of the front, and at the first split of a list for the tails of its rest.
///
/// The tails are those of the list, if they are known, and then those of the rest. With them a split takes time for its front, and none for the items
/// that stay below it.
///
/// The error has the list as it was, its tails, and the fault: `InfiniteShrink` if glue of the list shrinks in an infinite order;
/// `DimensionTooLarge` if there is no such glue but a size of the parts does not fit; and `OutOfMemory` if an allocation is refused.
pub fn split_list(
    list: NodeList,
    tails: Option<Tails>,
    height: Dimen,
    params: &SplitParams,
) -> Result<Split, UnsplitList>
    requires { IfSome tails (λ tails. AreTails tails (nodes_of list)) }
    ensures front { IfOk result (λ s. s.front ≡ front_of params.now height (nodes_of list)) }
    ensures rest_part { IfOk result (λ s. s.rest ≡ rest_of params.now height (nodes_of list)) }
    // The split is allowed; otherwise the fault is the reason, even if memory would be refused too.
    ensures ok { OnOk result (refusal params.now height (nodes_of list) ≡ None) }
    ensures fault { IfErr result (λ e. e.fault ≡ fault_of (refusal params.now height (nodes_of list))) }
    // Memory is needed only if there is a rest.
    ensures growth { OnErr result (refusal params.now height (nodes_of list) ≡ None → is_some (rest_of params.now height (nodes_of list)) ≡ true) }
    // The tails are those of the rest.
    ensures tails { IfOk result (λ s. AreTailsOfRest s.tails s.rest) }
    ensures list_returned { IfErr result (λ e. e.list ≡ list) }
    ensures tails_returned { IfErr result (λ e. e.tails ≡ tails) }
{
    match plan_split(list.as_slice(), &tails, height, params) {
        Err(fault) => Err(UnsplitList { list, tails, fault }),
        Ok(plan) => carry_out(list, tails, &plan),
    }
}

/// A copy of the nodes. The error is that memory was refused, which is needed only if there are nodes.
fn copy_nodes(alloc: Global, nodes: &[Node]) -> Result<Vec<Node>, AllocError>
    ensures ok { IfOk result (λ copy. copy.items ≡ nodes.now) }
    ensures growth { OnErr result (nodes.now ≢ []) }
{
    let mut copy = Vec::with_capacity(alloc, nodes.len())?;
    for node in nodes {
        copy.push(node.copy(alloc)?)?;
    }
    Ok(copy)
}

/// Splits a copy of the nodes as planned.
fn split_copy(alloc: Global, nodes: &[Node], plan: &Plan) -> Result<Split, AllocError>
    requires list_bounded { length nodes.now ≤ max_nodes }
    requires sound { PlanFits nodes.now plan.now }
    requires finite { list_any shrinks_infinitely nodes.now ≡ false }
    ensures front { IfOk result (λ s. s.front ≡ packed_of (items_of (take plan.now.place nodes.now)) plan.now.front) }
    ensures rest_part { IfOk result (λ s. s.rest ≡ packed_left plan.now.rest nodes.now) }
    ensures tails { IfOk result (λ s. AreTailsOfRest s.tails s.rest) }
    ensures growth { OnErr result (nodes.now ≢ []) }
{
    let list = NodeList::from_vec(copy_nodes(alloc, nodes)?);
    match carry_out(list, None, plan) {
        Ok(parts) => Ok(parts),
        Err(_) => Err(AllocError),
    }
}

/// Splits a copy of a vertical list to this height, with the faults of `split_list`. The copy of an empty list takes no memory.
pub fn split(
    alloc: Global,
    nodes: &[Node],
    height: Dimen,
    params: &SplitParams,
) -> Result<Split, SplitFault>
    requires list_bounded { length nodes.now ≤ max_nodes }
    ensures front { IfOk result (λ s. s.front ≡ front_of params.now height nodes.now) }
    ensures rest_part { IfOk result (λ s. s.rest ≡ rest_of params.now height nodes.now) }
    ensures ok { OnOk result (refusal params.now height nodes.now ≡ None) }
    ensures fault { IfErr result (λ e. e ≡ fault_of (refusal params.now height nodes.now)) }
    // The tails are those of the rest.
    ensures tails { IfOk result (λ s. AreTailsOfRest s.tails s.rest) }
    // Memory is needed only if there are nodes to copy.
    ensures growth { OnErr result (refusal params.now height nodes.now ≡ None → nodes.now ≢ []) }
{
    match plan_split(nodes, &None, height, params) {
        Err(fault) => Err(fault),
        Ok(plan) => match split_copy(alloc, nodes, &plan) {
            Ok(parts) => Ok(parts),
            Err(AllocError) => Err(SplitFault::OutOfMemory),
        },
    }
}
