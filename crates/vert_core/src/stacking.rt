//! Stacking the lines of a paragraph as in a vertical list (TeX: The Program, part 39, §877 to §890).

ghost use Rattle.std.specs.Prelude.{◌≡◌, ◌≤◌, ◌<◌, ◌+◌, ◌++◌, [], true, length, reverse, flat_map, vec_len, vec_capacity, if◌then◌else◌, OnOk, OnErr};
ghost use Rattle.std.specs.Prelude.{IfOk, IfErr};
ghost use Rattle.std.specs.List.{All, cons_option};
ghost use Rattle.node_core.specs.Nodes.{max_nodes};
ghost use Rattle.vert_core.specs.Lines.{broken_list, penalty_nodes, vertical_items, last_depth, lines_fit};
ghost use Rattle.vert_core.specs.Private.Measuring.{paragraph_of, IsKnown};
ghost use Rattle.vert_core.specs.Private.Planned.{HasPlainItems, closed_box, stacked_nodes};

use crate::filling::copy_items;
use crate::line_boxes::keep_line;
use crate::measuring::BrokenList;
use crate::planning::{PlannedLine, fault_of, plan_lines};
use break_core::Breaks;
use node_core::{HeapBox, Node, NodeList, Params, any_has_content};
use scaled_core::{Dimen, SizeFault};
use std::alloc::Global;

/// The items that the lines of a paragraph add to a vertical list, and the new previous depth.
#[derive(Debug, Drop)]
pub struct VerticalItems {
    pub nodes: Vec<Node>,
    pub depth: Dimen,
}

/// Appends a node, if there is one, to a list with space for it.
fn put_some(list: &mut Vec<Node>, node: Option<Node>)
    requires { vec_len list.old + length (cons_option node []) ≤ vec_capacity list.old }
    ensures items { list.new.items ≡ list.old.items ++ cons_option node [] }
    ensures capacity { vec_capacity list.new ≡ vec_capacity list.old }
{
    if let Some(node) = node {
        list.push_reserved(node);
    }
}

/// The node of a penalty, unless it is 0.
fn penalty_node(penalty: i32) -> Option<Node>
    ensures { cons_option result [] ≡ penalty_nodes penalty }
{
    if penalty == 0 {
        return None;
    }
    Some(Node::Penalty(penalty))
}

/// The box of a line, with the items that the line keeps of those in it. `plain` says that it is known that none of these is a box or a special.
#[tactic(auto, using(crate::proofs::PlainItems::plain_line))]
fn closed_box(alloc: Global, line: PlannedLine, plain: bool) -> HeapBox
    requires { plain ≡ true → HasPlainItems line }
    ensures { result ≡ closed_box line }
{
    let count = line.end.saturating_sub(line.begin);
    let mut boxed = line.box_node;
    let list = boxed.replace_list(NodeList::new(alloc));
    // A list is never longer than the limit, and this one does not get longer.
    let _whole = list.len();
    let mut items = list.into_vec();
    keep_line(&mut items, count);
    boxed.replace_list(NodeList::with_plainness(items, plain));
    boxed
}

/// Appends a line to a list with space for it: its glue, its box, and its penalty.
#[tactic(auto, unfolding(crate::specs::Private::Planned::stacked_nodes))]
fn stack_line(list: &mut Vec<Node>, line: PlannedLine, plain: bool)
    requires space { vec_len list.old + length (stacked_nodes line) ≤ vec_capacity list.old }
    requires plain { plain ≡ true → HasPlainItems line }
    ensures items { list.new.items ≡ list.old.items ++ stacked_nodes line }
    ensures capacity { vec_capacity list.new ≡ vec_capacity list.old }
{
    let after = penalty_node(line.penalty);
    put_some(list, line.glue.map(Node::Glue));
    let boxed = closed_box(*list.allocator(), line, plain);
    list.push_reserved(Node::Box(Dimen::ZERO, boxed));
    put_some(list, after);
}

/// Appends lines that have their items, and of which the last one comes first, to a list with space for them. `plain` says that it is known that none
/// of these items is a box or a special.
pub(crate) fn stack_lines(list: &mut Vec<Node>, mut lines: Vec<PlannedLine>, plain: bool)
    requires space { vec_len list.old + length (flat_map stacked_nodes (reverse lines.items)) ≤ vec_capacity list.old }
    requires plain { plain ≡ true → All HasPlainItems lines.items }
    ensures { list.new.items ≡ list.old.items ++ flat_map stacked_nodes (reverse lines.items) }
{
    while let Some(line) = lines.pop() {
        stack_line(list, line, plain);
    }
}

/// The items that the lines of a broken list add to a vertical list with this previous depth, with copies of the items of the list.
fn copied_lines(
    alloc: Global,
    broken: &BrokenList,
    previous_depth: Dimen,
) -> Result<VerticalItems, SizeFault>
    requires list_bounded { length broken.now.nodes.now ≤ max_nodes }
    requires known { IsKnown broken.now 0 0 }
    ensures ok { IfOk result (λ items. items.nodes.items ≡ vertical_items (paragraph_of broken.now previous_depth)) }
    ensures depth { IfOk result (λ items. items.depth ≡ last_depth (paragraph_of broken.now previous_depth)) }
    ensures fits { OnOk result (lines_fit (paragraph_of broken.now previous_depth) ≡ true) }
{
    let plan = plan_lines(alloc, broken, previous_depth)?;
    let mut nodes = Vec::with_capacity(alloc, plan.count)?;
    let filled = copy_items(alloc, broken.nodes, plan.lines)?;
    stack_lines(&mut nodes, filled, !any_has_content(broken.nodes));
    Ok(VerticalItems {
        nodes,
        depth: plan.depth,
    })
}

/// The items that the lines of a paragraph add to a vertical list with this previous depth. `nodes` is the finished list of at most `MAX_NODES`
/// nodes, and the breaks are its breaks, or other places in order.
///
/// The fault is `DimensionTooLarge` exactly if a number of the box of a line does not fit, or the glue before it does not; refused memory never hides
/// it. Otherwise it is `OutOfMemory`. Without lines nothing is allocated.
pub fn lines<'a>(
    alloc: Global,
    nodes: &'a [Node],
    breaks: &'a Breaks,
    params: &'a Params,
    previous_depth: Dimen,
) -> Result<VerticalItems, SizeFault>
    requires list_bounded { length nodes.now ≤ max_nodes }
    ensures ok { IfOk result (λ items. items.nodes.items ≡ vertical_items (broken_list nodes.now breaks.now.lines.items params.now previous_depth)) }
    ensures depth { IfOk result (λ items. items.depth ≡ last_depth (broken_list nodes.now breaks.now.lines.items params.now previous_depth)) }
    ensures lines_present { OnErr result (0 < length breaks.now.lines.items) }
    ensures fits { OnOk result (lines_fit (broken_list nodes.now breaks.now.lines.items params.now previous_depth) ≡ true) }
    ensures fault { IfErr result (λ fault. fault ≡
        (if lines_fit (broken_list nodes.now breaks.now.lines.items params.now previous_depth)
        then SizeFault.OutOfMemory else SizeFault.DimensionTooLarge)) }
{
    let broken = BrokenList {
        nodes,
        ends: &breaks.lines,
        params,
        measured: None,
    };
    if breaks.lines.is_empty() {
        return Ok(VerticalItems {
            nodes: Vec::new(alloc),
            depth: previous_depth,
        });
    }
    match copied_lines(alloc, &broken, previous_depth) {
        Ok(items) => Ok(items),
        // A line after the one for which memory was refused may not fit, so all lines are measured. Lines that are stacked are measured only once.
        Err(_) => Err(fault_of(&broken, previous_depth)),
    }
}
