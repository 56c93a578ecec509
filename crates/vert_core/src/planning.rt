//! The lines of a paragraph before their items are in them. All sizes are known then, so whatever can be refused is refused before an item moves.

ghost use Rattle.std.specs.Prelude.{◌≡◌, ◌≤◌, ◌<◌, true, false, get_or, length, map, flat_map, if◌then◌else◌, IfOk, IfErr, OnOk, OnErr};
ghost use Rattle.node_core.specs.Items.{none};
ghost use Rattle.node_core.specs.Nodes.{max_nodes};
ghost use Rattle.pack_core.specs.Boxes.{packed_of};
ghost use Rattle.break_lines.specs.Legal.{up_to};
ghost use Rattle.vert_core.specs.Lines.{line_places, last_depth, lines_fit};
ghost use Rattle.vert_core.specs.Private.Measuring.{paragraph_of, IsKnown};
ghost use Rattle.vert_core.specs.Private.Planned.{penalty_between, plan_of_line, stacked_nodes};

use crate::measuring::{BrokenList, MeasuredLine, line_end, lines_fit, measure_line};
use crate::penalties::penalty_between;
use node_core::{Glue, HeapBox, Node, NodeList};
use pack_core::packed_of;
use scaled_core::{Dimen, SizeFault};
use std::alloc::{AllocError, Global};

/// A line as it is stacked.
#[derive(Debug, Drop)]
pub(crate) struct PlannedLine {
    /// The glue before the box, if there is any.
    pub(crate) glue: Option<Glue>,
    /// The box, which gets its items last.
    pub(crate) box_node: HeapBox,
    /// The penalty after the box. There is none where it is 0.
    pub(crate) penalty: i32,
    /// The index of the first item of the line in the finished list.
    pub(crate) begin: usize,
    /// The place where the line ends.
    pub(crate) end: usize,
}

/// All lines of a paragraph, none of which has items yet.
#[derive(Debug, Drop)]
pub(crate) struct PlannedLines {
    pub(crate) lines: Vec<PlannedLine>,
    /// The number of items that they add to the vertical list.
    pub(crate) count: usize,
    /// The new previous depth.
    pub(crate) depth: Dimen,
}

/// A line with its sizes, without its items. The error is that memory was refused.
fn planned_line(
    alloc: Global,
    broken: &BrokenList,
    line: usize,
    measured: &MeasuredLine,
) -> Result<PlannedLine, AllocError>
    requires { line < length broken.now.ends.now }
    ensures { IfOk result (λ planned. planned ≡ record {
      glue = measured.now.glue;
      box_node = (packed_of none measured.now.shell).box_node;
      penalty = penalty_between broken.now.params.now (length broken.now.ends.now) line;
      begin = measured.now.begin;
      end = get_or (line_places broken.now.ends.now) line 0;
    }) }
{
    let Ok(box_node) = HeapBox::new(
        alloc,
        packed_of(NodeList::new(alloc), &measured.shell).box_node,
    ) else {
        return Err(AllocError);
    };
    Ok(PlannedLine {
        glue: measured.glue,
        box_node,
        penalty: penalty_between(broken.params, broken.ends.len(), line),
        begin: measured.begin,
        end: line_end(broken.ends, line),
    })
}

/// The number of items that a line adds to the vertical list.
#[tactic(auto, unfolding(crate::specs::Private::Planned::stacked_nodes))]
fn items_of_line(line: &PlannedLine) -> usize
    ensures count { result ≡ length (stacked_nodes line.now) }
    ensures few { result ≤ 3 }
{
    let glue = if line.glue.is_some() { 1 } else { 0 };
    let penalty = if line.penalty == 0 { 0 } else { 1 };
    1 + glue + penalty
}

/// Plans the lines of a broken list, the first one after a previous depth.
pub(crate) fn plan_lines(
    alloc: Global,
    broken: &BrokenList,
    previous_depth: Dimen,
) -> Result<PlannedLines, SizeFault>
    requires list_bounded { length broken.now.nodes.now ≤ max_nodes }
    requires known { IsKnown broken.now 0 0 }
    ensures lines { IfOk result (λ plan. plan.lines.items ≡ map (plan_of_line (paragraph_of broken.now previous_depth))
        (up_to (length broken.now.ends.now))) }
    ensures count { IfOk result (λ plan. plan.count ≡ length (flat_map stacked_nodes plan.lines.items)) }
    ensures depth { IfOk result (λ plan. plan.depth ≡ last_depth (paragraph_of broken.now previous_depth)) }
    ensures fits { OnOk result (lines_fit (paragraph_of broken.now previous_depth) ≡ true) }
    ensures fault { IfErr result (λ fault. fault ≡ SizeFault.DimensionTooLarge → lines_fit (paragraph_of broken.now previous_depth) ≡ false) }
{
    let mut lines = Vec::with_capacity(alloc, broken.ends.len())?;
    let mut count = 0;
    let mut depth = previous_depth;
    let mut from = 0;
    for line in 0..broken.ends.len() {
        let Some(measured) = measure_line(broken, depth, line, from) else {
            return Err(SizeFault::DimensionTooLarge);
        };
        let planned = planned_line(alloc, broken, line, &measured)?;
        count += items_of_line(&planned);
        depth = measured.shell.depth;
        from = measured.to;
        lines.push_reserved(planned);
    }
    Ok(PlannedLines {
        lines,
        count,
        depth,
    })
}

/// Why the lines of a broken list are not stacked.
pub(crate) fn fault_of(broken: &BrokenList, previous_depth: Dimen) -> SizeFault
    requires list_bounded { length broken.now.nodes.now ≤ max_nodes }
    requires known { IsKnown broken.now 0 0 }
    ensures { result ≡ (if lines_fit (paragraph_of broken.now previous_depth) then SizeFault.OutOfMemory else SizeFault.DimensionTooLarge) }
{
    if lines_fit(broken, previous_depth) {
        return SizeFault::OutOfMemory;
    }
    SizeFault::DimensionTooLarge
}

/// Plans the lines of a broken list. Refused memory hides no line that does not fit: then all lines are measured once more, without memory.
pub(crate) fn plan_lines_that_fit(
    alloc: Global,
    broken: &BrokenList,
    previous_depth: Dimen,
) -> Result<PlannedLines, SizeFault>
    requires list_bounded { length broken.now.nodes.now ≤ max_nodes }
    requires known { IsKnown broken.now 0 0 }
    ensures lines { IfOk result (λ plan. plan.lines.items ≡ map (plan_of_line (paragraph_of broken.now previous_depth))
        (up_to (length broken.now.ends.now))) }
    ensures count { IfOk result (λ plan. plan.count ≡ length (flat_map stacked_nodes plan.lines.items)) }
    ensures depth { IfOk result (λ plan. plan.depth ≡ last_depth (paragraph_of broken.now previous_depth)) }
    ensures fits { OnOk result (lines_fit (paragraph_of broken.now previous_depth) ≡ true) }
    ensures fault { IfErr result (λ fault. fault ≡ SizeFault.DimensionTooLarge → lines_fit (paragraph_of broken.now previous_depth) ≡ false) }
    ensures memory { IfErr result (λ fault. fault ≡ SizeFault.OutOfMemory → lines_fit (paragraph_of broken.now previous_depth) ≡ true) }
{
    match plan_lines(alloc, broken, previous_depth) {
        Ok(plan) => Ok(plan),
        Err(_) => Err(fault_of(broken, previous_depth)),
    }
}
