//! The lines of a paragraph at the end of a vertical list.

ghost use Rattle.std.specs.Prelude.{◌≡◌, ◌≤◌, ◌+◌, [], length, None, IfOk, IfErr, OnOk, OnErr};
ghost use Rattle.node_core.specs.Items.{none};
ghost use Rattle.node_core.specs.Nodes.{max_nodes, nodes_of};
ghost use Rattle.break_lines.specs.Facts.{facts_of, refusal};
ghost use Rattle.vert_core.specs.Appended.{IsAppended, IsUnappended};
ghost use Rattle.vert_core.specs.Finished.{finished_list};
ghost use Rattle.vert_core.specs.Paragraphs.{break_fault, IsUnset, IsUnsetList};
ghost use Rattle.vert_core.specs.Setting.{list_setting, setting};
ghost use Rattle.vert_core.specs.TrialBounds.{AreFewTrials};

use crate::finishing::{finish_paragraph, unfinish_paragraph};
use crate::levels::levels_of_lines;
use crate::paragraph::{
    ParagraphFault, PlannedParagraph, plan_finished, stack_planned, unfinished_fault,
};
use break_core::Pass;
use node_core::limits::{MAX_DEPTH, MAX_ITEMS};
use node_core::{Node, NodeList, Params};
use scaled_core::Dimen;
use std::alloc::Global;
use std::mem::replace;
use thiserror::Error;

/// A paragraph whose lines were appended to a list.
#[derive(Clone, Copy, Debug, PartialEq, Eq)]
pub struct AppendedParagraph {
    /// The new previous depth.
    pub depth: Dimen,
    /// The number of its lines.
    pub lines: usize,
    /// The pass that admitted its breaks, or `None` if the paragraph is empty.
    pub pass: Option<Pass>,
    /// The total overhang of the overfull lines, in scaled points.
    pub overhang: i64,
    pub demerits: i64,
    /// The number of lines that were tried.
    pub trials: u128,
}

/// Why the lines of a paragraph were not appended to a list.
#[derive(Clone, Copy, Debug, PartialEq, Eq, Error)]
pub enum UnappendedLines {
    /// The paragraph was not set.
    #[error("a paragraph is not set: {0}")]
    Unset(ParagraphFault),
    /// Boxes would nest more than 200 deep.
    #[error("boxes nest too deep")]
    TooDeep,
    /// The list would have more than `MAX_ITEMS` items.
    #[error("a list is too long")]
    TooLong,
}

/// Appends the lines of a finished list of at most `MAX_NODES` nodes, whose items go into the lines. Where they are not appended, both lists are as
/// they were before.
fn append_finished(
    alloc: Global,
    nodes: &mut Vec<Node>,
    around: &mut Vec<Node>,
    params: &Params,
    previous_depth: Dimen,
) -> Result<AppendedParagraph, UnappendedLines>
    requires { length nodes.old.items ≤ max_nodes }
    ensures ok { IfOk result (IsAppended (list_setting nodes.old.items params.now previous_depth) around.old.items around.new.items) }
    ensures fits { OnOk result (refusal nodes.old.items ≡ None) }
    ensures trials { IfOk result (λ figures. AreFewTrials (facts_of nodes.old.items) params.now figures.pass figures.trials) }
    ensures emptied { OnOk result (nodes.new.items ≡ []) }
    ensures refused { IfErr result (IsUnappended (list_setting nodes.old.items params.now previous_depth)
        (IsUnsetList nodes.old.items params.now previous_depth) around.old.items) }
    ensures err { OnErr result (nodes.new.items ≡ nodes.old.items) }
    ensures same { OnErr result (around.new.items ≡ around.old.items) }
{
    let planned = match plan_finished(alloc, nodes, params, previous_depth) {
        Ok(planned) => planned,
        Err(fault) => return Err(UnappendedLines::Unset(fault)),
    };
    let PlannedParagraph {
        plan,
        breaks,
        trials,
        plain,
    } = planned;
    if levels_of_lines(nodes, &plan.lines, plain) > MAX_DEPTH {
        return Err(UnappendedLines::TooDeep);
    }
    if around.len().saturating_add(plan.count) > MAX_ITEMS {
        return Err(UnappendedLines::TooLong);
    }
    let figures = AppendedParagraph {
        depth: plan.depth,
        lines: breaks.lines.len(),
        pass: Some(breaks.pass),
        overhang: breaks.overhang,
        demerits: breaks.demerits,
        trials,
    };
    match stack_planned(nodes, plan, plain, around) {
        Ok(()) => Ok(figures),
        Err(_) => Err(UnappendedLines::Unset(ParagraphFault::OutOfMemory)),
    }
}

/// Appends the lines of a list of at most `MAX_NODES` less two items, which go into the lines. Where they are not appended, both lists are as they
/// were before.
fn append_items(
    alloc: Global,
    nodes: &mut Vec<Node>,
    around: &mut Vec<Node>,
    params: &Params,
    previous_depth: Dimen,
) -> Result<AppendedParagraph, UnappendedLines>
    requires { length nodes.old.items + 2 ≤ max_nodes }
    ensures ok { IfOk result (IsAppended (list_setting (finished_list nodes.old.items params.now.par_fill_skip) params.now previous_depth)
        around.old.items around.new.items) }
    ensures fits { OnOk result (refusal (finished_list nodes.old.items params.now.par_fill_skip) ≡ None) }
    ensures trials { IfOk result (λ figures. AreFewTrials (facts_of (finished_list nodes.old.items params.now.par_fill_skip)) params.now figures.pass
        figures.trials) }
    ensures emptied { OnOk result (nodes.new.items ≡ []) }
    ensures refused { IfErr result (IsUnappended (list_setting (finished_list nodes.old.items params.now.par_fill_skip) params.now previous_depth)
        (IsUnsetList (finished_list nodes.old.items params.now.par_fill_skip) params.now previous_depth) around.old.items) }
    ensures err { OnErr result (nodes.new.items ≡ nodes.old.items) }
    ensures same { OnErr result (around.new.items ≡ around.old.items) }
{
    let Ok(replaced) = finish_paragraph(nodes, params.par_fill_skip) else {
        return Err(UnappendedLines::Unset(unfinished_fault(nodes, params)));
    };
    match append_finished(alloc, nodes, around, params, previous_depth) {
        Ok(figures) => Ok(figures),
        Err(fault) => {
            unfinish_paragraph(nodes, replaced);
            Err(fault)
        }
    }
}

/// Sets a paragraph of at most `MAX_NODES` less two items after a previous depth, and appends its lines to a list of at most `MAX_ITEMS` items. Its
/// items go into its lines, so its list is then empty. If the lines are not appended, both lists are as they were before the call.
///
/// The fault is `Unset` if the paragraph is not set, else `TooDeep` if boxes of its lines nest more than `MAX_DEPTH` deep, else `TooLong` if the
/// other list would have more than `MAX_ITEMS` items, else `Unset` for refused memory. `Unset` comes with `InfiniteShrink` exactly if glue of the
/// finished list shrinks in an infinite order, and with `TooManyBreaks` exactly if there is no such glue but more than `max_places` legal places;
/// refused memory hides neither. Otherwise it comes with `DimensionTooLarge` if a line does not fit, which refused memory hides only if the breaks
/// were not found because of it, or with `OutOfMemory`. For a paragraph with items at least one line is tried, and at most as many lines as there are
/// places after each place up to the place where trying stops.
pub fn append_paragraph(
    alloc: Global,
    list: &mut NodeList,
    around: &mut NodeList,
    params: &Params,
    previous_depth: Dimen,
) -> Result<AppendedParagraph, UnappendedLines>
    requires list_bounded { length (nodes_of list.old) + 2 ≤ max_nodes }
    requires around_bounded { length (nodes_of around.old) ≤ MAX_ITEMS }
    ensures ok { IfOk result (IsAppended (setting (nodes_of list.old) params.now previous_depth) (nodes_of around.old) (nodes_of around.new)) }
    ensures fits { OnOk result (break_fault (nodes_of list.old) params.now.par_fill_skip ≡ None) }
    ensures trials { IfOk result (λ figures. AreFewTrials (facts_of (finished_list (nodes_of list.old) params.now.par_fill_skip)) params.now
        figures.pass figures.trials) }
    ensures emptied { OnOk result (list.new ≡ none) }
    ensures refused { IfErr result (IsUnappended (setting (nodes_of list.old) params.now previous_depth)
        (IsUnset (nodes_of list.old) params.now previous_depth) (nodes_of around.old)) }
    ensures err { OnErr result (list.new ≡ list.old) }
    ensures same { OnErr result (around.new ≡ around.old) }
{
    if list.is_empty() {
        return Ok(AppendedParagraph {
            depth: previous_depth,
            lines: 0,
            pass: None,
            overhang: 0,
            demerits: 0,
            trials: 0,
        });
    }
    let mut nodes = replace(list, NodeList::new(alloc)).into_vec();
    let mut items = replace(around, NodeList::new(alloc)).into_vec();
    let figures = append_items(alloc, &mut nodes, &mut items, params, previous_depth);
    *list = NodeList::from_vec(nodes);
    *around = NodeList::from_vec(items);
    figures
}
