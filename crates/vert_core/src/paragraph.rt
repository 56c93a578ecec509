//! The finished list of a paragraph: its breaks, the plan of its lines, and its items in them.

ghost use Rattle.std.specs.Prelude.{◌≡◌, ◌≤◌, ◌+◌, ◌++◌, ◌<◌, true, [], ℤ, length, flat_map, None, IfOk, IfErr, OnOk, OnErr};
ghost use Rattle.std.specs.Option.{unwrap_or};
ghost use Rattle.node_core.specs.Nodes.{max_nodes, IsPlain};
ghost use Rattle.break_lines.specs.Facts.{facts_of, refusal};
ghost use Rattle.break_core.specs.Passes.{IsBroken};
ghost use Rattle.break_core.specs.Trials.{passes_run};
ghost use Rattle.vert_core.specs.declared.paragraph.ParagraphFault.TheVariants.{OutOfMemory};
ghost use Rattle.vert_core.specs.Finished.{finished_list};
ghost use Rattle.vert_core.specs.Paragraphs.{unset_by, unstacked_by, IsUnsetList};
ghost use Rattle.vert_core.specs.Private.Measuring.{IsMeasuredBy};
ghost use Rattle.vert_core.specs.Private.Planned.{AreInOrder, moved_lines, stacked_nodes};
ghost use Rattle.vert_core.specs.Private.PlannedParagraphs.{IsPlanned};
ghost use Rattle.vert_core.specs.TrialBounds.{TrialsAreBounded};

use crate::filling::move_items;
use crate::finishing::refusal_of_finished;
use crate::measuring::{BrokenList, MeasuredSums};
use crate::planning::{PlannedLines, plan_lines_that_fit};
use crate::stacking::stack_lines;
use break_core::{BreakFault, Breaks, ListMeter, active_breaks};
use node_core::{Node, Params};
use scaled_core::{Dimen, SizeFault};
use std::alloc::{AllocError, Global};
use thiserror::Error;

/// Why a paragraph was not set.
#[derive(Clone, Copy, Debug, PartialEq, Eq, Error)]
pub enum ParagraphFault {
    /// Some glue shrinks in an infinite order.
    #[error("glue of a paragraph shrinks without end")]
    InfiniteShrink,
    /// There are more than `max_places` legal places.
    #[error("a paragraph has too many places for breaks")]
    TooManyBreaks,
    /// A number of the box of a line does not fit, or the glue before it does not.
    #[error("a size of a line is too large")]
    DimensionTooLarge,
    /// Out of memory: an allocation was refused.
    #[error("out of memory")]
    OutOfMemory,
}

impl From<BreakFault> for ParagraphFault {
    ghost from_gives = { λ cause fault. fault ≡ unset_by cause };

    fn from(cause: BreakFault) -> ParagraphFault {
        match cause {
            BreakFault::InfiniteShrink => ParagraphFault::InfiniteShrink,
            BreakFault::TooManyBreaks => ParagraphFault::TooManyBreaks,
            BreakFault::OutOfMemory => ParagraphFault::OutOfMemory,
        }
    }
}

impl From<SizeFault> for ParagraphFault {
    ghost from_gives = { λ cause fault. fault ≡ unstacked_by cause };

    fn from(cause: SizeFault) -> ParagraphFault {
        match cause {
            SizeFault::DimensionTooLarge => ParagraphFault::DimensionTooLarge,
            SizeFault::OutOfMemory => ParagraphFault::OutOfMemory,
        }
    }
}

impl From<AllocError> for ParagraphFault {
    ghost from_gives = { λ _ fault. fault ≡ OutOfMemory };

    fn from(_error: AllocError) -> ParagraphFault {
        ParagraphFault::OutOfMemory
    }
}

/// Why a paragraph was not set whose list could not be finished: it cannot be broken, or otherwise memory was refused.
pub(crate) fn unfinished_fault(nodes: &[Node], params: &Params) -> ParagraphFault
    requires { length nodes.now ≤ max_nodes }
    ensures { (previous : ℤ) → IsUnsetList (finished_list nodes.now params.now.par_fill_skip) params.now previous result }
{
    match refusal_of_finished(nodes, params.par_fill_skip) {
        None => ParagraphFault::OutOfMemory,
        Some(BreakFault::InfiniteShrink) => ParagraphFault::InfiniteShrink,
        Some(BreakFault::TooManyBreaks) => ParagraphFault::TooManyBreaks,
        Some(BreakFault::OutOfMemory) => unreachable!(),
    }
}

/// The breaks of a finished list of at most `MAX_NODES` nodes, which are those of `breaks` in break_core, the number of lines that were tried, which
/// is small, and what the list was measured by.
fn counted_breaks<'a>(
    alloc: Global,
    nodes: &'a [Node],
    params: &Params,
) -> Result<(Breaks, u128, MeasuredSums<'a>), BreakFault>
    requires list_bounded { length nodes.now ≤ max_nodes }
    ensures broken { IfOk result (λ counted. IsBroken (facts_of nodes.now) params.now counted.0) }
    ensures tried { IfOk result (λ counted. 0 < counted.1) }
    ensures trials { IfOk result (λ counted. TrialsAreBounded (facts_of nodes.now) params.now (passes_run params.now counted.0.pass) counted.1) }
    ensures measured { IfOk result (λ counted. IsMeasuredBy nodes.now counted.2) }
    ensures fits { OnOk result (refusal nodes.now ≡ None) }
    ensures fault { IfErr result (λ fault. fault ≡ unwrap_or (refusal nodes.now) BreakFault.OutOfMemory) }
{
    let (mut meter, sizes) = ListMeter::with_sizes(alloc, nodes)?;
    let breaks = active_breaks(alloc, &mut meter, params)?;
    let trials = meter.all_trials();
    Ok((breaks, trials, MeasuredSums { meter, sizes }))
}

/// A finished list that is broken, with its lines as they will be stacked.
#[derive(Debug, Drop)]
pub(crate) struct PlannedParagraph {
    pub(crate) plan: PlannedLines,
    pub(crate) breaks: Breaks,
    pub(crate) trials: u128,
    /// Whether it is known that no item of the list is a box or a special.
    pub(crate) plain: bool,
}

/// Breaks a finished list of at most `MAX_NODES` nodes, and plans its lines.
pub(crate) fn plan_finished(
    alloc: Global,
    nodes: &[Node],
    params: &Params,
    previous_depth: Dimen,
) -> Result<PlannedParagraph, ParagraphFault>
    requires { length nodes.now ≤ max_nodes }
    ensures ok { IfOk result (IsPlanned nodes.now params.now previous_depth) }
    ensures plain { IfOk result (λ planned. planned.plain ≡ true → IsPlain nodes.now) }
    ensures refused { IfErr result (IsUnsetList nodes.now params.now previous_depth) }
{
    let (breaks, trials, measured) = counted_breaks(alloc, nodes, params)?;
    let broken = BrokenList {
        nodes,
        ends: &breaks.lines,
        params,
        measured: Some(&measured),
    };
    let plan = plan_lines_that_fit(alloc, &broken, previous_depth)?;
    let plain = measured.sizes.is_plain();
    Ok(PlannedParagraph {
        plan,
        breaks,
        trials,
        plain,
    })
}

/// Moves the items of a finished list into its lines, and these to the end of another list. Where memory is refused, both are as they were before.
/// `plain` says that it is known that no item is a box or a special.
pub(crate) fn stack_planned(
    nodes: &mut Vec<Node>,
    plan: PlannedLines,
    plain: bool,
    around: &mut Vec<Node>,
) -> Result<(), AllocError>
    requires list_bounded { length nodes.old.items ≤ max_nodes }
    requires in_order { AreInOrder (length nodes.old.items + 1) plan.lines.items }
    requires count { plan.count ≡ length (flat_map stacked_nodes (moved_lines nodes.old.items (length nodes.old.items) plan.lines.items)) }
    requires plain { plain ≡ true → IsPlain nodes.old.items }
    ensures ok { OnOk result
        (around.new.items ≡ around.old.items ++ flat_map stacked_nodes (moved_lines nodes.old.items (length nodes.old.items) plan.lines.items)) }
    ensures emptied { OnOk result (nodes.new.items ≡ []) }
    ensures err { OnErr result (nodes.new.items ≡ nodes.old.items) }
    ensures same { OnErr result (around.new.items ≡ around.old.items) }
{
    around.reserve(plan.count)?;
    let filled = move_items(nodes, plan.lines)?;
    stack_lines(around, filled, plain);
    Ok(())
}
