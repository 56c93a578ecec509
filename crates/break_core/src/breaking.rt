//! Two breakers of paragraphs with the same result: `breaks`, which tries all pairs of places, and `active_breaks`, which tries few lines.

ghost use Rattle.std.specs.Prelude.{◌≡◌, ◌<◌, ◌≤◌, length, None, IfOk, IfErr, OnOk, OnErr};
ghost use Rattle.std.specs.Option.{unwrap_or};
ghost use Rattle.node_core.specs.Nodes.{max_nodes};
ghost use Rattle.break_lines.specs.Facts.{facts_of, refusal};
ghost use Rattle.break_core.specs.Passes.{IsBroken};
ghost use Rattle.break_core.specs.Trials.{passes_run, AreBounded, AreBoundedByPasses, HasNoTrials};

use crate::broken::Breaks;
use crate::pass_rules::Trying;
use crate::passes::breaks_of;
use break_lines::{BreakFault, ListMeter, Meter};
use node_core::{Node, Params};
use std::alloc::{AllocError, Global};

/// The breaks of a finished list of at most 131,072 nodes: the best list of breaks in the first pass that admits one.
///
/// `InfiniteShrink` is returned exactly when the list has glue that shrinks in an infinite order, and `TooManyBreaks` exactly when it has no such
/// glue but more than 8,192 legal places; a refused allocation never hides these two. `OutOfMemory` is returned if an allocation is refused.
pub fn breaks(alloc: Global, nodes: &[Node], params: &Params) -> Result<Breaks, BreakFault>
    requires list_bounded { length nodes.now ≤ max_nodes }
    ensures broken { IfOk result (IsBroken (facts_of nodes.now) params.now) }
    ensures fits { OnOk result (refusal nodes.now ≡ None) }
    ensures fault { IfErr result (λ fault. fault ≡ unwrap_or (refusal nodes.now) BreakFault.OutOfMemory) }
{
    let mut meter = ListMeter::new(alloc, nodes)?;
    Ok(breaks_of(alloc, &mut meter, params, Trying::EveryLine)?)
}

/// The breaks of a paragraph, given by a meter without trials: the same list that `breaks` chooses, but with few trials. The only error is that
/// memory was refused. Then too only passes were run before which no pass admits a list, and the trials in them are few.
pub fn active_breaks<M: Meter>(
    alloc: Global,
    meter: &mut M,
    params: &Params,
) -> Result<Breaks, AllocError>
    requires fresh { HasNoTrials (M.trials meter.old) }
    ensures broken { IfOk result (IsBroken (M.facts meter.old) params.now) }
    ensures facts { M.facts meter.new ≡ M.facts meter.old }
    ensures run { IfOk result (λ breaks. AreBounded (M.facts meter.old) params.now (passes_run params.now breaks.pass) (M.trials meter.new)) }
    ensures refused { OnErr result (AreBoundedByPasses (M.facts meter.old) params.now (M.trials meter.new)) }
    ensures tried { OnOk result (0 < M.trials meter.new 0) }
{
    breaks_of(alloc, meter, params, Trying::FewLines)
}
