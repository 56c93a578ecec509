//! The passes over a paragraph.

ghost use Rattle.std.specs.Prelude.{◌≡◌, ◌+◌, ◌*◌, ◌<◌, ◌≤◌, ℕ, true, map, List, IfOk, IfSome, OnOk, OnErr, MatchOption};
ghost use Rattle.break_lines.specs.declared.state.BreakState.{BreakState};
ghost use Rattle.break_lines.specs.Problems.{max_places};
ghost use Rattle.break_lines.specs.Chosen.{AdmitsNone, IsAnswer};
ghost use Rattle.break_lines.specs.Facts.{Facts};
ghost use Rattle.break_core.specs.Passes.{problem_of, bound_of, line_end_at, IsBroken};
ghost use Rattle.break_lines.specs.Steady.{IsSteady};
ghost use Rattle.break_lines.specs.Even.{IsEven};
ghost use Rattle.break_core.specs.Private.LeftOut.{IsWidening, MayLeaveOut};
ghost use Rattle.break_core.specs.Trials.{is_bounded, first_run, passes_run, AreBounded, AreBoundedByPasses, HasNoTrials};
ghost use Rattle.break_core.specs.Private.Filling.{IsGrown, CountsMayGrow, AreEndsInParagraph, IsDecided};
ghost use Rattle.break_core.specs.Private.Active.{TrialsOnlyGrow, MayStop, IsWithin, AreAdded, AreAddedByPasses};

use crate::broken::{Breaks, LineEnd, Pass};
use crate::filling::fill;
use crate::pass_rules::{Rules, StopRule, Trying, most_admitted, wait_limit};
use break_lines::{Bound, BreakState, ChosenBreaks, Meter, chosen_list, line_size};
use node_core::Params;
use std::alloc::{AllocError, Global};

/// The lines that a pass admits.
fn bound_of(params: &Params, pass: Pass) -> Bound
    ensures { result ≡ bound_of params.now pass }
{
    match pass {
        Pass::First => Bound::AtMost(params.pretolerance),
        Pass::Second => Bound::AtMost(params.tolerance),
        Pass::Third => Bound::Any,
    }
}

/// Whether no line from the second one on is wider than the next one.
fn is_widening(params: &Params) -> bool
    ensures { result ≡ true → IsWidening params.now }
{
    if params.first_lines.get() < 2 {
        return true;
    }
    params.first_size.get() <= params.hsize.get()
}

/// Whether long lines can be left out of the last pass over a steady paragraph. They can if a long line can always be divided at the earlier place:
/// the two lines have less overhang together than the long one, so the long one is in no chosen list.
fn may_leave_out<M: Meter>(meter: &M, params: &Params) -> bool
    requires steady { IsSteady (M.facts meter.now) }
    ensures { result ≡ true → MayLeaveOut (M.facts meter.now) params.now }
{
    if !is_widening(params) {
        return false;
    }
    let least = line_size(params, 1);
    if least.get() <= 0 {
        return false;
    }
    meter.is_divided(least)
}

/// When to stop trying lines in a pass over a paragraph if few lines are tried.
fn earliest_stop<M: Meter>(meter: &M, params: &Params, pass: Pass) -> StopRule
    ensures may { MayStop result (M.facts meter.now) params.now (bound_of params.now pass) }
    ensures overfull { IsSteady (M.facts meter.now) → is_bounded pass ≡ true → result ≡ StopRule.Overfull }
{
    if !meter.steady() {
        return StopRule::Never;
    }
    match pass {
        Pass::First | Pass::Second => StopRule::Overfull,
        Pass::Third => {
            if may_leave_out(meter, params) {
                return StopRule::Long;
            }
            StopRule::Never
        }
    }
}

/// When to stop trying lines in a pass over a paragraph.
fn stop_rule_in<M: Meter>(meter: &M, params: &Params, trying: Trying, pass: Pass) -> StopRule
    ensures may { MayStop result (M.facts meter.now) params.now (bound_of params.now pass) }
    ensures overfull { trying ≡ Trying.FewLines → IsSteady (M.facts meter.now) → is_bounded pass ≡ true → result ≡ StopRule.Overfull }
{
    match trying {
        Trying::EveryLine => StopRule::Never,
        Trying::FewLines => earliest_stop(meter, params, pass),
    }
}

/// Whether places wait in the passes over a paragraph.
fn waits_in<M: Meter>(meter: &M, trying: Trying) -> bool
    ensures { result ≡ true → IsEven (M.facts meter.now) }
{
    match trying {
        Trying::EveryLine => false,
        Trying::FewLines => meter.even(),
    }
}

/// The chosen list of a pass, or `None` if it admits no list.
fn chosen_in<M: Meter>(
    alloc: Global,
    meter: &mut M,
    params: &Params,
    trying: Trying,
    pass: Pass,
) -> Result<Option<ChosenBreaks>, AllocError>
    requires trials_bounded { CountsMayGrow max_places (M.trials meter.old) }
    ensures found { IfOk result (λ found. MatchOption found
        (AdmitsNone (problem_of (M.facts meter.old) params.now (bound_of params.now pass)))
        (IsAnswer (problem_of (M.facts meter.old) params.now (bound_of params.now pass)))) }
    ensures facts { M.facts meter.new ≡ M.facts meter.old }
    ensures trials { trying ≡ Trying.FewLines → IsWithin (M.facts meter.old) params.now pass (M.trials meter.old) (M.trials meter.new) }
    ensures trials_counted { IsGrown max_places (M.trials meter.old) (M.trials meter.new) }
    ensures kept { TrialsOnlyGrow (M.trials meter.old) (M.trials meter.new) }
    ensures tried { OnOk result (M.trials meter.old 0 < M.trials meter.new 0) }
{
    let places = meter.places();
    let bound = bound_of(params, pass);
    let waits = waits_in(meter, trying);
    let most = most_admitted(&bound);
    let rules = Rules {
        params,
        bound,
        stop_rule: stop_rule_in(meter, params, trying, pass),
        waits,
        most,
        loosest: wait_limit(waits, most),
    };
    let table = fill(alloc, meter, &rules)?;
    chosen_list(alloc, &table, places)
}

/// The chosen list of the first pass, or `None` if it admits no list. If pretolerance is below 0, the pass is skipped, as in TeX, since it would
/// admit no list. The second pass is always run, even if tolerance is below 0 and it admits no list.
fn chosen_first<M: Meter>(
    alloc: Global,
    meter: &mut M,
    params: &Params,
    trying: Trying,
) -> Result<Option<ChosenBreaks>, AllocError>
    requires trials_bounded { CountsMayGrow max_places (M.trials meter.old) }
    ensures found { IfOk result (λ found. MatchOption found
        (AdmitsNone (problem_of (M.facts meter.old) params.now (bound_of params.now Pass.First)))
        (IsAnswer (problem_of (M.facts meter.old) params.now (bound_of params.now Pass.First)))) }
    ensures facts { M.facts meter.new ≡ M.facts meter.old }
    ensures trials { trying ≡ Trying.FewLines →
        AreAdded (M.facts meter.old) params.now (first_run params.now) (M.trials meter.old) (M.trials meter.new) }
    ensures trials_counted { IsGrown max_places (M.trials meter.old) (M.trials meter.new) }
    ensures kept { TrialsOnlyGrow (M.trials meter.old) (M.trials meter.new) }
    ensures tried { IfOk result (λ found. IfSome found (λ least. M.trials meter.old 0 < M.trials meter.new 0)) }
{
    if params.pretolerance.get() < 0 {
        return Ok(None);
    }
    chosen_in(alloc, meter, params, trying, Pass::First)
}

/// The chosen list of the first pass that admits one.
fn decide<M: Meter>(
    alloc: Global,
    meter: &mut M,
    params: &Params,
    trying: Trying,
) -> Result<(Pass, ChosenBreaks), AllocError>
    requires trials_bounded { CountsMayGrow (3 * max_places) (M.trials meter.old) }
    ensures decided { IfOk result (λ decided. IsDecided (M.facts meter.old) params.now decided.0 decided.1) }
    ensures facts { M.facts meter.new ≡ M.facts meter.old }
    ensures run { trying ≡ Trying.FewLines → IfOk result (λ decided.
        AreAdded (M.facts meter.old) params.now (passes_run params.now decided.0) (M.trials meter.old) (M.trials meter.new)) }
    ensures refused { trying ≡ Trying.FewLines →
        OnErr result (AreAddedByPasses (M.facts meter.old) params.now (M.trials meter.old) (M.trials meter.new)) }
    ensures tried { OnOk result (M.trials meter.old 0 < M.trials meter.new 0) }
{
    if let Some(least) = chosen_first(alloc, meter, params, trying)? {
        return Ok((Pass::First, least));
    }
    if let Some(least) = chosen_in(alloc, meter, params, trying, Pass::Second)? {
        return Ok((Pass::Second, least));
    }
    match chosen_in(alloc, meter, params, trying, Pass::Third)? {
        Some(least) => Ok((Pass::Third, least)),
        // This cannot happen: the last pass admits every line, so each place can be reached from the one before (law `the_last_pass_admits_a_list`).
        None => unreachable!(),
    }
}

/// The ends of the lines, by their positions in the list.
fn line_ends<M: Meter>(
    alloc: Global,
    meter: &M,
    ends: &[BreakState],
) -> Result<Vec<LineEnd>, AllocError>
    requires ends_bounded { AreEndsInParagraph (M.facts meter.now) ends.now }
    ensures { IfOk result (λ lines. lines.items ≡ map (line_end_at (M.facts meter.now)) ends.now) }
{
    let mut lines = Vec::with_capacity(alloc, ends.len())?;
    for end in ends {
        lines.push(LineEnd {
            place: meter.place(end.place as usize).position,
            class: end.class,
        })?;
    }
    Ok(lines)
}

/// The breaks of a paragraph, given by a meter without trials: the same ones, however many lines are tried.
pub(crate) fn breaks_of<M: Meter>(
    alloc: Global,
    meter: &mut M,
    params: &Params,
    trying: Trying,
) -> Result<Breaks, AllocError>
    requires fresh { HasNoTrials (M.trials meter.old) }
    ensures broken { IfOk result (IsBroken (M.facts meter.old) params.now) }
    ensures facts { M.facts meter.new ≡ M.facts meter.old }
    ensures run { trying ≡ Trying.FewLines
        → IfOk result (λ breaks. AreBounded (M.facts meter.old) params.now (passes_run params.now breaks.pass) (M.trials meter.new)) }
    ensures refused { trying ≡ Trying.FewLines → OnErr result (AreBoundedByPasses (M.facts meter.old) params.now (M.trials meter.new)) }
    ensures tried { OnOk result (0 < M.trials meter.new 0) }
{
    let (pass, least) = decide(alloc, meter, params, trying)?;
    let lines = line_ends(alloc, meter, &least.ends)?;
    Ok(Breaks {
        lines,
        pass,
        overhang: least.overhang,
        demerits: least.demerits,
    })
}
