//! The trials of lines to a place, if lines are counted.

ghost use Rattle.std.specs.Prelude.{◌≡◌, ◌⊎◌, ◌+◌, ◌<◌, ◌≤◌, ◌<ℤ◌, pos, true, false, length, IfSome};
ghost use Rattle.break_lines.specs.Tables.{IsRow};
ghost use Rattle.break_lines.specs.Problems.{max_places};
ghost use Rattle.break_lines.specs.Even.{IsEven};
ghost use Rattle.break_lines.specs.Legal.{is_forced};
ghost use Rattle.break_lines.specs.Sizes.{IsSmallLineFits};
ghost use Rattle.break_lines.specs.Costs.{line_alone};
ghost use Rattle.break_lines.specs.SmallCosts.{IsSmallLineFit};
ghost use Rattle.break_core.specs.Private.Filling.{CanOffer, CountsMayGrow};
ghost use Rattle.break_core.specs.Private.Held.{IsSkipped, IsHeldOffered, IsCostBelow, AreBelow, IsDropped, IsHolding, held_beyond};
ghost use Rattle.break_core.specs.Private.Near.{HaveNeighbours};
ghost use Rattle.break_core.specs.Private.Offers.{row_at, AreOffers, IsEmpty, IsSameRow};
ghost use Rattle.break_core.specs.Private.Active.{stops_at, problem_leaving_out, groups_of, live_of, MayStop};
ghost use Rattle.break_core.specs.Private.Active.{AreOver, HaveBest, IsActive, IsFilled, IsSwept};
ghost use Rattle.break_core.specs.Private.Active.{TrialsOnlyGrow, WasTried};

use crate::active_list::{LiveGroups, keep_group, keep_over, remove_groups};
use crate::neighbours::{Neighbours, is_same_group, neighbours_of};
use crate::offering::{TriedPlace, either, offer_counted};
use crate::row::Row;
use break_lines::{ActiveGroup, Entry, LineCost, LineFit, LineFits, Meter, fit_both, line_alone};

/// A line that was tried from a group and judged, whose offers are held back until the next line is known. Mostly that one was judged alike and its
/// offers meet these, or it costs more and its offers are met by these. `last` is the last group whose line was dropped since, or the group itself.
#[derive(Clone, Copy, Debug, PartialEq, Eq)]
pub(crate) struct HeldLine {
    pub(crate) group: ActiveGroup,
    pub(crate) left_out: bool,
    pub(crate) line: LineFits,
    pub(crate) last: ActiveGroup,
}

/// Whether two judgements are the same.
#[inline(always)]
fn is_same_fit(a: &LineFit, b: &LineFit) -> bool
    ensures { result ≡ true → a.now ≡ b.now }
{
    a == b
}

/// Whether two lines were judged alike.
#[inline(always)]
fn are_same_fits(a: &LineFits, b: &LineFits) -> bool
    ensures { result ≡ true → a.now ≡ b.now }
{
    is_same_fit(&a.first, &b.first) && is_same_fit(&a.rest, &b.rest)
}

/// Whether the offers by a line that is held back, if there is one, are met by those by the next line: its group meets the other one, and both lines
/// were judged alike.
#[inline(always)]
fn is_skipped(held: &Option<HeldLine>, next: &HeldLine, meets: ActiveGroup) -> bool
    ensures { result ≡ true → IsSkipped held.now next.now meets }
{
    match held {
        Some(held) => {
            !next.left_out
                && is_same_group(meets, held.group)
                && are_same_fits(&held.line, &next.line)
        }
        None => false,
    }
}

/// Offers the entries of a group by a line that is held back, if there is one. Returns whether entries were offered.
#[inline(always)]
fn offer_held(row: &mut Vec<Option<Entry>>, at: &TriedPlace, held: &Option<HeldLine>) -> bool
    requires can { IfSome held.now (λ line. CanOffer at.now.rules.now.params.now.first_lines row.old.items at.now.table.now line.group at.now.place
        at.now.penalty) }
    requires fit_bounded { IfSome held.now (λ line. IsSmallLineFits line.line) }
    ensures row { IsHeldOffered at.now.table.now at.now.rules.now.params.now at.now.rules.now.bound at.now.place at.now.penalty held.now
        row.old.items row.new.items }
    ensures untouched { result ≡ false → row.new.items ≡ row.old.items }
{
    match held {
        Some(held) => offer_counted(held.left_out, row, at, held.group, &held.line),
        None => false,
    }
}

/// Whether the first of two lines costs less than the second after each line, or the second is not admitted.
#[inline(always)]
fn is_below(a: Option<LineCost>, b: Option<LineCost>) -> bool
    ensures { result ≡ true → IsCostBelow a b }
{
    match b {
        Some(b) => match a {
            Some(a) => {
                a.class == b.class
                    && (a.overhang < b.overhang
                        || (a.overhang == b.overhang && a.demerits < b.demerits))
            }
            None => false,
        },
        None => true,
    }
}

/// The same for two judgements.
fn is_fit_below(a: &LineFit, b: &LineFit, at: &TriedPlace) -> bool
    requires penalty { at.now.penalty <ℤ pos 10000 }
    requires first_bounded { IsSmallLineFit a.now }
    requires second_bounded { IsSmallLineFit b.now }
    ensures { result ≡ true → IsCostBelow (line_alone at.now.rules.now.params.now at.now.rules.now.bound at.now.penalty a.now)
        (line_alone at.now.rules.now.params.now at.now.rules.now.bound at.now.penalty b.now) }
{
    let rules = at.rules;
    let first = line_alone(rules.params, &rules.bound, at.penalty, a);
    let second = line_alone(rules.params, &rules.bound, at.penalty, b);
    is_below(first, second)
}

/// The same for lines as they were judged, after any number of lines.
fn are_below(a: &LineFits, b: &LineFits, at: &TriedPlace) -> bool
    requires penalty { at.now.penalty <ℤ pos 10000 }
    requires first_bounded { IsSmallLineFits a.now }
    requires second_bounded { IsSmallLineFits b.now }
    ensures { result ≡ true → AreBelow at.now.rules.now.params.now at.now.rules.now.bound at.now.penalty a.now b.now }
{
    if is_same_fit(&a.first, &a.rest) && is_same_fit(&b.first, &b.rest) {
        return is_fit_below(&a.rest, &b.rest, at);
    }
    is_fit_below(&a.first, &b.first, at) && is_fit_below(&a.rest, &b.rest, at)
}

/// Whether the offers by the next line are met by those by a line that is held back: its group is covered, and its line costs more.
#[inline(always)]
fn is_dropped(
    held: &Option<HeldLine>,
    next: &HeldLine,
    covered_by: ActiveGroup,
    at: &TriedPlace,
) -> bool
    requires penalty { at.now.penalty <ℤ pos 10000 }
    requires fit_bounded { IfSome held.now (λ line. IsSmallLineFits line.line) }
    requires next_bounded { IsSmallLineFits next.now.line }
    ensures { result ≡ true → IsDropped at.now.rules.now.params.now at.now.rules.now.bound at.now.penalty held.now next.now covered_by }
{
    match held {
        Some(held) => {
            !held.left_out
                && is_same_group(covered_by, held.last)
                && are_below(&held.line, &next.line, at)
        }
        None => false,
    }
}

/// The line that is held back, when the next line was dropped.
#[inline(always)]
fn held_beyond(held: &Option<HeldLine>, next: HeldLine) -> Option<HeldLine>
    ensures { result ≡ held_beyond held.now next.group }
{
    match held {
        Some(held) => Some(HeldLine {
            group: held.group,
            left_out: held.left_out,
            line: held.line,
            last: next.group,
        }),
        None => None,
    }
}

/// Holds the next line back in place of the one before, whose offers are made unless they are met by those by the next line. If the offers by the
/// next line are met, that one is dropped. Returns whether entries were offered.
#[inline(always)]
fn hold_next(
    row: &mut Vec<Option<Entry>>,
    at: &TriedPlace,
    held: &mut Option<HeldLine>,
    next: HeldLine,
    near: &Neighbours,
) -> bool
    requires can { IfSome held.old (λ line. CanOffer at.now.rules.now.params.now.first_lines row.old.items at.now.table.now line.group at.now.place
        at.now.penalty) }
    requires fit_bounded { IfSome held.old (λ line. IsSmallLineFits line.line) }
    requires next_bounded { IsSmallLineFits next.line }
    requires penalty { at.now.penalty <ℤ pos 10000 }
    ensures row { IsHolding at.now.table.now at.now.rules.now.params.now at.now.rules.now.bound at.now.place at.now.penalty near.now next
        held.old held.new row.old.items row.new.items }
    ensures untouched { result ≡ false → row.new.items ≡ row.old.items }
{
    if is_skipped(held, &next, near.meets) {
        *held = Some(next);
        return false;
    }
    if is_dropped(held, &next, near.covered_by, at) {
        *held = held_beyond(held, next);
        return false;
    }
    let offered = offer_held(row, at, held);
    *held = Some(next);
    offered
}

/// If lines are counted, tries the line to a place once from each live group, keeps those from which lines to later places are tried, and
/// carries `over` on to the next place. The offers by each line are held back until the next line is known: a group has an entry for each number of
/// lines, and from consecutive groups mostly the same offers are made. The groups stay in place, since most of them are kept. Returns whether entries
/// were offered. The function is not inlined, so that its loop has all registers.
#[inline(never)]
pub(crate) fn try_counted_lines<M: Meter>(
    meter: &mut M,
    at: &TriedPlace,
    lives: &mut LiveGroups,
    neighbours: &[Neighbours],
    row: &mut Row,
) -> bool
    requires counted { 0 < at.now.rules.now.params.now.first_lines }
    requires first { 0 < at.now.place }
    requires last { at.now.place ≤ (M.facts meter.old).places }
    requires places { at.now.place ≤ max_places }
    requires penalty { at.now.penalty ≡ (M.facts meter.old).penalty at.now.place }
    requires penalty_bounded { at.now.penalty <ℤ pos 10000 }
    requires filled { IsFilled (problem_leaving_out (M.facts meter.old) at.now.rules.now.params.now at.now.rules.now.bound at.now.rules.now.stop_rule)
        (stops_at (M.facts meter.old) at.now.rules.now.params.now at.now.rules.now.stop_rule) at.now.place at.now.table.now
        (groups_of (live_of lives.old)) }
    requires over { AreOver (M.facts meter.old) at.now.rules.now.params.now at.now.place (live_of lives.old) }
    requires best { HaveBest at.now.table.now at.now.rules.now.params.now (live_of lives.old) }
    requires known { HaveNeighbours at.now.table.now neighbours.now }
    requires first_bounded { lives.old.first ≤ length lives.old.list.items }
    requires empty { IsEmpty at.now.rules.now.params.now.first_lines row.old }
    requires may { MayStop at.now.rules.now.stop_rule (M.facts meter.old) at.now.rules.now.params.now at.now.rules.now.bound }
    requires waits { at.now.rules.now.waits ≡ true → IsEven (M.facts meter.old) }
    requires trials_bounded { CountsMayGrow 1 (M.trials meter.old) }
    ensures row { IsRow (problem_leaving_out (M.facts meter.old) at.now.rules.now.params.now at.now.rules.now.bound at.now.rules.now.stop_rule)
        at.now.table.now at.now.place (length at.now.table.now)
        (row_at at.now.rules.now.params.now.first_lines at.now.table.now at.now.place row.new) }
    ensures held { at.now.rules.now.params.now.first_lines ≡ 0 → AreOffers at.now.table.now at.now.place row.new.offers }
    ensures live { is_forced ((M.facts meter.old).penalty at.now.place) ≡ false →
        IsActive (problem_leaving_out (M.facts meter.old) at.now.rules.now.params.now at.now.rules.now.bound at.now.rules.now.stop_rule)
        (stops_at (M.facts meter.old) at.now.rules.now.params.now at.now.rules.now.stop_rule) at.now.table.now (at.now.place + 1) at.now.place 0 0
        (groups_of (live_of lives.new)) }
    ensures over { AreOver (M.facts meter.old) at.now.rules.now.params.now (at.now.place + 1) (live_of lives.new) }
    ensures best { HaveBest at.now.table.now at.now.rules.now.params.now (live_of lives.new) }
    ensures first_bounded { lives.new.first ≤ length lives.new.list.items }
    ensures facts { M.facts meter.new ≡ M.facts meter.old }
    ensures trials { IsSwept (stops_at (M.facts meter.old) at.now.rules.now.params.now at.now.rules.now.stop_rule) at.now.place
        (M.trials meter.old) (M.trials meter.new) }
    ensures kept { TrialsOnlyGrow (M.trials meter.old) (M.trials meter.new) }
    ensures tried { WasTried (groups_of (live_of lives.old)) (M.trials meter.old) (M.trials meter.new) }
    ensures untouched { result ≡ false → IsSameRow row.old row.new }
{
    let rules = at.rules;
    let place = at.place;
    let mut offered = false;
    let mut kept = lives.first;
    let mut index = lives.first;
    let mut held: Option<HeldLine> = None;
    let end = lives.list.len();
    while index < end {
        let live = &lives.list[index];
        let sums = meter.try_line(live.group.place, place);
        let width = sums.least_width();
        let line = fit_both(&sums, rules.params);
        let overfull = line.is_overfull();
        let left_out = rules.stop_rule.leaves_out(live.over, width);
        let stopped = rules.stop_rule.stops_after(overfull, left_out);
        let next = HeldLine {
            group: live.group,
            left_out,
            line,
            last: live.group,
        };
        let near = neighbours_of(neighbours, live.group);
        let now = hold_next(&mut row.counted, at, &mut held, next, &near);
        keep_over(&mut lives.list, index, overfull, width);
        offered = either(offered, now);
        kept = keep_group(lives, stopped, kept, index);
        index += 1;
    }
    let last = offer_held(&mut row.counted, at, &held);
    remove_groups(&mut lives.list, kept, end);
    either(offered, last)
}
