//! The table of a paragraph in a pass, which is filled place by place.

ghost use Rattle.std.specs.Prelude.{◌≡◌, ◌+◌, ◌<◌, ◌≤◌, ◌<ℤ◌, ◌⊎◌, pos, true, false, length, OnOk, IfOk};
ghost use Rattle.break_lines.specs.Tables.{IsTable, IsRow};
ghost use Rattle.break_lines.specs.Problems.{max_places};
ghost use Rattle.break_lines.specs.Even.{IsEven};
ghost use Rattle.break_lines.specs.Legal.{is_forced};
ghost use Rattle.break_core.specs.Private.Filling.{IsKind, CountsMayGrow};
ghost use Rattle.break_core.specs.Private.Near.{HaveNeighbours};
ghost use Rattle.break_core.specs.Private.Offers.{row_at, AreOffers, IsEmpty, IsSameRow};
ghost use Rattle.break_core.specs.Private.Active.{stops_at, problem_leaving_out, groups_of, live_of, MayStop};
ghost use Rattle.break_core.specs.Private.Active.{AreOver, HaveBest, IsActive, IsFilled, IsSwept};
ghost use Rattle.break_core.specs.Private.Active.{IsCounted};
ghost use Rattle.break_core.specs.Private.Active.{TrialsOnlyGrow, WasTried};

use crate::active_list::{LiveGroups, keep_group, keep_over_after, remove_groups, rest_of};
use crate::counted::try_counted_lines;
use crate::neighbours::{Neighbours, keep_neighbours};
use crate::offering::{
    TriedPlace, add_entries, all_wait, either, first_live, is_overfull, judge, offer_line,
    offer_waiting,
};
use crate::pass_rules::Rules;
use crate::row::{Row, move_row, new_row};
use break_lines::{ActiveGroup, Entry, Meter};
use std::alloc::{AllocError, Global};

/// The table up to a place, and the groups of its entries from which lines to later places are tried, with their neighbours by place if lines are
/// counted.
#[derive(Drop)]
struct FilledTable {
    table: Vec<Entry>,
    live: LiveGroups,
    neighbours: Vec<Neighbours>,
}

/// For how many groups there is room from the start. Few paragraphs need more.
const USUAL_GROUPS: usize = 32;

/// Whether a line is tried from another group: there is one, and it does not wait.
#[inline(always)]
fn has_next(index: usize, end: usize, waits: bool) -> bool
    ensures next { result ≡ true → index < end }
    ensures none { result ≡ false → (end ≤ index) ⊎ (waits ≡ true) }
{
    if waits {
        return false;
    }
    index < end
}

/// If no lines are counted, tries the line to a place once from each live group, keeps those from which lines to later places are tried, and
/// carries `over` on to the next place. If groups wait, then all later groups wait after a line that is stretched so much that the lines from all of
/// them cost the same as the loosest line. The groups stay in place, since most of them are kept. Returns whether entries were offered. The function
/// is not inlined, so that its loop has all registers.
#[inline(never)]
fn try_lines<M: Meter>(meter: &mut M, at: TriedPlace, lives: &mut LiveGroups, row: &mut Row) -> bool
    requires uncounted { at.rules.now.params.now.first_lines ≡ 0 }
    requires first { 0 < at.place }
    requires last { at.place ≤ (M.facts meter.old).places }
    requires places { at.place ≤ max_places }
    requires penalty { at.penalty ≡ (M.facts meter.old).penalty at.place }
    requires penalty_bounded { at.penalty <ℤ pos 10000 }
    requires filled { IsFilled (problem_leaving_out (M.facts meter.old) at.rules.now.params.now at.rules.now.bound at.rules.now.stop_rule)
        (stops_at (M.facts meter.old) at.rules.now.params.now at.rules.now.stop_rule) at.place at.table.now
        (groups_of (live_of lives.old)) }
    requires over { AreOver (M.facts meter.old) at.rules.now.params.now at.place (live_of lives.old) }
    requires best { HaveBest at.table.now at.rules.now.params.now (live_of lives.old) }
    requires first_bounded { lives.old.first ≤ length lives.old.list.items }
    requires empty { IsEmpty at.rules.now.params.now.first_lines row.old }
    requires may { MayStop at.rules.now.stop_rule (M.facts meter.old) at.rules.now.params.now at.rules.now.bound }
    requires waits { at.rules.now.waits ≡ true → IsEven (M.facts meter.old) }
    requires trials_bounded { CountsMayGrow 1 (M.trials meter.old) }
    ensures row { IsRow (problem_leaving_out (M.facts meter.old) at.entry.rules.now.params.now at.entry.rules.now.bound at.entry.rules.now.stop_rule)
        at.entry.table.now at.entry.place (length at.entry.table.now)
        (row_at at.entry.rules.now.params.now.first_lines at.entry.table.now at.entry.place row.new) }
    ensures held { at.entry.rules.now.params.now.first_lines ≡ 0 → AreOffers at.entry.table.now at.entry.place row.new.offers }
    ensures live { is_forced ((M.facts meter.old).penalty at.entry.place) ≡ false →
        IsActive (problem_leaving_out (M.facts meter.old) at.entry.rules.now.params.now at.entry.rules.now.bound at.entry.rules.now.stop_rule)
        (stops_at (M.facts meter.old) at.entry.rules.now.params.now at.entry.rules.now.stop_rule) at.entry.table.now
        (at.entry.place + 1) at.entry.place 0 0
        (groups_of (live_of lives.new)) }
    ensures over { AreOver (M.facts meter.old) at.entry.rules.now.params.now (at.entry.place + 1) (live_of lives.new) }
    ensures best { HaveBest at.entry.table.now at.entry.rules.now.params.now (live_of lives.new) }
    ensures first_bounded { lives.new.first ≤ length lives.new.list.items }
    ensures facts { M.facts meter.new ≡ M.facts meter.old }
    ensures trials { IsSwept (stops_at (M.facts meter.old) at.entry.rules.now.params.now at.entry.rules.now.stop_rule) at.entry.place
        (M.trials meter.old) (M.trials meter.new) }
    ensures kept { TrialsOnlyGrow (M.trials meter.old) (M.trials meter.new) }
    ensures tried { WasTried (groups_of (live_of lives.old)) (M.trials meter.old) (M.trials meter.new) }
    ensures untouched { result ≡ false → IsSameRow row.old row.new }
{
    let rules = at.rules;
    let place = at.place;
    let mut offered = false;
    let mut kept = lives.first;
    let mut index = lives.first;
    let end = lives.list.len();
    let mut waits = false;
    while has_next(index, end, waits) {
        let live = &lives.list[index];
        let sums = meter.try_line(live.group.place, place);
        let line = judge(sums, rules.params);
        let overfull = is_overfull(&line, rules.params);
        let left_out = rules
            .stop_rule
            .leaves_out_overfull(live.over, overfull, &line.sums);
        let stopped = rules.stop_rule.stops_after_overfull(overfull, left_out);
        keep_over_after(&mut lives.list, index, overfull, &line.sums);
        let now = offer_line(left_out, row, &at, &lives.list[index], &line);
        offered = either(offered, now);
        kept = keep_group(lives, stopped, kept, index);
        index += 1;
        waits = all_wait(&line, rules);
    }
    let waiting = offer_waiting(row, &at, rest_of(&lives.list, index));
    remove_groups(&mut lives.list, kept, index);
    either(offered, waiting)
}

/// Tries the lines to a place. The loop over the trials is another one if lines are counted. Returns whether entries were offered.
#[inline(always)]
fn try_each_line<M: Meter, const COUNTED: bool>(
    meter: &mut M,
    at: TriedPlace,
    lives: &mut LiveGroups,
    neighbours: &[Neighbours],
    row: &mut Row,
) -> bool
    requires kind { IsKind COUNTED at.rules.now.params.now.first_lines }
    requires first { 0 < at.place }
    requires last { at.place ≤ (M.facts meter.old).places }
    requires places { at.place ≤ max_places }
    requires penalty { at.penalty ≡ (M.facts meter.old).penalty at.place }
    requires penalty_bounded { at.penalty <ℤ pos 10000 }
    requires filled { IsFilled (problem_leaving_out (M.facts meter.old) at.rules.now.params.now at.rules.now.bound at.rules.now.stop_rule)
        (stops_at (M.facts meter.old) at.rules.now.params.now at.rules.now.stop_rule) at.place at.table.now
        (groups_of (live_of lives.old)) }
    requires over { AreOver (M.facts meter.old) at.rules.now.params.now at.place (live_of lives.old) }
    requires best { HaveBest at.table.now at.rules.now.params.now (live_of lives.old) }
    requires known { HaveNeighbours at.table.now neighbours.now }
    requires first_bounded { lives.old.first ≤ length lives.old.list.items }
    requires empty { IsEmpty at.rules.now.params.now.first_lines row.old }
    requires may { MayStop at.rules.now.stop_rule (M.facts meter.old) at.rules.now.params.now at.rules.now.bound }
    requires waits { at.rules.now.waits ≡ true → IsEven (M.facts meter.old) }
    requires trials_bounded { CountsMayGrow 1 (M.trials meter.old) }
    ensures row { IsRow (problem_leaving_out (M.facts meter.old) at.entry.rules.now.params.now at.entry.rules.now.bound at.entry.rules.now.stop_rule)
        at.entry.table.now at.entry.place (length at.entry.table.now)
        (row_at at.entry.rules.now.params.now.first_lines at.entry.table.now at.entry.place row.new) }
    ensures held { at.entry.rules.now.params.now.first_lines ≡ 0 → AreOffers at.entry.table.now at.entry.place row.new.offers }
    ensures live { is_forced ((M.facts meter.old).penalty at.entry.place) ≡ false →
        IsActive (problem_leaving_out (M.facts meter.old) at.entry.rules.now.params.now at.entry.rules.now.bound at.entry.rules.now.stop_rule)
        (stops_at (M.facts meter.old) at.entry.rules.now.params.now at.entry.rules.now.stop_rule) at.entry.table.now
        (at.entry.place + 1) at.entry.place 0 0
        (groups_of (live_of lives.new)) }
    ensures over { AreOver (M.facts meter.old) at.entry.rules.now.params.now (at.entry.place + 1) (live_of lives.new) }
    ensures best { HaveBest at.entry.table.now at.entry.rules.now.params.now (live_of lives.new) }
    ensures first_bounded { lives.new.first ≤ length lives.new.list.items }
    ensures facts { M.facts meter.new ≡ M.facts meter.old }
    ensures trials { IsSwept (stops_at (M.facts meter.old) at.entry.rules.now.params.now at.entry.rules.now.stop_rule) at.entry.place
        (M.trials meter.old) (M.trials meter.new) }
    ensures kept { TrialsOnlyGrow (M.trials meter.old) (M.trials meter.new) }
    ensures tried { WasTried (groups_of (live_of lives.old)) (M.trials meter.old) (M.trials meter.new) }
    ensures untouched { result ≡ false → IsSameRow row.old row.new }
{
    if COUNTED {
        return try_counted_lines(meter, &at, lives, neighbours, row);
    }
    try_lines(meter, at, lives, row)
}

/// Whether a place has no entries, and a break there is not forced. Then the table and the groups stay as they are.
#[inline(always)]
fn is_passed_over(offered: bool, forced: bool) -> bool
    ensures { result ≡ true → (offered ≡ false) × (forced ≡ false) }
{
    !offered && !forced
}

/// Goes on to a place: tries the lines to it, and appends the entries of its row to the table. Most places have none, and there is nothing to append.
fn add_place<M: Meter, const COUNTED: bool>(
    meter: &mut M,
    rules: &Rules,
    reached: &mut FilledTable,
    row: &mut Row,
    place: usize,
) -> Result<(), AllocError>
    requires kind { IsKind COUNTED rules.now.params.now.first_lines }
    requires first { 0 < place }
    requires last { place ≤ (M.facts meter.old).places }
    requires places { place ≤ max_places }
    requires filled { IsFilled (problem_leaving_out (M.facts meter.old) rules.now.params.now rules.now.bound rules.now.stop_rule)
        (stops_at (M.facts meter.old) rules.now.params.now rules.now.stop_rule) place reached.old.table.items (groups_of (live_of reached.old.live)) }
    requires over { AreOver (M.facts meter.old) rules.now.params.now place (live_of reached.old.live) }
    requires best { HaveBest reached.old.table.items rules.now.params.now (live_of reached.old.live) }
    requires known { HaveNeighbours reached.old.table.items reached.old.neighbours.items }
    requires first_bounded { reached.old.live.first ≤ length reached.old.live.list.items }
    requires empty { IsEmpty rules.now.params.now.first_lines row.old }
    requires may { MayStop rules.now.stop_rule (M.facts meter.old) rules.now.params.now rules.now.bound }
    requires waits { rules.now.waits ≡ true → IsEven (M.facts meter.old) }
    requires trials_bounded { CountsMayGrow 1 (M.trials meter.old) }
    ensures filled { OnOk result (
        IsFilled (problem_leaving_out (M.facts meter.old) rules.now.params.now rules.now.bound rules.now.stop_rule)
        (stops_at (M.facts meter.old) rules.now.params.now rules.now.stop_rule) (place + 1)
        reached.new.table.items (groups_of (live_of reached.new.live))) }
    ensures over { OnOk result (AreOver (M.facts meter.old) rules.now.params.now (place + 1) (live_of reached.new.live)) }
    ensures best { OnOk result (HaveBest reached.new.table.items rules.now.params.now (live_of reached.new.live)) }
    ensures known { OnOk result (HaveNeighbours reached.new.table.items reached.new.neighbours.items) }
    ensures first_bounded { OnOk result (reached.new.live.first ≤ length reached.new.live.list.items) }
    ensures empty { OnOk result (IsEmpty rules.now.params.now.first_lines row.new) }
    ensures facts { M.facts meter.new ≡ M.facts meter.old }
    ensures trials { IsSwept (stops_at (M.facts meter.old) rules.now.params.now rules.now.stop_rule) place (M.trials meter.old) (M.trials meter.new) }
    ensures kept { TrialsOnlyGrow (M.trials meter.old) (M.trials meter.new) }
    ensures tried { OnOk result (WasTried (groups_of (live_of reached.old.live)) (M.trials meter.old) (M.trials meter.new)) }
{
    let breakpoint = meter.place(place);
    let at = TriedPlace {
        rules: &*rules,
        table: &reached.table,
        place,
        penalty: breakpoint.penalty,
    };
    let offered = try_each_line::<M, COUNTED>(
        meter,
        at,
        &mut reached.live,
        &reached.neighbours,
        row,
    );
    let forced = breakpoint.is_forced();
    if is_passed_over(offered, forced) {
        return Ok(());
    }
    let start = reached.table.len();
    move_row(
        &mut reached.table,
        row,
        rules.params.first_lines.get(),
        place,
    )?;
    let group = ActiveGroup {
        place,
        start,
        end: reached.table.len(),
    };
    keep_neighbours::<COUNTED>(
        &mut reached.neighbours,
        &reached.table,
        group,
        &reached.live,
    )?;
    add_entries::<COUNTED>(
        &mut reached.live,
        &reached.table,
        group,
        rules.params,
        forced,
    )?;
    Ok(())
}

/// The table of all places in a pass, for lines that are counted or not. The groups from which lines are tried are in a list, instead of a flag at
/// each place, so that no time is spent on places from which trying has stopped.
fn fill_places<M: Meter, const COUNTED: bool>(
    alloc: Global,
    meter: &mut M,
    rules: &Rules,
) -> Result<Vec<Entry>, AllocError>
    requires kind { IsKind COUNTED rules.now.params.now.first_lines }
    requires may { MayStop rules.now.stop_rule (M.facts meter.old) rules.now.params.now rules.now.bound }
    requires waits { rules.now.waits ≡ true → IsEven (M.facts meter.old) }
    requires trials_bounded { CountsMayGrow max_places (M.trials meter.old) }
    ensures table { IfOk result (λ table.
        IsTable (problem_leaving_out (M.facts meter.old) rules.now.params.now rules.now.bound rules.now.stop_rule)
        ((M.facts meter.old).places + 1) table.items) }
    ensures facts { M.facts meter.new ≡ M.facts meter.old }
    ensures trials { IsCounted (stops_at (M.facts meter.old) rules.now.params.now rules.now.stop_rule) (M.facts meter.old).places
        (M.trials meter.old) (M.trials meter.new) }
    ensures kept { TrialsOnlyGrow (M.trials meter.old) (M.trials meter.new) }
    ensures tried { OnOk result (M.trials meter.old 0 < M.trials meter.new 0) }
{
    // Most places have at least one entry.
    let table = Vec::with_capacity(alloc, meter.places() + 1)?;
    let list = Vec::with_capacity(alloc, USUAL_GROUPS)?;
    let mut reached = FilledTable {
        table,
        live: LiveGroups { list, first: 0 },
        neighbours: Vec::new(alloc),
    };
    reached.table.push(Entry::first())?;
    let group = ActiveGroup {
        place: 0,
        start: 0,
        end: 1,
    };
    let live = first_live::<COUNTED>(&reached.table, group, rules.params);
    reached.live.list.push(live)?;
    // The row is reused for all places.
    let mut row = new_row(alloc, rules.params.first_lines.get())?;
    for before in 0..meter.places() {
        if reached.live.is_empty() {
            // No line is left to try, so no later place has entries.
            return Ok(reached.table);
        }
        add_place::<M, COUNTED>(meter, rules, &mut reached, &mut row, before + 1)?;
    }
    Ok(reached.table)
}

/// The table of all places in a pass. The loop over the trials is compiled twice, so that it keeps nothing for counting where no lines are counted.
pub(crate) fn fill<M: Meter>(
    alloc: Global,
    meter: &mut M,
    rules: &Rules,
) -> Result<Vec<Entry>, AllocError>
    requires may { MayStop rules.now.stop_rule (M.facts meter.old) rules.now.params.now rules.now.bound }
    requires waits { rules.now.waits ≡ true → IsEven (M.facts meter.old) }
    requires trials_bounded { CountsMayGrow max_places (M.trials meter.old) }
    ensures table { IfOk result (λ table.
        IsTable (problem_leaving_out (M.facts meter.old) rules.now.params.now rules.now.bound rules.now.stop_rule)
        ((M.facts meter.old).places + 1) table.items) }
    ensures facts { M.facts meter.new ≡ M.facts meter.old }
    ensures trials { IsCounted (stops_at (M.facts meter.old) rules.now.params.now rules.now.stop_rule) (M.facts meter.old).places
        (M.trials meter.old) (M.trials meter.new) }
    ensures kept { TrialsOnlyGrow (M.trials meter.old) (M.trials meter.new) }
    ensures tried { OnOk result (M.trials meter.old 0 < M.trials meter.new 0) }
{
    if rules.params.first_lines.get() > 0 {
        return fill_places::<M, true>(alloc, meter, rules);
    }
    fill_places::<M, false>(alloc, meter, rules)
}
