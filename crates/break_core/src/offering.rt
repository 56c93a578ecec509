//! The offers of the entries of a group for a place, by a line that was tried from there.

ghost use Rattle.std.specs.Prelude.{◌≡◌, ◌+◌, ◌<◌, ◌≤◌, ◌<ℤ◌, pos, ◌&&◌, true, false, length, slice_get, Some, None, not, IfSome};
ghost use Rattle.std.specs.Prelude.{[], if◌then◌else◌, OnOk};
ghost use Rattle.break_lines.specs.Tables.{slots};
ghost use Rattle.break_core.specs.declared.active_list.Live.{Live};
ghost use Rattle.break_lines.specs.Problems.{max_places};
ghost use Rattle.break_lines.specs.Costs.{line_fit, is_loose, is_loosest, admits, line_alone};
ghost use Rattle.break_lines.specs.Sizes.{fits_of_sums, IsSmallLineFits};
ghost use Rattle.break_lines.specs.SmallCosts.{IsSmallSums, IsSmallLineFit, IsSmallAlone};
ghost use Rattle.break_core.specs.Private.Filling.{IsKind, IsJudged, IsOf, CanOffer, IsOffering, IsOfferingUnless, IsOfferingBest};
ghost use Rattle.break_core.specs.Private.Offers.{shown_from, row_at, AreOffers, IsBefore, AreBefore, IsBetter, AreBetter, AreBestFor};
ghost use Rattle.break_core.specs.Private.Offers.{AreNumbered, IsPutBetter, IsSameRow};
ghost use Rattle.break_core.specs.Private.Active.{is_limit, live_of, with_live, IsLaterOrBetterFor};
ghost use Rattle.break_core.specs.Private.Active.{IsLeastOf, HasBest, AreOffersBefore, CanOfferWaiting, IsOfferingEach, IsOfferingWaiting};

use crate::active_list::{Live, LiveGroups, remove_stopped};
use crate::pass_rules::Rules;
use crate::row::{Offer, Row, is_as_good, put_offer, replaces};
use break_lines::{
    ActiveGroup, Bound, Entry, Fitness, LineCost, LineFit, LineFits, Sums, fit_line, line_alone,
    offer,
};
use node_core::Params;
use std::alloc::AllocError;

/// A place to which lines are tried: the rules of the pass, the table of all places before this one, its number, and the penalty of a break there.
#[derive(Drop)]
pub(crate) struct TriedPlace<'a> {
    pub(crate) rules: &'a Rules<'a>,
    pub(crate) table: &'a [Entry],
    pub(crate) place: usize,
    pub(crate) penalty: i32,
}

/// A line that was tried: the sums over its items, and how it is set from the second line on.
#[derive(Clone, Copy, Debug, PartialEq, Eq)]
pub(crate) struct JudgedLine {
    pub(crate) sums: Sums,
    pub(crate) fit: LineFit,
}

/// Offers the entries of a group for a place, by a line from there that was tried and judged. The line is judged for firstsize and for hsize at once,
/// and costs that are the same for all entries are computed once, so that there is one trial for each pair of places.
fn offer_each(row: &mut Vec<Option<Entry>>, at: &TriedPlace, group: ActiveGroup, line: &LineFits)
    requires can { CanOffer at.now.rules.now.params.now.first_lines row.old.items at.now.table.now group at.now.place at.now.penalty }
    requires fit_bounded { IsSmallLineFits line.now }
    ensures row { IsOffering at.now.table.now at.now.rules.now.params.now at.now.rules.now.bound group at.now.place at.now.penalty line.now
        group.start group.end row.old.items row.new.items }
    ensures wide { length row.new.items ≡ slots at.now.rules.now.params.now.first_lines }
{
    let rules = at.rules;
    let table = at.table;
    let costs = line.alone(rules.params, &rules.bound, at.penalty);
    if costs.is_none() {
        return;
    }
    let cut = rules.params.first_lines.get();
    for index in group.start..group.end {
        let entry = table[index];
        let end = entry.end();
        let offered = costs.after(rules.params, end);
        offer(row, entry, index, at.place, offered, cut);
    }
}

/// Offers the entries of a group for a place, by a line that was tried and judged from there, unless it is left out. Returns whether entries were
/// offered.
#[cold]
#[inline(never)]
pub(crate) fn offer_counted(
    left_out: bool,
    row: &mut Vec<Option<Entry>>,
    at: &TriedPlace,
    group: ActiveGroup,
    line: &LineFits,
) -> bool
    requires can { CanOffer at.now.rules.now.params.now.first_lines row.old.items at.now.table.now group at.now.place at.now.penalty }
    requires fit_bounded { IsSmallLineFits line.now }
    ensures row { IsOfferingUnless left_out at.now.table.now at.now.rules.now.params.now at.now.rules.now.bound group at.now.place at.now.penalty
        line.now row.old.items row.new.items }
    ensures wide { length row.new.items ≡ slots at.now.rules.now.params.now.first_lines }
    ensures untouched { result ≡ false → row.new.items ≡ row.old.items }
{
    if left_out {
        return false;
    }
    offer_each(row, at, group, line);
    true
}

/// Entry number `index` of its table before a line of a class. The demerits for its class decide which entry of a group makes the best offer, since
/// all other costs of the line are the same for each entry.
#[inline(always)]
fn offer_before(entry: Entry, index: usize, params: &Params, class: Fitness) -> Offer
    ensures { IsBefore params.now entry index class result }
{
    let totals = entry.totals_before(params, class);
    Offer {
        overhang: totals.overhang,
        demerits: totals.demerits,
        index,
    }
}

/// Entry number `index` of its table before lines of each class. The entry costs the same before each line whose class is near its own, and the same
/// before each other line.
#[inline(always)]
fn offers_before(entry: Entry, index: usize, params: &Params) -> [Offer; 4]
    ensures { AreBefore params.now entry index result }
{
    let below = offer_before(entry, index, params, Fitness::VeryLoose);
    let above = offer_before(entry, index, params, Fitness::Tight);
    match entry.end().class {
        Fitness::VeryLoose => [below, below, above, above],
        Fitness::Loose => [below, below, below, above],
        Fitness::Decent => [below, above, above, above],
        Fitness::Tight => [below, below, above, above],
    }
}

/// Puts an offer for the class with this number into these offers, unless they have one that is as good or better.
#[inline(always)]
fn put_better(best: &mut [Offer; 4], table: &[Entry], slot: usize, other: Offer)
    requires slot_bounded { slot < 4 }
    requires best_bounded { AreNumbered table.now best.old }
    requires other_bounded { other.index < length table.now }
    ensures put { IsPutBetter table.now slot other best.old best.new }
    ensures best_bounded { AreNumbered table.now best.new }
{
    if is_as_good(table, best[slot], other) {
        return;
    }
    best[slot] = other;
}

/// Puts the offers of another entry into these offers, where they are better.
#[inline(always)]
fn put_better_each(best: &mut [Offer; 4], table: &[Entry], others: [Offer; 4])
    requires best_bounded { AreNumbered table.now best.old }
    requires others_bounded { AreNumbered table.now others }
    ensures { AreBetter table.now best.old others best.new }
{
    put_better(best, table, 0, others[0]);
    put_better(best, table, 1, others[1]);
    put_better(best, table, 2, others[2]);
    put_better(best, table, 3, others[3]);
}

/// Puts the offers of all entries of a group but the first into those of the first, where they are better.
#[inline(always)]
fn put_rest(best: &mut [Offer; 4], table: &[Entry], group: ActiveGroup, params: &Params)
    requires has_entries { group.start < group.end }
    requires group_bounded { group.end ≤ length table.now }
    requires first { AreBestFor table.now params.now group.start (group.start + 1) best.old }
    ensures { AreBestFor table.now params.now group.start group.end best.new }
{
    for index in group.start + 1..group.end {
        let others = offers_before(table[index], index, params);
        put_better_each(best, table, others);
    }
}

/// Makes the offers of the first entry of a group those of all its entries, if no lines are counted.
#[inline(always)]
fn complete_offers<const COUNTED: bool>(
    best: &mut [Offer; 4],
    table: &[Entry],
    group: ActiveGroup,
    params: &Params,
)
    requires kind { IsKind COUNTED params.now.first_lines }
    requires has_entries { group.start < group.end }
    requires group_bounded { group.end ≤ length table.now }
    requires first { params.now.first_lines ≡ 0 → AreBestFor table.now params.now group.start (group.start + 1) best.old }
    ensures { params.now.first_lines ≡ 0 → AreBestFor table.now params.now group.start group.end best.new }
{
    if COUNTED {
        return;
    }
    put_rest(best, table, group, params);
}

/// The offers of the first entry of a group, if no lines are counted; else nothing is known of the offers.
#[inline(always)]
fn first_offers<const COUNTED: bool>(table: &[Entry], start: usize, params: &Params) -> [Offer; 4]
    requires kind { IsKind COUNTED params.now.first_lines }
    requires start_bounded { start < length table.now }
    ensures { params.now.first_lines ≡ 0 → AreBestFor table.now params.now start (start + 1) result }
{
    if COUNTED {
        return [Offer::NONE; 4];
    }
    offers_before(table[start], start, params)
}

/// A group from which no line has been tried yet, with the offers of its first entry.
#[inline(always)]
pub(crate) fn first_live<const COUNTED: bool>(
    table: &[Entry],
    group: ActiveGroup,
    params: &Params,
) -> Live
    requires kind { IsKind COUNTED params.now.first_lines }
    requires has_entries { group.start < group.end }
    requires group_bounded { group.end ≤ length table.now }
    ensures group { result.group ≡ group }
    ensures over { result.over ≡ None }
    ensures first { params.now.first_lines ≡ 0 → AreBestFor table.now params.now group.start (group.start + 1) result.best }
{
    Live {
        group,
        over: None,
        best: first_offers::<COUNTED>(table, group.start, params),
    }
}

/// Appends the group of a place to those of earlier places, unless it has no entries. If a break at the place is forced, the earlier groups are
/// removed first. What is known of the entries of a group is computed only if there are some, and in its place in the list, since the registers do
/// not hold four offers.
#[inline(always)]
pub(crate) fn add_entries<const COUNTED: bool>(
    lives: &mut LiveGroups,
    table: &[Entry],
    group: ActiveGroup,
    params: &Params,
    forced: bool,
) -> Result<(), AllocError>
    requires kind { IsKind COUNTED params.now.first_lines }
    requires first_bounded { lives.old.first ≤ length lives.old.list.items }
    requires rises { group.start ≤ group.end }
    requires group_bounded { group.end ≤ length table.now }
    ensures groups { OnOk result ((live : Live) × (live.group ≡ group) × (live.over ≡ None)
        × (group.start < group.end → HasBest table.now params.now live)
        × (live_of lives.new ≡ with_live (if forced then [] else live_of lives.old) live)) }
    ensures first_bounded { OnOk result (lives.new.first ≤ length lives.new.list.items) }
{
    remove_stopped(lives, forced);
    if group.start == group.end {
        return Ok(());
    }
    let live = first_live::<COUNTED>(table, group, params);
    let number = lives.list.len();
    lives.list.push(live)?;
    complete_offers::<COUNTED>(&mut lives.list[number].best, table, group, params);
    Ok(())
}

/// Offers the entries of a group by a line, if no lines are counted. All offers are for one state then, so the best one is enough, and no entry is
/// read for it.
#[inline(always)]
fn offer_best(offers: &mut [Offer; 4], at: &TriedPlace, live: &Live, alone: LineCost)
    requires entries { IsOf 0 at.now.table.now live.now.group }
    requires best { AreBestFor at.now.table.now at.now.rules.now.params.now live.now.group.start live.now.group.end live.now.best }
    requires costs_bounded { IsSmallAlone alone }
    requires held { AreOffers at.now.table.now live.now.group.place offers.old }
    ensures row { IsOfferingBest at.now.table.now at.now.rules.now.params.now live.now.group at.now.place alone
        (shown_from at.now.table.now at.now.place 0 offers.old) (shown_from at.now.table.now at.now.place 0 offers.new) }
    ensures held { AreOffers at.now.table.now (live.now.group.place + 1) offers.new }
    ensures wide { length offers.new ≡ 4 }
{
    let best = live.best[alone.class.class_index()];
    let offered = Offer {
        overhang: best.overhang + alone.overhang,
        demerits: best.demerits + alone.demerits,
        index: best.index,
    };
    put_offer(offers, alone.class, offered);
}

/// Judges a line with these sums for the line size from the second line on.
#[inline(always)]
pub(crate) fn judge(sums: Sums, params: &Params) -> JudgedLine
    requires { IsSmallSums sums }
    ensures sums { result.sums ≡ sums }
    ensures judged { IsJudged params.now result }
{
    JudgedLine {
        sums,
        fit: fit_line(&sums, params.hsize),
    }
}

/// Whether a line is overfull, if no lines are counted.
#[inline(always)]
pub(crate) fn is_overfull(line: &JudgedLine, params: &Params) -> bool
    requires uncounted { params.now.first_lines ≡ 0 }
    requires judged { IsJudged params.now line.now }
    ensures { result
        ≡ ((fits_of_sums params.now line.now.sums).first.overfull && (fits_of_sums params.now line.now.sums).rest.overfull) }
{
    line.fit.overfull
}

/// Whether a pass with a bound admits overfull lines.
#[inline(always)]
fn admits_overfull(bound: &Bound) -> bool
    ensures { result ≡ not (is_limit bound.now) }
{
    match bound {
        Bound::Any => true,
        Bound::AtMost(_) => false,
    }
}

/// Whether a pass admits a line. For a line that is not overfull, one number tells.
#[inline(always)]
fn is_admitted(rules: &Rules, fit: &LineFit) -> bool
    requires { IsSmallLineFit fit.now }
    ensures { result ≡ admits rules.now.bound fit.now }
{
    if fit.overfull {
        return admits_overfull(&rules.bound);
    }
    i64::from(fit.badness) <= rules.most
}

/// The line that ends at a penalty, if the pass admits it, without the demerits for the class of the line before it.
#[inline(always)]
fn admitted_alone(rules: &Rules, penalty: i32, fit: &LineFit) -> Option<LineCost>
    requires penalty { penalty <ℤ pos 10000 }
    requires fit_bounded { IsSmallLineFit fit.now }
    ensures value { result ≡ line_alone rules.now.params.now rules.now.bound penalty fit.now }
    ensures costs_bounded { IfSome result IsSmallAlone }
{
    if !is_admitted(rules, fit) {
        return None;
    }
    line_alone(rules.params, &Bound::Any, penalty, fit)
}

/// Whether lines of a class are stretched by more than a badness of 12.
#[tactic(auto, unfolding(break_lines::specs::Costs::is_loose))]
#[inline(always)]
fn is_loose(class: Fitness) -> bool
    ensures { result ≡ is_loose class }
{
    match class {
        Fitness::VeryLoose => true,
        Fitness::Loose => true,
        Fitness::Decent => false,
        Fitness::Tight => false,
    }
}

/// Whether groups wait, and a line is so loose that a line that is stretched by more costs the same in the pass.
#[inline(always)]
fn is_too_loose(rules: &Rules, fit: &LineFit) -> bool
    requires { IsSmallLineFit fit.now }
    ensures waits { result ≡ true → rules.now.waits ≡ true }
    ensures loosest { result ≡ true → is_loosest rules.now.bound fit.now ≡ true }
{
    if i64::from(fit.badness) <= rules.loosest {
        return false;
    }
    is_loose(fit.class)
}

/// Whether all later groups wait after a line: groups wait, and the line is so loose that a line that is stretched by more costs the same in the
/// pass. No lines are counted.
#[inline(always)]
pub(crate) fn all_wait(line: &JudgedLine, rules: &Rules) -> bool
    requires judged { IsJudged rules.now.params.now line.now }
    ensures waits { result ≡ true → rules.now.waits ≡ true }
    ensures loosest { result ≡ true → is_loosest rules.now.bound (line_fit line.now.sums rules.now.params.now.hsize) ≡ true }
{
    is_too_loose(rules, &line.fit)
}

/// Offers the entries of a group for a place, by a line that was tried from there, unless it is left out, if no lines are counted. Returns whether
/// entries were offered.
#[inline(always)]
pub(crate) fn offer_line(
    left_out: bool,
    row: &mut Row,
    at: &TriedPlace,
    live: &Live,
    line: &JudgedLine,
) -> bool
    requires uncounted { at.now.rules.now.params.now.first_lines ≡ 0 }
    requires can { CanOffer at.now.rules.now.params.now.first_lines
        (row_at at.now.rules.now.params.now.first_lines at.now.table.now at.now.place row.old) at.now.table.now live.now.group
        at.now.place at.now.penalty }
    requires judged { IsJudged at.now.rules.now.params.now line.now }
    requires best { HasBest at.now.table.now at.now.rules.now.params.now live.now }
    requires held { at.now.rules.now.params.now.first_lines ≡ 0 → AreOffers at.now.table.now live.now.group.place row.old.offers }
    ensures row { IsOfferingUnless left_out at.now.table.now at.now.rules.now.params.now at.now.rules.now.bound live.now.group at.now.place
        at.now.penalty (fits_of_sums at.now.rules.now.params.now line.now.sums)
        (row_at at.now.rules.now.params.now.first_lines at.now.table.now at.now.place row.old)
        (row_at at.now.rules.now.params.now.first_lines at.now.table.now at.now.place row.new) }
    ensures wide { length (row_at at.now.rules.now.params.now.first_lines at.now.table.now at.now.place row.new)
        ≡ slots at.now.rules.now.params.now.first_lines }
    ensures held { at.now.rules.now.params.now.first_lines ≡ 0 → AreOffers at.now.table.now (live.now.group.place + 1) row.new.offers }
    ensures untouched { result ≡ false → IsSameRow row.old row.new }
{
    if left_out {
        return false;
    }
    let Some(alone) = admitted_alone(at.rules, at.penalty, &line.fit) else {
        return false;
    };
    offer_best(&mut row.offers, at, live, alone);
    true
}

/// The best one of the entries of a group before a line of the class with this number.
#[inline(always)]
fn best_at(live: &Live, slot: usize) -> Offer
    requires { slot < 4 }
    ensures { slice_get live.now.best slot ≡ Some result }
{
    live.best[slot]
}

/// The one of two groups whose best entry before a line of the class with this number is better. The second group is later, so of two entries with
/// the same totals its entry is better.
#[inline(always)]
fn later_or_better<'a>(held: &'a Live, next: &'a Live, slot: usize) -> &'a Live
    requires { slot < 4 }
    ensures { IsLaterOrBetterFor slot held.now next.now result.now }
{
    if replaces(best_at(held, slot), best_at(next, slot)) {
        return next;
    }
    held
}

/// The best one of the entries of these groups before a line of the class with this number. The loop keeps a reference to its
/// group, so that it does not copy three words for each group.
#[inline(always)]
fn best_waiting(lives: &[Live], slot: usize) -> Offer
    requires some { 0 < length lives.now }
    requires slot_bounded { slot < 4 }
    ensures { IsLeastOf lives.now (length lives.now) slot result }
{
    let mut best = &lives[0];
    for index in 1..lives.len() {
        let better = later_or_better(best, &lives[index], slot);
        best = better;
    }
    best_at(best, slot)
}

/// Offers the entries of groups that wait by a line, if no lines are counted. All offers are for one state then, so the best one is enough. The
/// function is not inlined, so that its loop has all registers.
#[inline(never)]
fn offer_each_waiting(row: &mut Row, at: &TriedPlace, lives: &[Live], alone: LineCost)
    requires some { 0 < length lives.now }
    requires can { CanOfferWaiting at.now.rules.now.params.now
        (row_at at.now.rules.now.params.now.first_lines at.now.table.now at.now.place row.old) at.now.table.now lives.now at.now.place }
    requires costs_bounded { IsSmallAlone alone }
    requires held { at.now.rules.now.params.now.first_lines ≡ 0 → AreOffers at.now.table.now at.now.place row.old.offers }
    requires next { AreOffersBefore at.now.table.now lives.now 0 row.old.offers }
    ensures row { IsOfferingEach at.now.table.now at.now.rules.now.params.now alone lives.now at.now.place
        (row_at at.now.rules.now.params.now.first_lines at.now.table.now at.now.place row.old)
        (row_at at.now.rules.now.params.now.first_lines at.now.table.now at.now.place row.new) }
    ensures held { at.now.rules.now.params.now.first_lines ≡ 0 → AreOffers at.now.table.now at.now.place row.new.offers }
{
    let best = best_waiting(lives, alone.class.class_index());
    let offered = Offer {
        overhang: best.overhang + alone.overhang,
        demerits: best.demerits + alone.demerits,
        index: best.index,
    };
    put_offer(&mut row.offers, alone.class, offered);
}

/// Whether entries were offered before, or were offered now.
#[inline(always)]
pub(crate) fn either(before: bool, now: bool) -> bool
    ensures { result ≡ false → (before ≡ false) × (now ≡ false) }
{
    before || now
}

/// Offers the entries of groups that wait for a place, if no lines are counted. The lines from all of them cost what the loosest line costs; mostly
/// the pass does not admit it, and then there is nothing to do. Returns whether entries were offered.
#[inline]
pub(crate) fn offer_waiting(row: &mut Row, at: &TriedPlace, lives: &[Live]) -> bool
    requires can { CanOfferWaiting at.now.rules.now.params.now
        (row_at at.now.rules.now.params.now.first_lines at.now.table.now at.now.place row.old) at.now.table.now lives.now at.now.place }
    requires penalty { at.now.penalty <ℤ pos 10000 }
    requires held { at.now.rules.now.params.now.first_lines ≡ 0 → AreOffers at.now.table.now at.now.place row.old.offers }
    requires next { AreOffersBefore at.now.table.now lives.now 0 row.old.offers }
    ensures row { IsOfferingWaiting at.now.table.now at.now.rules.now.params.now at.now.rules.now.bound lives.now at.now.place at.now.penalty
        (row_at at.now.rules.now.params.now.first_lines at.now.table.now at.now.place row.old)
        (row_at at.now.rules.now.params.now.first_lines at.now.table.now at.now.place row.new) }
    ensures held { at.now.rules.now.params.now.first_lines ≡ 0 → AreOffers at.now.table.now at.now.place row.new.offers }
    ensures untouched { result ≡ false → IsSameRow row.old row.new }
{
    if lives.is_empty() {
        return false;
    }
    let rules = at.rules;
    let Some(alone) = line_alone(rules.params, &rules.bound, at.penalty, &LineFit::LOOSEST) else {
        return false;
    };
    offer_each_waiting(row, at, lives, alone);
    true
}
