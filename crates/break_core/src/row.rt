//! The row of a place: the best offers so far. If no lines are counted, they are kept without their entries.

ghost use Rattle.std.specs.Prelude.{◌≡◌, ◌<◌, ◌≤◌, ◌+◌, ◌++◌, ◌⊎◌, ◌∷◌, ℕ, List, [], true, false, length, set, slice_get};
ghost use Rattle.std.specs.Prelude.{vec_len, vec_capacity, Some, IfOk, OnOk};
ghost use Rattle.break_lines.specs.Orders.{NotAfter};
ghost use Rattle.break_lines.specs.Problems.{class_index, max_places, tie_numbers};
ghost use Rattle.break_lines.specs.Tables.{Entry, slots, row_entries, IsPut};
ghost use Rattle.break_lines.specs.Totals.{entry_with_totals};
ghost use Rattle.break_core.specs.Private.Offers.{no_entry, no_offer, totals_of, shown_offer, shown_from};
ghost use Rattle.break_core.specs.Private.Offers.{row_at, IsOffer, AreOffers, IsAsGood, IsEmpty};
ghost use Rattle.break_core.specs.Private.Offers.{IsAtMost, IsBelow};

use break_lines::{Entry, Fitness, LineCost, empty_row, flush_row, order};
use std::alloc::{AllocError, Global};
use std::cmp::Ordering;

/// The number that stands for no entry.
const NO_ENTRY: usize = 18_446_744_073_709_551_615;

/// An offer for a state, without its entry: its totals, and the number of the entry before its last line. In the same form, an entry before the next
/// line: its totals with the demerits for its class, and its number.
#[derive(Clone, Copy, Debug, PartialEq, Eq)]
pub(crate) struct Offer {
    pub(crate) overhang: i64,
    pub(crate) demerits: i64,
    pub(crate) index: usize,
}

/// The best offers for a place so far: for each class if no lines are counted, and else for each state.
#[derive(Drop)]
pub(crate) struct Row {
    pub(crate) offers: [Offer; 4],
    pub(crate) counted: Vec<Option<Entry>>,
}

impl Offer {
    /// No offer. Its totals are the greatest ones, so that each offer replaces it.
    pub(crate) const NONE: Offer = Offer {
        overhang: i64::MAX,
        demerits: i64::MAX,
        index: NO_ENTRY,
    };
}

/// Whether the first of two offers for one state is as good as the second or better if their totals are the same. The ends of the lines before decide
/// then. This is rare, so only here entries are read.
#[cold]
#[inline(never)]
fn wins_tie(table: &[Entry], first: usize, second: usize) -> bool
    requires first_bounded { first < length table.now }
    requires second_bounded { second < length table.now }
    ensures yes { result ≡ true → (e f : Entry) → slice_get table.now first ≡ Some e → slice_get table.now second ≡ Some f →
        NotAfter (tie_numbers (e.end ∷ [])) (tie_numbers (f.end ∷ [])) }
    ensures no { result ≡ false → (e f : Entry) → slice_get table.now first ≡ Some e → slice_get table.now second ≡ Some f →
        NotAfter (tie_numbers (f.end ∷ [])) (tie_numbers (e.end ∷ [])) }
{
    let a = table[first];
    let b = table[second];
    match order(a.end(), b.end()) {
        Ordering::Less => true,
        Ordering::Greater => false,
        Ordering::Equal => true,
    }
}

/// Whether the first of two offers for one state is as good as the second or better.
#[inline(always)]
pub(crate) fn is_as_good(table: &[Entry], first: Offer, second: Offer) -> bool
    requires first_bounded { first.index < length table.now }
    requires second_bounded { second.index < length table.now }
    ensures yes { result ≡ true → IsAsGood table.now first second }
    ensures no { result ≡ false → IsAsGood table.now second first }
{
    if first.overhang < second.overhang {
        return true;
    }
    if first.overhang > second.overhang {
        return false;
    }
    if first.demerits < second.demerits {
        return true;
    }
    if first.demerits > second.demerits {
        return false;
    }
    wins_tie(table, first.index, second.index)
}

/// Whether an offer replaces the content of a slot: it is as good or better, as each one is if the slot has no offer. Offers come in the order of the
/// places before their last lines, and of two with the same totals the later one is better, so no entry is read.
#[inline(always)]
pub(crate) fn replaces(held: Offer, offered: Offer) -> bool
    ensures yes { result ≡ true → IsAtMost offered held }
    ensures no { result ≡ false → IsBelow held offered }
{
    if offered.overhang < held.overhang {
        return true;
    }
    if offered.overhang > held.overhang {
        return false;
    }
    offered.demerits <= held.demerits
}

/// Puts an offer into the slot of its class, unless the slot holds a better one. The offers of the row are from earlier places.
#[inline(always)]
pub(crate) fn put_offer(offers: &mut [Offer; 4], class: Fitness, offered: Offer)
    requires { offered.index < no_entry }
    ensures put { (table : List Entry) → (low : ℕ) → (place : ℕ) → (e : Entry) → slice_get table offered.index ≡ Some e → low ≤ e.end.place →
        AreOffers table low offers.old → IsPut (entry_with_totals e offered.index place (totals_of class offered))
        (shown_from table place 0 offers.old) (shown_from table place 0 offers.new) }
    ensures either { (offers.new ≡ offers.old) ⊎ (offers.new ≡ set offers.old (class_index class) offered) }
{
    let slot = class.class_index();
    if replaces(offers[slot], offered) {
        offers[slot] = offered;
    }
}

/// Moves an offer for a class to the end of a table that has space for it.
#[inline(always)]
fn move_offer(table: &mut Vec<Entry>, held: Offer, class: Fitness, place: usize)
    requires space { vec_len table.old < vec_capacity table.old }
    requires places { place ≤ max_places }
    requires held { (held ≡ no_offer) ⊎ IsOffer table.old.items place class held }
    ensures table { table.new.items ≡ table.old.items ++ row_entries (shown_offer table.old.items place class held ∷ []) }
    ensures len { vec_len table.new ≤ vec_len table.old + 1 }
    ensures capacity { vec_capacity table.new ≡ vec_capacity table.old }
{
    if held.index == NO_ENTRY {
        return;
    }
    let totals = LineCost {
        class,
        overhang: held.overhang,
        demerits: held.demerits,
    };
    let before = table[held.index];
    table.push_reserved(before.with_totals(held.index, place, totals));
}

/// Moves the offers of a row to the end of a table that has space for them.
#[inline(always)]
fn move_offers(table: &mut Vec<Entry>, offers: &[Offer; 4], place: usize)
    requires space { vec_len table.old + 4 ≤ vec_capacity table.old }
    requires places { place ≤ max_places }
    requires held { AreOffers table.old.items place offers.now }
    ensures { table.new.items ≡ table.old.items ++ row_entries (shown_from table.old.items place 0 offers.now) }
{
    move_offer(table, offers[0], Fitness::VeryLoose, place);
    move_offer(table, offers[1], Fitness::Loose, place);
    move_offer(table, offers[2], Fitness::Decent, place);
    move_offer(table, offers[3], Fitness::Tight, place);
}

/// A row without offers. The error is that memory was refused.
pub(crate) fn new_row(alloc: Global, cut: usize) -> Result<Row, AllocError>
    requires cut_bounded { cut < 1000 }
    ensures { IfOk result (IsEmpty cut) }
{
    let counted = if cut > 0 {
        empty_row(alloc, cut)?
    } else {
        Vec::new(alloc)
    };
    Ok(Row {
        offers: [Offer::NONE; 4],
        counted,
    })
}

/// Appends the offers of the row of a place to a table, and empties the row.
#[inline(always)]
pub(crate) fn move_row(
    table: &mut Vec<Entry>,
    row: &mut Row,
    cut: usize,
    place: usize,
) -> Result<(), AllocError>
    requires places { place ≤ max_places }
    requires wide { length (row_at cut table.old.items place row.old) ≡ slots cut }
    requires held { cut ≡ 0 → AreOffers table.old.items place row.old.offers }
    ensures table { OnOk result (table.new.items ≡ table.old.items ++ row_entries (row_at cut table.old.items place row.old)) }
    ensures empty { OnOk result (IsEmpty cut row.new) }
{
    if cut > 0 {
        return flush_row(table, &mut row.counted);
    }
    table.reserve(4)?;
    move_offers(table, &row.offers, place);
    row.offers = [Offer::NONE; 4];
    Ok(())
}
