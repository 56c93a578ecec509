//! Entries of the table: the best way to a state. They correspond to TeX's active and passive nodes.

ghost use Rattle.std.specs.Prelude.{◌≡◌, ◌<◌, ◌≤◌, true, false, Some};
ghost use Rattle.scaled_core.specs.Dimensions.{Within};
ghost use Rattle.break_lines.specs.Costs.{adjacent_demerits};
ghost use Rattle.break_lines.specs.Orders.{NotAfter};
ghost use Rattle.break_lines.specs.Tables.{Entry, first_entry, extended_entry, compared_numbers, IsSmallLine, IsKept};
ghost use Rattle.break_lines.specs.Problems.{max_places};
ghost use Rattle.break_lines.specs.Totals.{AreSmallTotals, totals_before, line_of_totals, entry_with_totals};

use crate::cost::adjacent_demerits;
use crate::state::{BreakState, Fitness, LineCost, order};
use node_core::Params;
use std::cmp::Ordering;
use std::marker::Model;

/// An entry of a table: a state, the costs of the best way to it, the state before it, and the number of the entry for that state.
#[derive(Clone, Copy, Debug, PartialEq, Eq)]
pub struct Entry {
    end: BreakState,
    overhang: i64,
    demerits: i64,
    from: BreakState,
    index: usize,
}

impl Model for Entry {
    ghost use Rattle.break_lines.specs.Tables.{Entry};
    ghost use Rattle.break_lines.specs.Private.Tables.{IsSmall};

    ghost Value = { Entry };

    ghost view = { λ b. record { end = b.end; overhang = b.overhang; demerits = b.demerits; from = b.from; index = b.index } };

    ghost invariant = { λ b. IsSmall (record { end = b.end; overhang = b.overhang; demerits = b.demerits; from = b.from; index = b.index }) };

    ghost inverse = { λ e. record { end = e.end; overhang = e.overhang; demerits = e.demerits; from = e.from; index = e.index } };
}

impl Entry {
    /// The entry for the start.
    pub fn first() -> Entry
        ensures { result ≡ first_entry }
    {
        Entry {
            end: BreakState::start(),
            overhang: 0,
            demerits: 0,
            from: BreakState::start(),
            index: 0,
        }
    }

    /// The state of the entry.
    #[inline]
    pub fn end(self) -> BreakState
        ensures end { result ≡ self.end }
        ensures place_bounded { result.place ≤ max_places }
    {
        self.end
    }

    /// The number of the entry before this one.
    #[inline]
    pub fn index(self) -> usize
        ensures { result ≡ self.index }
    {
        self.index
    }

    /// The total overhang of the lines, in scaled points.
    pub fn overhang(self) -> i64
        ensures { result ≡ self.overhang }
    {
        self.overhang
    }

    /// The total demerits of the lines.
    pub fn demerits(self) -> i64
        ensures { result ≡ self.demerits }
    {
        self.demerits
    }

    /// This entry, number `index` of its table, extended by a line to a later place.
    #[inline]
    pub fn with_line(self, index: usize, place: usize, line: LineCost, cut: usize) -> Entry
        requires cut_bounded { cut < 1000 }
        requires counted { self.end.lines ≤ cut }
        requires later { self.end.place < place }
        requires places { place ≤ max_places }
        requires line_bounded { IsSmallLine line }
        ensures { result ≡ extended_entry cut self index place line }
    {
        Entry {
            end: self.end.after(place as u32, line, cut),
            overhang: self.overhang + line.overhang,
            demerits: self.demerits + line.demerits,
            from: self.end,
            index,
        }
    }

    /// The totals of the way to this entry, with the demerits for its class before a line of a class.
    #[inline(always)]
    pub fn totals_before(self, params: &Params, class: Fitness) -> LineCost
        ensures value { result ≡ totals_before params.now self class }
        ensures totals_bounded { AreSmallTotals result }
        ensures class_bounded { Within 500000000 (adjacent_demerits params.now self.end.class class) }
    {
        LineCost {
            class,
            overhang: self.overhang,
            demerits: self.demerits + adjacent_demerits(params, self.end.class, class),
        }
    }

    /// This entry, number `index` of its table, extended by a line to a later place, given the totals with that line, if no lines are counted.
    #[inline(always)]
    pub fn with_totals(self, index: usize, place: usize, totals: LineCost) -> Entry
        requires later { self.end.place < place }
        requires places { place ≤ max_places }
        requires line_bounded { IsSmallLine (line_of_totals self totals) }
        ensures { result ≡ entry_with_totals self index place totals }
    {
        Entry {
            end: BreakState {
                place: place as u32,
                lines: 0,
                class: totals.class,
            },
            overhang: totals.overhang,
            demerits: totals.demerits,
            from: self.end,
            index,
        }
    }

    /// Whether this entry is as good as another one or better: costs are compared first, and then ends of lines.
    #[inline]
    pub fn is_not_after(self, other: Entry) -> bool
        ensures not_after { result ≡ true → NotAfter (compared_numbers self) (compared_numbers other) }
        ensures after { result ≡ false → NotAfter (compared_numbers other) (compared_numbers self) }
    {
        if self.overhang < other.overhang {
            return true;
        }
        if self.overhang > other.overhang {
            return false;
        }
        if self.demerits < other.demerits {
            return true;
        }
        if self.demerits > other.demerits {
            return false;
        }
        match order(self.end, other.end) {
            Ordering::Less => true,
            Ordering::Greater => false,
            Ordering::Equal => match order(self.from, other.from) {
                Ordering::Less => true,
                Ordering::Greater => false,
                Ordering::Equal => true,
            },
        }
    }
}

/// Whether an offer replaces the content of a slot: the slot is empty, or its content is worse than the offer.
#[inline]
pub fn replaces(held: &Option<Entry>, offered: Entry) -> bool
    ensures yes { result ≡ true → IsKept held.now offered offered }
    ensures no { result ≡ false → (kept : Entry) × (held.now ≡ Some kept) × IsKept held.now offered kept }
{
    match held {
        Some(held) => !held.is_not_after(offered),
        None => true,
    }
}
