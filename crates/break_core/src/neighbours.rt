//! What is stored of neighbouring groups, if lines are counted: which groups make the same offers or better ones.

ghost use Rattle.std.specs.Prelude.{◌≡◌, ◌+◌, ◌<◌, ◌≤◌, ℕ, List, true, length, slice_get, Some, OnOk};
ghost use Rattle.break_lines.specs.Problems.{max_places};
ghost use Rattle.break_lines.specs.Tables.{Entry};
ghost use Rattle.break_core.specs.Private.Near.{IsMetBy, AreAtMost, IsCoveredBy, HasNeighbours, HaveNeighbours};

use crate::active_list::{LiveGroups, last_group};
use break_lines::{ActiveGroup, BreakState, Entry};
use std::alloc::AllocError;

/// A group, an earlier one whose offers by the same line are met by those of this group, and one that has entries for the same states with totals
/// that are at most those of this group. Each is the group itself if there is no such group.
#[derive(Clone, Copy, Debug, PartialEq, Eq)]
pub(crate) struct Neighbours {
    pub(crate) group: ActiveGroup,
    pub(crate) meets: ActiveGroup,
    pub(crate) covered_by: ActiveGroup,
}

/// Whether two groups are the same.
#[inline(always)]
pub(crate) fn is_same_group(a: ActiveGroup, b: ActiveGroup) -> bool
    ensures { result ≡ true → a ≡ b }
{
    a.place == b.place && a.start == b.start && a.end == b.end
}

/// The number of the first entry among numbers `from` to `end` that has the lines and the class of a state, or `end` or more.
fn number_of_state(table: &[Entry], state: BreakState, from: usize, end: usize) -> usize
    requires end_bounded { end ≤ length table.now }
    ensures low { from ≤ result }
    ensures found { result < end → (e : Entry) → slice_get table.now result ≡ Some e → (e.end.lines ≡ state.lines) × (e.end.class ≡ state.class) }
{
    let mut index = from;
    while index < end {
        let other = table[index].end();
        if other.lines == state.lines && other.class == state.class {
            return index;
        }
        index += 1;
    }
    index
}

/// Whether for each entry of an earlier group a later one has an entry for the same lines and class that is as good or better. Entries of both have
/// the same order.
fn is_met(table: &[Entry], earlier: ActiveGroup, later: ActiveGroup) -> bool
    requires later_bounded { later.end ≤ length table.now }
    ensures { result ≡ true → IsMetBy table.now earlier later }
{
    if earlier.end > table.len() {
        return false;
    }
    let mut by = later.start;
    for index in earlier.start..earlier.end {
        let entry = table[index];
        by = number_of_state(table, entry.end(), by, later.end);
        if by >= later.end {
            return false;
        }
        if !table[by].is_not_after(entry) {
            return false;
        }
    }
    true
}

/// The group that a new one meets: the previous one, if it does, and else itself.
#[inline]
fn group_met(table: &[Entry], group: ActiveGroup, previous: ActiveGroup) -> ActiveGroup
    requires group_bounded { group.end ≤ length table.now }
    ensures { IsMetBy table.now result group }
{
    if is_met(table, previous, group) {
        return previous;
    }
    group
}

/// Whether the totals of an entry are at most those of another one.
fn is_at_most(a: Entry, b: Entry) -> bool
    ensures { result ≡ true → AreAtMost a b }
{
    if a.overhang() < b.overhang() {
        return true;
    }
    if a.overhang() > b.overhang() {
        return false;
    }
    a.demerits() <= b.demerits()
}

/// Whether for each entry of a later group an earlier one has an entry for the same lines and class whose totals are at most as great.
fn is_covered(table: &[Entry], later: ActiveGroup, earlier: ActiveGroup) -> bool
    requires later_bounded { later.end ≤ length table.now }
    ensures { result ≡ true → IsCoveredBy table.now later earlier }
{
    if earlier.end > table.len() {
        return false;
    }
    let mut by = earlier.start;
    for index in later.start..later.end {
        let entry = table[index];
        by = number_of_state(table, entry.end(), by, earlier.end);
        if by >= earlier.end {
            return false;
        }
        if !is_at_most(table[by], entry) {
            return false;
        }
    }
    true
}

/// The group that covers a new one: the previous one, if it does, and else itself.
#[inline]
fn group_covering(table: &[Entry], group: ActiveGroup, previous: ActiveGroup) -> ActiveGroup
    requires group_bounded { group.end ≤ length table.now }
    ensures { IsCoveredBy table.now group result }
{
    if is_covered(table, group, previous) {
        return previous;
    }
    group
}

/// Stores the neighbours of the group of a place in a list by place. Each element of the list holds, whatever its number, so those of places without
/// a group are the same ones.
fn add_neighbours(
    list: &mut Vec<Neighbours>,
    table: &[Entry],
    group: ActiveGroup,
    previous: ActiveGroup,
) -> Result<(), AllocError>
    requires group_bounded { group.end ≤ length table.now }
    requires known { HaveNeighbours table.now list.old.items }
    ensures { OnOk result (HaveNeighbours table.now list.new.items) }
{
    let found = Neighbours {
        group,
        meets: group_met(table, group, previous),
        covered_by: group_covering(table, group, previous),
    };
    while list.len() <= group.place {
        list.push(found)?;
    }
    Ok(())
}

/// The same, if lines are counted. It has to be called before the group is added to the list: the last group of the list is the previous one.
#[inline(always)]
pub(crate) fn keep_neighbours<const COUNTED: bool>(
    list: &mut Vec<Neighbours>,
    table: &[Entry],
    group: ActiveGroup,
    lives: &LiveGroups,
) -> Result<(), AllocError>
    requires group_bounded { group.end ≤ length table.now }
    requires known { HaveNeighbours table.now list.old.items }
    ensures { OnOk result (HaveNeighbours table.now list.new.items) }
{
    if !COUNTED {
        return Ok(());
    }
    add_neighbours(list, table, group, last_group(lives, group))
}

/// The neighbours of a group, if they are stored, and else itself.
#[inline]
pub(crate) fn neighbours_of(list: &[Neighbours], group: ActiveGroup) -> Neighbours
    ensures group { result.group ≡ group }
    ensures known { (table : List Entry) → group.end ≤ length table → HaveNeighbours table list.now → HasNeighbours table result }
{
    if group.place < list.len() {
        let found = list[group.place];
        if is_same_group(found.group, group) {
            return found;
        }
    }
    Neighbours {
        group,
        meets: group,
        covered_by: group,
    }
}
