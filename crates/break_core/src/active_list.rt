//! The active list: the groups of entries from which lines are still tried.

ghost use Rattle.std.specs.Prelude.{◌≡◌, ◌<◌, ◌≤◌, ◌+◌, ◌++◌, ℕ, true, [], ◌∷◌, length, take, drop, set, slice_get};
ghost use Rattle.std.specs.Prelude.{Some, None, if◌then◌else◌, OnOk};
ghost use Rattle.break_lines.specs.Sizes.{least_width};
ghost use Rattle.break_lines.specs.SmallCosts.{IsSmallSums};
ghost use Rattle.break_core.specs.Private.LeftOut.{is_more, kept_over};
ghost use Rattle.break_core.specs.Private.Active.{with_live, live_of};

use crate::row::Offer;
use break_lines::{ActiveGroup, Sums};
use std::alloc::AllocError;

/// A group of entries from which lines are tried. `over` is the width, shrunk as far as possible, of the line to the first place to which it was
/// overfull. `best` has for each class, if no lines are counted, the entry that makes the best offer by a line of this class.
#[derive(Clone, Copy, Debug, PartialEq, Eq)]
pub(crate) struct Live {
    pub(crate) group: ActiveGroup,
    pub(crate) over: Option<i64>,
    pub(crate) best: [Offer; 4],
}

/// The groups from which lines are tried, in the order of their places: those of a list from number `first` on. Mostly trying stops from the first
/// ones. They stay in the list until many have gathered, so that the others need not move.
#[derive(Drop)]
pub(crate) struct LiveGroups {
    pub(crate) list: Vec<Live>,
    pub(crate) first: usize,
}

impl LiveGroups {
    /// Whether no line is left to try.
    #[inline]
    pub(crate) fn is_empty(&self) -> bool
        ensures { result ≡ true → live_of self.now ≡ [] }
    {
        self.first >= self.list.len()
    }
}

/// The last group of a list, or this group if the list is empty.
#[inline]
pub(crate) fn last_group(lives: &LiveGroups, group: ActiveGroup) -> ActiveGroup {
    let count = lives.list.len();
    if count == 0 {
        return group;
    }
    lives.list[count - 1].group
}

/// How many groups from which trying has stopped always stay in front of the others.
const MOST_STOPPED: usize = 32;

/// Whether a line of this width, shrunk as far as possible, has more overhang than the first overfull line.
#[inline]
pub(crate) fn is_more(over: Option<i64>, width: i64) -> bool
    ensures { result ≡ is_more over width }
{
    match over {
        Some(over) => over < width,
        None => false,
    }
}

/// The value of `over` after a line of this width, shrunk as far as possible.
#[inline]
pub(crate) fn kept_over(over: Option<i64>, overfull: bool, width: i64) -> Option<i64>
    ensures { result ≡ kept_over over overfull width }
{
    match over {
        Some(over) => Some(over),
        None => {
            if overfull {
                return Some(width);
            }
            None
        }
    }
}

/// Stores the value of `over` after a line of this width from group number `index`. It changes only if the line is overfull.
#[inline(always)]
pub(crate) fn keep_over(lives: &mut Vec<Live>, index: usize, overfull: bool, width: i64)
    requires index_bounded { index < length lives.old.items }
    ensures { (live : Live) → slice_get lives.old.items index ≡ Some live →
        lives.new.items ≡ set lives.old.items index (record {
          group = live.group;
          over = kept_over live.over overfull width;
          best = live.best;
        }) }
{
    if overfull {
        let over = kept_over(lives[index].over, overfull, width);
        lives[index].over = over;
    }
}

/// The same after a line with these sums. The width is computed only for an overfull line.
#[inline(always)]
pub(crate) fn keep_over_after(lives: &mut Vec<Live>, index: usize, overfull: bool, sums: &Sums)
    requires index_bounded { index < length lives.old.items }
    requires sums_bounded { IsSmallSums sums.now }
    ensures { (live : Live) → slice_get lives.old.items index ≡ Some live → lives.new.items ≡ set lives.old.items index
        (record {
          group = live.group;
          over = kept_over live.over overfull (least_width sums.now);
          best = live.best;
        }) }
{
    if overfull {
        keep_over(lives, index, overfull, sums.least_width());
    }
}

/// Keeps group number `index` as number `kept` of the list, unless trying lines from it has stopped, and returns the number of groups that are kept
/// then. If trying has stopped from it and from all groups before it, no group needs to move.
#[inline(always)]
pub(crate) fn keep_group(lives: &mut LiveGroups, stopped: bool, kept: usize, index: usize) -> usize
    requires first_bounded { lives.old.first ≤ kept }
    requires kept_bounded { kept ≤ index }
    requires index_bounded { index < length lives.old.list.items }
    ensures front { (live : Live) → slice_get lives.old.list.items index ≡ Some live →
        drop lives.new.first (take result lives.new.list.items) ≡ (if stopped then drop lives.old.first (take kept lives.old.list.items)
        else (drop lives.old.first (take kept lives.old.list.items) ++ live ∷ [])) }
    ensures rest { (k : ℕ) → kept < k → slice_get lives.new.list.items k ≡ slice_get lives.old.list.items k }
    ensures count { length lives.new.list.items ≡ length lives.old.list.items }
    ensures first_bounded { lives.new.first ≤ result }
    ensures result_bounded { result ≤ index + 1 }
{
    if stopped {
        if lives.first < index {
            return kept;
        }
        // No group is kept before this one.
        lives.first = index + 1;
        return index + 1;
    }
    if kept < index {
        lives.list[kept] = lives.list[index];
    }
    kept + 1
}

/// The groups of a list from a number on.
#[inline(always)]
pub(crate) fn rest_of(lives: &[Live], from: usize) -> &[Live]
    ensures { result.now ≡ drop from lives.now }
{
    if from >= lives.len() {
        return &[];
    }
    &lives[from..]
}

/// Removes the groups from number `kept` on and before number `next`.
#[inline(always)]
pub(crate) fn remove_groups(lives: &mut Vec<Live>, kept: usize, next: usize)
    requires kept_bounded { kept ≤ next }
    requires next_bounded { next ≤ length lives.old.items }
    ensures { lives.new.items ≡ take kept lives.old.items ++ drop next lives.old.items }
{
    if kept == next {
        return;
    }
    let remaining = lives.len() - (next - kept);
    lives.copy_within(next.., kept);
    lives.truncate(remaining);
}

/// Removes the groups from which trying has stopped, if there are many and no fewer than the others, or all groups. So at most one group is moved for
/// each one that is removed.
#[inline]
pub(crate) fn remove_stopped(lives: &mut LiveGroups, all: bool)
    requires first_bounded { lives.old.first ≤ length lives.old.list.items }
    ensures left { live_of lives.new ≡ (if all then [] else live_of lives.old) }
    ensures first_bounded { lives.new.first ≤ length lives.new.list.items }
{
    if all {
        lives.list.clear();
        lives.first = 0;
        return;
    }
    if lives.first < MOST_STOPPED {
        return;
    }
    if lives.first < lives.list.len() - lives.first {
        return;
    }
    remove_groups(&mut lives.list, 0, lives.first);
    lives.first = 0;
}
