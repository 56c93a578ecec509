//! The chosen list of breaks, read from the table.

ghost use Rattle.std.specs.Prelude.{◌≡◌, ◌<◌, ◌+◌, length, reverse, IfOk, MatchOption};
ghost use Rattle.break_lines.specs.Problems.{Problem};
ghost use Rattle.break_lines.specs.Chosen.{AdmitsNone, IsAnswer};
ghost use Rattle.break_lines.specs.Tables.{IsTable, IsSomeTable};
ghost use Rattle.break_lines.specs.Private.Tables.{IsBestEnd, HasNoEnd, AreEndsOf};

use crate::entry::Entry;
use crate::state::BreakState;
use std::alloc::{AllocError, Global};

/// Most paragraphs have no more lines than this, and their ends fit into the space that is taken at first.
const USUAL_LINES: usize = 16;

/// A list of breaks: the ends of its lines in order, its total overhang in scaled points, and its total demerits.
#[derive(Debug, Drop)]
pub struct ChosenBreaks {
    pub ends: Vec<BreakState>,
    pub overhang: i64,
    pub demerits: i64,
}

/// The best entry of a place among the entries 0 to `index`, given the best one among those before `index`.
fn better_end(table: &[Entry], best: Option<usize>, index: usize, place: usize) -> Option<usize>
    requires index_bounded { index < length table.now }
    requires best { MatchOption best (HasNoEnd table.now place index) (IsBestEnd table.now place index) }
    ensures { MatchOption result (HasNoEnd table.now place (index + 1)) (IsBestEnd table.now place (index + 1)) }
{
    let entry = table[index];
    if entry.end().place as usize != place {
        return best;
    }
    let Some(old) = best else {
        return Some(index);
    };
    if table[old].is_not_after(entry) {
        return best;
    }
    Some(index)
}

/// The number of the best entry of a place, if the place has an entry.
fn best_end(table: &[Entry], place: usize) -> Option<usize>
    ensures { MatchOption result (HasNoEnd table.now place (length table.now)) (IsBestEnd table.now place (length table.now)) }
{
    let mut best = None;
    for index in 0..table.len() {
        best = better_end(table, best, index, place);
    }
    best
}

/// The ends of the lines that lead to an entry, in order. An entry knows only the entry before it, so they are collected backward and then reversed.
fn read_back(alloc: Global, table: &[Entry], at: usize) -> Result<Vec<BreakState>, AllocError>
    requires index_bounded { at < length table.now }
    requires table { IsSomeTable table.now }
    ensures { IfOk result (λ ends. AreEndsOf table.now at (reverse ends.items)) }
{
    let mut ends = Vec::with_capacity(alloc, USUAL_LINES)?;
    let mut index = at;
    while index != 0 {
        let entry = table[index];
        ends.push(entry.end())?;
        index = entry.index();
    }
    ends.reverse();
    Ok(ends)
}

/// The chosen list of breaks, from a table for all places, or `None` if no list is admitted.
pub fn chosen_list(
    alloc: Global,
    table: &[Entry],
    places: usize,
) -> Result<Option<ChosenBreaks>, AllocError>
    requires has_places { 0 < places }
    requires table { IsSomeTable table.now }
    ensures { (p : Problem) → p.places ≡ places → IsTable p (places + 1) table.now →
        IfOk result (λ found. MatchOption found (AdmitsNone p) (IsAnswer p)) }
{
    let Some(index) = best_end(table, places) else {
        return Ok(None);
    };
    let best = table[index];
    let ends = read_back(alloc, table, index)?;
    Ok(Some(ChosenBreaks {
        ends,
        overhang: best.overhang(),
        demerits: best.demerits(),
    }))
}
