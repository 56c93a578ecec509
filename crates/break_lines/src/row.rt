//! The row of a place: the best offer so far for each state.

ghost use Rattle.std.specs.Prelude.{◌≡◌, ◌<◌, ◌≤◌, ◌+◌, ◌++◌, length, replicate, vec_capacity, vec_len, None, IfSome, IfOk, OnOk, OnErr};
ghost use Rattle.break_lines.specs.Tables.{slots, row_entries, IsSmallLine, IsPut, IsImproved};
ghost use Rattle.break_lines.specs.Problems.{max_places};

use crate::entry::{Entry, replaces};
use crate::state::LineCost;
use std::alloc::{AllocError, Global};

/// A row without offers, with a slot for each state of a place. The error is that memory was refused.
pub fn empty_row(alloc: Global, cut: usize) -> Result<Vec<Option<Entry>>, AllocError>
    requires cut_bounded { cut < 1000 }
    ensures { IfOk result (λ row. row.items ≡ replicate (slots cut) None) }
{
    let mut row = Vec::with_capacity(alloc, 4 * (cut + 1))?;
    for _ in 0..4 * (cut + 1) {
        row.push(None)?;
    }
    Ok(row)
}

/// Puts an offer into its slot, unless the slot holds one that is as good or better.
#[inline(always)]
pub fn put(row: &mut Vec<Option<Entry>>, offered: Entry, cut: usize)
    requires cut_bounded { cut < 1000 }
    requires wide { length row.old.items ≡ slots cut }
    requires counted { offered.end.lines ≤ cut }
    ensures put { IsPut offered row.old.items row.new.items }
    ensures wide { length row.new.items ≡ slots cut }
{
    let slot = offered.end().slot(cut);
    if replaces(&row[slot], offered) {
        row[slot] = Some(offered);
    }
}

/// Extends an entry, number `index` of its table, by its line to a place, if there is one, and offers the result.
pub fn offer(
    row: &mut Vec<Option<Entry>>,
    entry: Entry,
    index: usize,
    place: usize,
    line: Option<LineCost>,
    cut: usize,
)
    requires cut_bounded { cut < 1000 }
    requires wide { length row.old.items ≡ slots cut }
    requires counted { entry.end.lines ≤ cut }
    requires later { entry.end.place < place }
    requires places { place ≤ max_places }
    requires line_bounded { IfSome line IsSmallLine }
    ensures row { IsImproved cut entry index place line row.old.items row.new.items }
    ensures wide { length row.new.items ≡ slots cut }
{
    let Some(line) = line else {
        return;
    };
    put(row, entry.with_line(index, place, line, cut), cut);
}

/// Moves the offers of a row to the end of a table that has space for a whole row.
#[inline]
fn move_offers(table: &mut Vec<Entry>, row: &mut Vec<Option<Entry>>)
    requires { vec_len table.old + vec_len row.old ≤ vec_capacity table.old }
    ensures table { table.new.items ≡ table.old.items ++ row_entries row.old.items }
    ensures row { row.new.items ≡ replicate (length row.old.items) None }
{
    for index in 0..row.len() {
        if let Some(entry) = row[index] {
            table.push_reserved(entry);
            row[index] = None;
        }
    }
}

/// Appends the offers of a row to a table, and empties the row. If memory is refused, both are as they were before the call: space for a whole row is
/// taken before anything moves.
#[inline]
pub fn flush_row(table: &mut Vec<Entry>, row: &mut Vec<Option<Entry>>) -> Result<(), AllocError>
    ensures table { OnOk result (table.new.items ≡ table.old.items ++ row_entries row.old.items) }
    ensures row { OnOk result (row.new.items ≡ replicate (length row.old.items) None) }
    ensures err { OnErr result (table.new.items ≡ table.old.items) }
    ensures kept { OnErr result (row.new.items ≡ row.old.items) }
    ensures wide { length row.new.items ≡ length row.old.items }
{
    table.reserve(row.len())?;
    move_offers(table, row);
    Ok(())
}
