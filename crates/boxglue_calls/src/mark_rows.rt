//! The rows of the pages of a checked DVI file and of their marks, counted and then written into the memory of a caller.

ghost use Rattle.std.specs.Prelude.{◌≡◌, ◌+◌, ◌<◌, ◌≤◌, ◌^◌, ◌∷◌, [], List, length, ℕ};
ghost use Rattle.dvi_ops.specs.File.{MarkedPage};
ghost use Rattle.dvi_ops.specs.Fonts.{WidthsByName};
ghost use Rattle.dvi_ops.specs.Instruction.{Definition};
ghost use Rattle.dvi_read.specs.PageMarks.{HasGlyphWidths};
ghost use Rattle.dvi_read.specs.Seen.{SeenItemView};
ghost use Rattle.dvi_read.specs.ItemsLeft.{AreTextsLeft, AreItemsLeft, seen_item_view};
ghost use Rattle.dvi_scan.specs.View.{mark_of};
ghost use Rattle.boxglue_calls.specs.MarkTables.{empty_row, mark_outputs};
ghost use Rattle.boxglue_calls.specs.Private.MarkRows.{AddsMark, BeginsPage, CanBeWritten, HasPlace, HasRowsFor, HoldsRows, WritesItem};
ghost use Rattle.boxglue_calls.specs.Private.MarkRows.{marks_among, pages_among, row_of, size_of};

use crate::buffers::put_after;
use crate::mark_table::{DviMark, DviPage};
use dvi_read::{CharCode, Mark, SeenItem, SeenItems};
use dvi_scan::FontNumber;
use scaled_core::COUNTS;

/// The numbers of pages and of marks.
#[derive(Clone, Copy, Debug, PartialEq)]
pub(crate) struct RowCounts {
    pub pages: usize,
    pub marks: usize,
}

/// How many rows are written, and the last row of a page, which is open.
#[derive(Clone, Copy, Debug, PartialEq)]
pub(crate) struct RowProgress {
    pub pages: usize,
    pub marks: usize,
    pub row: DviPage,
}

/// Counts what is seen.
fn count_item(item: &SeenItem<'_>, counts: &mut RowCounts)
    requires { counts.old.pages + counts.old.marks + 1 < 2 ^ 64 }
    ensures pages { counts.new.pages ≡ counts.old.pages + pages_among (seen_item_view item.now ∷ []) }
    ensures marks { counts.new.marks ≡ counts.old.marks + length (marks_among (seen_item_view item.now ∷ [])) }
    ensures one { counts.new.pages + counts.new.marks ≡ counts.old.pages + counts.old.marks + 1 }
{
    match *item {
        SeenItem::Page(_) => counts.pages += 1,
        SeenItem::Mark(_) => counts.marks += 1,
    }
}

/// The numbers of pages and marks that are still to be seen. Each takes a byte of the file, so they fit.
pub(crate) fn count_rows(seen_items: &mut SeenItems<'_, '_>) -> RowCounts
    requires { (seen : List SeenItemView) × AreItemsLeft seen_items.old seen }
    ensures pages { (seen : List SeenItemView) → AreItemsLeft seen_items.old seen → result.pages ≡ pages_among seen }
    ensures marks { (seen : List SeenItemView) → AreItemsLeft seen_items.old seen → result.marks ≡ length (marks_among seen) }
    // There is a row for each mark.
    ensures rows { (metrics : WidthsByName) (table : List Definition) (places : List ℕ) (seen : List SeenItemView) → AreItemsLeft seen_items.old seen
        → AreTextsLeft seen_items.old places → HasGlyphWidths metrics table seen_items.old.file.now.fonts (marks_among seen)
        → HasRowsFor metrics table seen_items.old.file.now.bytes.now places (marks_among seen) }
    ensures remaining { (seen : List SeenItemView) × AreItemsLeft seen_items.new seen }
    ensures same { seen_items.new.file ≡ seen_items.old.file }
{
    let mut counts = RowCounts { pages: 0, marks: 0 };
    while let Some(item) = seen_items.next_item() {
        count_item(&item, &mut counts);
    }
    counts
}

/// A row of zeros, for a mark of a kind at a place.
fn empty_row(kind: u32, h: i32, v: i32) -> DviMark
    ensures { result ≡ empty_row kind h v }
{
    DviMark {
        kind,
        font: 0,
        code: 0,
        h,
        v,
        height: 0,
        width: 0,
        text_size: 0,
        text_start: 0,
    }
}

/// A length as a number of 32 bits, which that of a text always is.
fn size_in_32(size: usize) -> u32
    ensures { result ≡ size_of size }
{
    if size < 4_294_967_296 { size as u32 } else { 0 }
}

/// The row of the mark that was seen last.
fn mark_row(mark: &Mark<'_>, seen_items: &SeenItems<'_, '_>) -> DviMark
    requires { (seen : List SeenItemView) × AreItemsLeft seen_items.now seen }
    ensures { result ≡ row_of seen_items.now.file.now.fonts seen_items.now.at (mark_of mark.now) }
{
    match *mark {
        Mark::Glyph { font, code, h, v } => {
            let width = seen_items.width(FontNumber { value: font }, CharCode { value: code });
            DviMark {
                font,
                code,
                width: width.unwrap_or(0),
                ..empty_row(1, h, v)
            }
        }
        Mark::Rule {
            h,
            v,
            height,
            width,
        } => DviMark {
            height,
            width,
            ..empty_row(2, h, v)
        },
        Mark::Special { h, v, text } => DviMark {
            text_size: size_in_32(text.len()),
            text_start: seen_items.text_start(text) as u64,
            ..empty_row(3, h, v)
        },
    }
}

/// Writes the row of a page that begins, as yet without marks.
fn begin_page(counts: [i32; COUNTS], written: &mut RowProgress, pages: &mut [DviPage])
    requires { written.old.pages < length pages.old }
    ensures { BeginsPage counts written.old written.new pages.old pages.new }
{
    written.row = DviPage {
        counts,
        first_mark: written.marks,
        marks: 0,
    };
    put_after(written.pages, &[written.row], pages);
    written.pages += 1;
}

/// Writes the row of a mark, and that of its page again, which has one mark more.
fn add_mark(row: DviMark, written: &mut RowProgress, pages: &mut [DviPage], marks: &mut [DviMark])
    requires opened { 0 < written.old.pages }
    requires page { written.old.pages ≤ length pages.old }
    requires mark { written.old.marks < length marks.old }
    requires few { written.old.row.marks ≤ written.old.marks }
    ensures { AddsMark row written.old written.new (mark_outputs pages.old marks.old []) (mark_outputs pages.new marks.new []) }
{
    put_after(written.marks, &[row], marks);
    written.marks += 1;
    written.row.marks += 1;
    put_after(written.pages - 1, &[written.row], pages);
}

/// Writes the row of what was seen last.
fn write_item(
    item: &SeenItem<'_>,
    seen_items: &SeenItems<'_, '_>,
    written: &mut RowProgress,
    pages: &mut [DviPage],
    marks: &mut [DviMark],
)
    requires remaining { (seen : List SeenItemView) × AreItemsLeft seen_items.now seen }
    requires place { HasPlace item.now written.old (mark_outputs pages.old marks.old []) }
    ensures { WritesItem item.now seen_items.now written.old written.new (mark_outputs pages.old marks.old []) (mark_outputs pages.new marks.new []) }
{
    match *item {
        SeenItem::Page(counts) => begin_page(counts, written, pages),
        SeenItem::Mark(mark) => {
            let row = mark_row(&mark, seen_items);
            add_mark(row, written, pages, marks);
        }
    }
}

/// Writes the rows of all pages that are still to be seen, and of their marks, to the fronts of buffers that have space for them.
pub(crate) fn write_rows(
    seen_items: &mut SeenItems<'_, '_>,
    pages: &mut [DviPage],
    marks: &mut [DviMark],
)
    requires { (metrics : WidthsByName) × (table : List Definition) × (places : List ℕ) × (all : List MarkedPage)
        × CanBeWritten metrics table seen_items.old (mark_outputs pages.old marks.old []) places all }
    ensures { (metrics : WidthsByName) (table : List Definition) (places : List ℕ) (all : List MarkedPage)
        → CanBeWritten metrics table seen_items.old (mark_outputs pages.old marks.old []) places all
        → HoldsRows metrics table seen_items.old.file.now.bytes.now (mark_outputs pages.old marks.old []) (mark_outputs pages.new marks.new [])
        places all }
{
    let mut written = RowProgress {
        pages: 0,
        marks: 0,
        row: DviPage {
            counts: [0; COUNTS],
            first_mark: 0,
            marks: 0,
        },
    };
    while let Some(item) = seen_items.next_item() {
        write_item(&item, seen_items, &mut written, pages, marks);
    }
}
