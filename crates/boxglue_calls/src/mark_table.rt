//! The pages of a DVI file and their marks, as tables.

ghost use Rattle.std.specs.Prelude.{◌≡◌, ◌⊎◌, ◌≤◌, ◌<◌, ℕ, List, length, false, true, IfOk, OnErr};
ghost use Rattle.dvi_ops.specs.File.{MarkedPage};
ghost use Rattle.dvi_ops.specs.View.{units as view_units};
ghost use Rattle.tfm_core.specs.NamedBytes.{NamedBytes};
ghost use Rattle.boxglue_calls.specs.Fonts.{are_named, files_of};
ghost use Rattle.boxglue_calls.specs.Private.MarkFiles.{HandsOverFully, IsChecked, IsRefusal, IsShortRefusal, place_of};
ghost use Rattle.boxglue_calls.specs.MarkTables.{mark_outputs};
ghost use Rattle.boxglue_calls.specs.Calls.{HasSpaceForMarks, KeepsUndone, ReadsMarks, RefusesNames};

use crate::buffers::hand_over;
use crate::given::{Font, are_named, font_files};
use crate::mark_rows::{RowCounts, count_rows, write_rows};
use crate::status::{ACCEPTED, BAD_FONT_NAME, BUFFER_TOO_SMALL, OUT_OF_MEMORY, REFUSED};
use boxglue_print::{Dvi, DviFault, refusal};
use dvi_ops::Units;
use dvi_read::SeenItems;
use scaled_core::COUNTS;
use std::alloc::{AllocError, Global};

/// A page of a DVI file: its ten counts, and its marks, which stand one after the other in the table of marks.
#[repr(C)]
#[derive(Clone, Copy, Debug, PartialEq, Eq)]
pub struct DviPage {
    pub counts: [i32; COUNTS],
    /// Where its first mark stands among the marks.
    pub first_mark: usize,
    /// How many marks it has.
    pub marks: usize,
}

/// A mark of a page, in DVI units. What its kind does not have is 0.
#[repr(C)]
#[derive(Clone, Copy, Debug, PartialEq, Eq)]
pub struct DviMark {
    /// 1 for a glyph, 2 for a rule, 3 for a special.
    pub kind: u32,
    /// The number of the font of a glyph.
    pub font: i32,
    /// The character of a glyph.
    pub code: i32,
    pub h: i32,
    pub v: i32,
    /// The height of a rule.
    pub height: i32,
    /// The width of a glyph or of a rule.
    pub width: i32,
    /// How many bytes the text of a special has.
    pub text_size: u32,
    /// Where this text begins in the file.
    pub text_start: u64,
}

/// How many pages, marks and bytes of text a call has written, and the units of the file.
#[repr(C)]
#[derive(Clone, Copy, Debug, PartialEq, Eq)]
pub struct MarkSizes {
    pub pages: usize,
    pub marks: usize,
    pub text: usize,
    pub num: i32,
    pub den: i32,
    pub mag: i32,
}

/// The place of a broken rule, or 0 for another fault.
fn place_of(fault: DviFault<'_>) -> usize
    ensures { result ≡ place_of fault.entry }
{
    match fault {
        DviFault::Bad(bad) => bad.place,
        _ => 0,
    }
}

/// The line of a refusal. It is short, since a place is a number of 64 bits.
fn short_refusal(alloc: Global, fault: DviFault<'_>) -> Result<Vec<u8>, AllocError>
    ensures { IfOk result (λ line. IsShortRefusal fault.entry line.items) }
{
    // A fact for the proofs: the place of a broken rule is a number of 64 bits.
    let _ = place_of(fault);
    let line = refusal(alloc, fault)?;
    Ok(line)
}

/// The sizes of the tables of a file, and its units.
fn sizes_of(counts: RowCounts, units: Units) -> MarkSizes
    ensures pages { result.pages ≡ counts.pages }
    ensures marks { result.marks ≡ counts.marks }
    ensures text { result.text ≡ 0 }
    ensures units { view_units units ≡ record { num = result.num; den = result.den; mag = result.mag } }
{
    MarkSizes {
        pages: counts.pages,
        marks: counts.marks,
        text: 0,
        num: units.num,
        den: units.den,
        mag: units.mag,
    }
}

/// Whether buffers have space for these numbers of rows.
fn have_space(counts: RowCounts, pages: &[DviPage], marks: &[DviMark]) -> bool
    ensures yes { result ≡ true → (counts.pages ≤ length pages.now) × (counts.marks ≤ length marks.now) }
    ensures no { result ≡ false → (length pages.now < counts.pages) ⊎ (length marks.now < counts.marks) }
{
    counts.pages <= pages.len() && counts.marks <= marks.len()
}

/// Hands the tables of a checked file over: its rows are counted, and where the buffers have space for them they are written. It takes no memory.
fn hand_over_rows(
    seen_items: &mut SeenItems<'_, '_>,
    units: Units,
    pages: &mut [DviPage],
    marks: &mut [DviMark],
    sizes: &mut MarkSizes,
) -> u32
    requires { (files : List NamedBytes) × (bytes : List ℕ) × (all : List MarkedPage) × IsChecked files bytes units seen_items.old all }
    ensures { (files : List NamedBytes) (bytes : List ℕ) (all : List MarkedPage) (text : List ℕ) → IsChecked files bytes units seen_items.old all
        → HandsOverFully files bytes (mark_outputs pages.old marks.old text) (mark_outputs pages.new marks.new text) sizes.new result }
{
    let counts = count_rows(seen_items);
    *sizes = sizes_of(counts, units);
    if !have_space(counts, pages, marks) {
        return BUFFER_TOO_SMALL;
    }
    seen_items.rewind();
    write_rows(seen_items, pages, marks);
    ACCEPTED
}

/// Hands the line of a refusal over. There are no rows and no units.
fn hand_over_refusal(line: &[u8], text: &mut [u8], sizes: &mut MarkSizes) -> u32
    ensures { (files : List NamedBytes) (bytes : List ℕ) → IsRefusal files bytes line.now → (pages : List DviPage) (marks : List DviMark)
        → HandsOverFully files bytes (mark_outputs pages marks text.old) (mark_outputs pages marks text.new) sizes.new result }
{
    *sizes = MarkSizes {
        pages: 0,
        marks: 0,
        text: line.len(),
        num: 0,
        den: 0,
        mag: 0,
    };
    hand_over(line, text, REFUSED)
}

/// Hands over the tables of a DVI file with these fonts, which have names, or the line of its refusal. All memory is taken before.
fn hand_over_marks(
    alloc: Global,
    dvi: &[u8],
    fonts: &[Font<'_>],
    pages: &mut [DviPage],
    marks: &mut [DviMark],
    text: &mut [u8],
    sizes: &mut MarkSizes,
) -> Result<u32, AllocError>
    requires { are_named fonts.now ≡ true }
    ensures handed { IfOk result (HandsOverFully (files_of fonts.now) dvi.now (mark_outputs pages.old marks.old text.old)
        (mark_outputs pages.new marks.new text.new) sizes.new) }
    ensures pages { OnErr result (pages.new ≡ pages.old) }
    ensures marks { OnErr result (marks.new ≡ marks.old) }
    ensures text { OnErr result (text.new ≡ text.old) }
    ensures sizes { OnErr result (sizes.new ≡ sizes.old) }
{
    let files = font_files(alloc, fonts)?;
    match Dvi::open(alloc, dvi, &files) {
        Ok(opened) => {
            let mut seen_items = opened.seen_items()?;
            let units = opened.units();
            Ok(hand_over_rows(&mut seen_items, units, pages, marks, sizes))
        }
        Err(fault) => {
            let line = short_refusal(alloc, fault)?;
            Ok(hand_over_refusal(&line, text, sizes))
        }
    }
}

/// Reads the marks of all pages of a DVI file with these fonts, as `list`. The pages go into `pages`, their marks one after the other into `marks`,
/// and the numbers of both and the units of the file into `sizes`. Of a file that is refused there are no pages, no marks and no units, and the line
/// of the refusal goes into `text`. The file is checked, its rows are counted, and where they fit they are written: no more memory is taken for more
/// marks. `dvi.len()` marks, `dvi.len() / 46` pages and 64 bytes of text always suffice.
///
/// Returns ACCEPTED or REFUSED, and then all are written; BUFFER_TOO_SMALL, and then `sizes` alone is written; OUT_OF_MEMORY or BAD_FONT_NAME, and
/// then nothing is.
pub fn marks(
    alloc: Global,
    dvi: &[u8],
    fonts: &[Font<'_>],
    pages: &mut [DviPage],
    marks: &mut [DviMark],
    text: &mut [u8],
    sizes: &mut MarkSizes,
) -> u32
    ensures named { RefusesNames fonts.now result }
    ensures done { ReadsMarks dvi.now fonts.now (mark_outputs pages.old marks.old text.old)
        (mark_outputs pages.new marks.new text.new) sizes.new result }
    ensures enough { HasSpaceForMarks dvi.now (mark_outputs pages.old marks.old text.old) result }
    ensures pages { KeepsUndone result pages.old pages.new }
    ensures marks { KeepsUndone result marks.old marks.new }
    ensures text { KeepsUndone result text.old text.new }
    ensures sizes { KeepsUndone result sizes.old sizes.new }
{
    if !are_named(fonts) {
        return BAD_FONT_NAME;
    }
    match hand_over_marks(alloc, dvi, fonts, pages, marks, text, sizes) {
        Ok(status) => status,
        Err(AllocError) => OUT_OF_MEMORY,
    }
}
