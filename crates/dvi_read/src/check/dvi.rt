//! A DVI file that was checked as a whole (DVItype, 13 to 20).

ghost use Rattle.std.specs.Prelude.{◌≡◌, ◌≢◌, ◌++◌, ◌<◌, [], length, slice_get, take, IfErr, IfOk, OnErr, OnOk, Some};
ghost use Rattle.dvi_ops.specs.File.{AreUnits, Frame, IsFile, MarkedPage};
ghost use Rattle.dvi_ops.specs.Fonts.{definitions};
ghost use Rattle.dvi_ops.specs.Tokens.{token_instructions};
ghost use Rattle.dvi_ops.specs.View.{units as view_units};
ghost use Rattle.dvi_scan.specs.View.{marked_page};
ghost use Rattle.dvi_read.specs.Listing.{listing as listing_of};
ghost use Rattle.dvi_read.specs.Opened.{HasUnitsOf, IsExact, IsNoFile};
ghost use Rattle.dvi_read.specs.Opening.{IsDviFault};
ghost use Rattle.dvi_read.specs.PageMarks.{HasGlyphWidths, HasSpaceFor, marks_of, rules_alone, text_places};
ghost use Rattle.dvi_read.specs.Seen.{seen_of};
ghost use Rattle.dvi_read.specs.ItemsLeft.{AreLinesLeft, HasAllLines, HasCheckedPages, HasCheckedTexts, AreItemsLeft};
ghost use Rattle.dvi_read.specs.declared.fault.DviFault.TheVariants.{OutOfMemory};
ghost use Rattle.tfm_core.specs.FileWidths.{file_widths};

use crate::check::before_pages::{BeforePages, find_front};
use crate::check::checked_file::CheckedFile;
use crate::check::instruction::most_pushes;
use crate::check::pages::{check_after_pages, check_pages};
use crate::check::shown_pages::ShownPages;
use crate::check::walk::Walk;
use crate::fault::DviFault;
use crate::fonts::ReadFonts;
use crate::listings::lines::Lines;
use crate::listings::part::ListingPart;
use crate::seen_items::one_page::MarkChoice;
use crate::seen_items::{SeenItems, page_space};
use dvi_ops::Units;
use dvi_scan::Page;
use std::alloc::{AllocError, Global};
use std::marker::Model;
use tfm_core::FontFile;

/// A DVI file that was checked as a whole: the file, its fonts, the places of its pages, and its units. It keeps no mark: its pages are read again
/// when they are shown.
#[derive(Drop)]
pub struct Dvi<'a> {
    alloc: Global,
    file: CheckedFile<'a>,
    units: Units,
    shown: ShownPages,
}

impl<'a> Model for Dvi<'a> {
    ghost use Rattle.dvi_ops.specs.File.{AreUnits};
    ghost use Rattle.dvi_ops.specs.View.{units as view_units};
    ghost use Rattle.dvi_read.specs.Opened.{OpenedFile};
    ghost use Rattle.dvi_read.specs.Private.ShownPages.{ShowsPages};
    ghost use Rattle.std.specs.Coded.{codes};
    ghost use Rattle.dvi_read.specs.contracts.fonts.ReadFonts as fonts;

    ghost Value = { OpenedFile };

    ghost coded = { Prim.hlevel (codes, fonts.the_row.coded) };

    ghost view = { λ dvi. record { units = view_units dvi.units; pages = dvi.shown.pages; file = dvi.file } };

    ghost invariant = { λ dvi. AreUnits (view_units dvi.units) × ShowsPages dvi.file dvi.shown.pages };
}

/// The fonts of a walk.
fn fonts_of(walk: Walk<'_, '_>) -> ReadFonts
    ensures { result ≡ walk.entry.fonts }
{
    let Walk { fonts, .. } = walk;
    fonts
}

impl<'a> Dvi<'a> {
    /// Checks a whole DVI file, with the widths of the metric files. The metric file of a font is the first one with the font's name. It takes memory
    /// for places, definitions and fonts, and for the page that is checked.
    ///
    /// The checks are in this order: the end of the file, the places of its pages from the last one back, the preamble, and each instruction from
    /// there on. The fault is Bad with the first broken rule and its place; Font with the refusal of a selected font without widths; or OutOfMemory.
    pub fn open(alloc: Global, bytes: &'a [u8], files: &[FontFile]) -> Result<Dvi<'a>, DviFault<'a>>
        // The bytes are a file of these pages.
        ensures ok { IfOk result (λ dvi. IsFile (file_widths files.now) bytes.now dvi.pages) }
        ensures units { IfOk result (HasUnitsOf bytes.now) }
        // Each glyph of the pages has the width that the first definition of its font and the metric files give.
        ensures widths { IfOk result (λ dvi. (f : Frame bytes.now)
            → HasGlyphWidths (file_widths files.now) (definitions (token_instructions f.front ++ token_instructions f.tail)) dvi.file.fonts
            (marks_of dvi.pages)) }
        ensures space { IfOk result (λ dvi. HasSpaceFor bytes.now dvi.pages) }
        ensures bytes { IfOk result (λ dvi. dvi.file.bytes.now ≡ bytes.now) }
        ensures texts { IfOk result (λ dvi. (f : Frame bytes.now) → HasCheckedTexts dvi.file (text_places 0 f.front)) }
        // The rule that a fault names is broken at its place, and the earlier checks hold.
        ensures bad { IfErr result (IsDviFault files.now bytes.now) }
        // Except for memory, only bytes that are no file are refused.
        ensures refused { IfErr result (λ fault. fault ≢ OutOfMemory → IsNoFile files.now bytes.now) }
        // A file is opened with exactly its pages, or memory is refused.
        ensures exact { IsExact files.now bytes.now result }
    {
        let BeforePages {
            ending,
            chain,
            from,
        } = find_front(alloc, bytes)?;
        let mut walk = check_pages(alloc, bytes, files, &ending, from, &chain)?;
        check_after_pages(bytes, &ending, &mut walk)?;
        let fonts = fonts_of(walk);
        let file = CheckedFile {
            bytes,
            from,
            post: ending.post,
            most: most_pushes(&ending),
            fonts,
            places: chain,
        };
        let shown = ShownPages::of(&file);
        Ok(Dvi {
            alloc,
            file,
            units: ending.postamble.units,
            shown,
        })
    }

    /// The number of pages. It takes no memory.
    pub fn pages(&self) -> usize
        ensures { result ≡ length self.now.pages }
    {
        self.file.places.len()
    }

    /// The page with this index, from 0 and below the number of pages, read from its place. It takes memory for the marks of this page and for the
    /// places that pushes save.
    pub fn page(&self, index: usize) -> Result<Page<'a>, AllocError>
        requires { index < length self.now.pages }
        ensures { IfOk result (λ page. slice_get self.now.pages index ≡ Some (marked_page page)) }
    {
        self.file.page(self.alloc, index, MarkChoice::All)
    }

    /// The same page with only its rules. It takes memory for them and for the places that pushes save.
    pub fn page_rules(&self, index: usize) -> Result<Page<'a>, AllocError>
        requires { index < length self.now.pages }
        ensures { IfOk result (λ page. (shown : MarkedPage) × (slice_get self.now.pages index ≡ Some shown)
            × (marked_page page ≡ rules_alone shown)) }
    {
        self.file.page(self.alloc, index, MarkChoice::Rules)
    }

    /// The units of the file: num, den and mag, which are positive. It takes no memory.
    pub fn units(&self) -> Units
        ensures value { view_units result ≡ self.now.units }
        ensures positive { AreUnits (view_units result) }
    {
        self.units
    }

    /// What is seen of its pages. It takes memory for one mark and for the places that pushes save, and nothing takes memory after it.
    pub fn seen_items(&self) -> Result<SeenItems<'_, 'a>, AllocError>
        ensures remaining { IfOk result (λ seen_items. AreItemsLeft seen_items (seen_of self.now.pages)) }
        ensures all { IfOk result (λ seen_items. HasCheckedPages seen_items.file.now self.now.pages) }
        ensures place { IfOk result (λ seen_items. seen_items.at ≡ seen_items.file.now.from) }
        ensures file { IfOk result (λ seen_items. seen_items.file.now ≡ self.now.file) }
    {
        let page = page_space(self.alloc, self.file.most)?;
        Ok(SeenItems {
            file: &self.file,
            at: self.file.from,
            inside: false,
            current: self.file.fonts.current,
            page,
        })
    }

    /// The lines of the listing of all pages, to be taken in pieces. It takes memory as `seen_items`.
    pub fn lines(&self) -> Result<Lines<'_, 'a>, AllocError>
        ensures remaining { IfOk result (λ lines. AreLinesLeft lines (listing_of self.now.pages)) }
        ensures all { IfOk result (λ lines. HasAllLines lines (listing_of self.now.pages)) }
    {
        let seen_items = self.seen_items()?;
        Ok(Lines::new(seen_items))
    }

    /// Appends all lines of the listing. Where memory is refused, a beginning of them may be there.
    fn push_lines(&self, text: &mut Vec<u8>) -> Result<(), AllocError>
        ensures ok { OnOk result (text.new.items ≡ text.old.items ++ listing_of self.now.pages) }
        ensures front { take (length text.old.items) text.new.items ≡ text.old.items }
    {
        let mut lines = self.lines()?;
        let mut part = ListingPart::new();
        while lines.next(&mut part) {
            text.extend_from_slice(part.as_bytes())?;
        }
        Ok(())
    }

    /// Appends the listing of all pages, which are numbered from 1. Each page is a line `page I counts c0 .. c9` and then a line for each of its
    /// marks: `glyph FONT CODE H V`, `rule H V HEIGHT WIDTH` or `special H V TEXT`, in DVI units and decimal numbers (the marks are DVItype's, 15 and
    /// 16; the text is own). Where memory is refused, `text` is unchanged. A file without pages takes no memory. The program writes the same lines
    /// piece by piece (`lines`); this is for a caller who wants them at once.
    pub fn listing(&self, text: &mut Vec<u8>) -> Result<(), AllocError>
        ensures ok { OnOk result (text.new.items ≡ text.old.items ++ listing_of self.now.pages) }
        ensures err { OnErr result (text.new.items ≡ text.old.items) }
        ensures growth { OnErr result (listing_of self.now.pages ≢ []) }
    {
        if self.pages() == 0 {
            return Ok(());
        }
        let held = text.len();
        let listed = self.push_lines(text);
        if listed.is_err() {
            text.truncate(held);
        }
        listed
    }
}
