//! The pages of DVI files: their listing, and bitmaps of their rules.

ghost use Rattle.std.specs.Prelude.{◌≡◌, length, true, Err, IfOk, IsTrue, OnErr, SomeIff};
ghost use Rattle.boxglue_calls.specs.Buffers.{HandsOver};
ghost use Rattle.boxglue_calls.specs.Fonts.{are_named, files_of};
ghost use Rattle.boxglue_calls.specs.Pages.{HandsOverPages, is_in_range, read_status};
ghost use Rattle.boxglue_print.specs.Outputs.{IsListed, IsPainted, LacksPage};
ghost use Rattle.boxglue_print.specs.declared.output.PaintFault.TheVariants.{NoSuchPage};
ghost use Rattle.raster_core.specs.PaintOptions.{options_of};
ghost use Rattle.boxglue_calls.specs.Calls.{KeepsUndone, KeepsUnpainted, Lists, NoticesNoPage, Paints, RefusesNames, RefusesNumbers, RefusesPage};

use crate::buffers::hand_over;
use crate::given::{Font, are_named, font_files};
use crate::listings::list_opened;
use crate::status::{ACCEPTED, BAD_FONT_NAME, NO_SUCH_PAGE, OUT_OF_MEMORY, OUT_OF_RANGE, REFUSED};
use boxglue_print::{
    Dvi, Output, PaintFault, PaintOptions, Painting, page_bitmap, paint_text, refusal,
};
use std::alloc::{AllocError, Global};

/// The status of a DVI file that was read.
pub(crate) fn file_status(accepted: bool) -> u32
    ensures { result ≡ read_status accepted }
{
    if accepted { ACCEPTED } else { REFUSED }
}

/// Hands a text over, and sets the size to its length.
pub(crate) fn hand_over_output(output: &Output, text: &mut [u8], size: &mut usize) -> u32
    ensures handed { HandsOver text.old text.new output.now.text.items (read_status output.now.accepted) result }
    ensures size { size.new ≡ length output.now.text.items }
{
    *size = output.text.len();
    hand_over(&output.text, text, file_status(output.accepted))
}

/// Hands over the listing of a DVI file with these fonts, which have names, or the line of its refusal.
fn list_named(
    alloc: Global,
    dvi: &[u8],
    fonts: &[Font<'_>],
    text: &mut [u8],
    size: &mut usize,
) -> Result<u32, AllocError>
    requires { are_named fonts.now ≡ true }
    ensures handed { IfOk result (HandsOverPages (IsListed (files_of fonts.now) dvi.now) text.old text.new size.new) }
    ensures text { OnErr result (text.new ≡ text.old) }
    ensures size { OnErr result (size.new ≡ size.old) }
{
    let files = font_files(alloc, fonts)?;
    match Dvi::open(alloc, dvi, &files) {
        Ok(opened) => list_opened(alloc, &opened, text, size),
        Err(fault) => {
            let line = refusal(alloc, fault)?;
            *size = line.len();
            Ok(hand_over(&line, text, REFUSED))
        }
    }
}

/// Lists the marks of all pages of a DVI file with these fonts. The listing, or the line of the refusal, goes into `text`, and the number of its
/// bytes into `size`. The file is checked, its listing is counted, and where it fits it is written piece by piece: no more memory is taken for a
/// longer listing.
///
/// Returns ACCEPTED or REFUSED, and then both are written; BUFFER_TOO_SMALL, and then `size` alone is written;
/// OUT_OF_MEMORY or BAD_FONT_NAME, and then nothing is.
pub fn list(alloc: Global, dvi: &[u8], fonts: &[Font<'_>], text: &mut [u8], size: &mut usize) -> u32
    ensures named { RefusesNames fonts.now result }
    ensures done { Lists dvi.now fonts.now (text.old, text.new) size.new result }
    ensures text { KeepsUndone result text.old text.new }
    ensures size { KeepsUndone result size.old size.new }
{
    if !are_named(fonts) {
        return BAD_FONT_NAME;
    }
    match list_named(alloc, dvi, fonts, text, size) {
        Ok(status) => status,
        Err(AllocError) => OUT_OF_MEMORY,
    }
}

/// The options with these numbers, if they are in their ranges: the page 1 or more, the pixels an inch, width and height 1 to 10,000.
pub(crate) fn options_in_range(page: u32, dpi: u32, width: u32, height: u32) -> Option<PaintOptions>
    ensures { SomeIff result (IsTrue (is_in_range page dpi width height)) (options_of page dpi width height) }
{
    if dpi < 1 {
        return None;
    }
    PaintOptions::try_new(page, dpi, width, height)
}

/// The bitmap of a page of a DVI file with these fonts, which have names, or the line of the file's refusal.
fn bitmap_text(
    alloc: Global,
    dvi: &[u8],
    fonts: &[Font<'_>],
    options: PaintOptions,
) -> Result<Output, PaintFault>
    requires { are_named fonts.now ≡ true }
    ensures ok { IfOk result (λ output. IsPainted (files_of fonts.now) dvi.now options output.text.items output.accepted) }
    ensures missing { result ≡ Err NoSuchPage → LacksPage (files_of fonts.now) dvi.now options.page }
{
    let files = font_files(alloc, fonts)?;
    paint_text(alloc, dvi, &files, options)
}

/// Paints the rules of a page of a DVI file with these fonts. Pages are counted from 1. The bitmap as plain PBM, or the line of the refusal, goes
/// into `text`, and the number of its bytes into `size`.
///
/// Returns ACCEPTED or REFUSED, and then both are written; BUFFER_TOO_SMALL, and then `size` alone is written;
/// OUT_OF_MEMORY, BAD_FONT_NAME, OUT_OF_RANGE or NO_SUCH_PAGE, and then nothing is.
pub fn paint(
    alloc: Global,
    dvi: &[u8],
    fonts: &[Font<'_>],
    page: u32,
    dpi: u32,
    width: u32,
    height: u32,
    text: &mut [u8],
    size: &mut usize,
) -> u32
    ensures named { RefusesNames fonts.now result }
    ensures range { RefusesNumbers fonts.now page dpi width height result }
    ensures lacking { RefusesPage dvi.now fonts.now page result }
    ensures found { NoticesNoPage dvi.now fonts.now page dpi width height result }
    ensures done { Paints dvi.now fonts.now (options_of page dpi width height) (text.old, text.new) size.new result }
    ensures text { KeepsUnpainted result text.old text.new }
    ensures size { KeepsUnpainted result size.old size.new }
{
    if !are_named(fonts) {
        return BAD_FONT_NAME;
    }
    let Some(options) = options_in_range(page, dpi, width, height) else {
        return OUT_OF_RANGE;
    };
    match bitmap_text(alloc, dvi, fonts, options) {
        Ok(output) => {
            *size = output.text.len();
            hand_over(&output.text, text, file_status(output.accepted))
        }
        Err(PaintFault::OutOfMemory) => OUT_OF_MEMORY,
        Err(PaintFault::NoSuchPage) => NO_SUCH_PAGE,
    }
}
