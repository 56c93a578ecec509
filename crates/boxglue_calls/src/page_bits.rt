//! The bitmap of a page of a DVI file, as bytes with eight pixels each.

ghost use Rattle.std.specs.Prelude.{◌≡◌, true, Err, IfOk};
ghost use Rattle.boxglue_calls.specs.Fonts.{are_named, files_of};
ghost use Rattle.boxglue_calls.specs.Pages.{IsPaintedInBits};
ghost use Rattle.boxglue_print.specs.Outputs.{LacksPage};
ghost use Rattle.boxglue_print.specs.declared.output.PaintFault.TheVariants.{NoSuchPage};
ghost use Rattle.raster_core.specs.PaintOptions.{options_of};
ghost use Rattle.boxglue_calls.specs.Calls.{KeepsUnpainted, NoticesNoPage, PaintsBits, RefusesNames, RefusesNumbers, RefusesPage};

use crate::given::{Font, are_named, font_files};
use crate::pages::{hand_over_output, options_in_range};
use crate::status::{BAD_FONT_NAME, NO_SUCH_PAGE, OUT_OF_MEMORY, OUT_OF_RANGE};
use boxglue_print::{Output, PaintFault, PaintOptions, Painting, page_bitmap};
use std::alloc::Global;

/// The bitmap of a page of a DVI file with these fonts, which have names, as bytes, or the line of the file's refusal.
fn bitmap_bits(
    alloc: Global,
    dvi: &[u8],
    fonts: &[Font<'_>],
    options: PaintOptions,
) -> Result<Output, PaintFault>
    requires { are_named fonts.now ≡ true }
    ensures ok { IfOk result (λ output. IsPaintedInBits (files_of fonts.now) dvi.now options output.text.items output.accepted) }
    ensures missing { result ≡ Err NoSuchPage → LacksPage (files_of fonts.now) dvi.now options.page }
{
    let files = font_files(alloc, fonts)?;
    let painting = page_bitmap(alloc, dvi, &files, options)?;
    let bitmap = match painting {
        Painting::Painted(bitmap) => bitmap,
        Painting::Refusal(text) => {
            return Ok(Output {
                text,
                accepted: false,
            });
        }
    };
    let text = bitmap.pixel_bytes(alloc)?;
    Ok(Output {
        text,
        accepted: true,
    })
}

/// Paints the rules of a page of a DVI file with these fonts, as `paint`. The bitmap as bytes, or the line of the refusal, goes into `bits`, and the
/// number of its bytes into `size`. A byte has eight pixels of a row, the leftmost in the highest bit, 1 for black; a row is filled up to a whole
/// byte with 0.
///
/// Returns what `paint` does.
pub fn paint_bits(
    alloc: Global,
    dvi: &[u8],
    fonts: &[Font<'_>],
    page: u32,
    dpi: u32,
    width: u32,
    height: u32,
    bits: &mut [u8],
    size: &mut usize,
) -> u32
    ensures named { RefusesNames fonts.now result }
    ensures range { RefusesNumbers fonts.now page dpi width height result }
    ensures lacking { RefusesPage dvi.now fonts.now page result }
    ensures found { NoticesNoPage dvi.now fonts.now page dpi width height result }
    ensures done { PaintsBits dvi.now fonts.now (options_of page dpi width height) (bits.old, bits.new) size.new result }
    ensures bits { KeepsUnpainted result bits.old bits.new }
    ensures size { KeepsUnpainted result size.old size.new }
{
    if !are_named(fonts) {
        return BAD_FONT_NAME;
    }
    let Some(options) = options_in_range(page, dpi, width, height) else {
        return OUT_OF_RANGE;
    };
    match bitmap_bits(alloc, dvi, fonts, options) {
        Ok(output) => hand_over_output(&output, bits, size),
        Err(PaintFault::OutOfMemory) => OUT_OF_MEMORY,
        Err(PaintFault::NoSuchPage) => NO_SUCH_PAGE,
    }
}
