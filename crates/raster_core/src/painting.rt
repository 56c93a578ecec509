//! A bitmap, and painting the rules of a page.

ghost use Rattle.std.specs.Prelude.{◌≡◌, ◌+◌, ◌*◌, ◌^◌, ◌<◌, ◌≤◌, ◌&&◌, ◌||◌, ℕ, length, map, if◌then◌else◌, IsTrue, IfOk, IfErr, OnOk, OnErr, ◌++◌};
ghost use Rattle.dvi_ops.specs.File.{AreUnits};
ghost use Rattle.dvi_ops.specs.View.{units as units_of};
ghost use Rattle.dvi_scan.specs.View.{mark_of, marked_page};
ghost use Rattle.raster_core.specs.Words.{AreFull, in_rows};
ghost use Rattle.raster_core.specs.Pixels.{covers, is_covered, scale_of};
ghost use Rattle.raster_core.specs.PixelGrids.{is_size, painted_grid, white};
ghost use Rattle.raster_core.specs.PlainText.{header_text, pbm, rows_text};
ghost use Rattle.raster_core.specs.PackedRows.{packed_rows, pixel_bytes};
ghost use Rattle.raster_core.specs.Private.PackedRows.{pixel};
ghost use Rattle.raster_core.specs.TextLeft.{pbm_text_left};

use crate::packing::packed_rows;
use crate::pixels::Scale;
use crate::printing::append_text;
use crate::rows::Rows;
use crate::text::PbmText;
use crate::word_rows::blacken;
use dvi_ops::Units;
use dvi_scan::{Mark, Page};
use scaled_core::SizeFault;
use std::alloc::{AllocError, Global};
use std::boxed::BoxedSlice;
use std::marker::Model;

/// A bitmap of black and white pixels, with memory for the mask of one row, and for one bit for each word. Its memory is taken once, since no call of
/// a boxed slice lets it grow.
#[derive(Debug, Drop)]
pub struct Bitmap {
    width: usize,
    height: usize,
    words: BoxedSlice<u64>,
    mask: BoxedSlice<u64>,
    full: BoxedSlice<u64>,
}

impl Model for Bitmap {
    ghost use Rattle.raster_core.specs.PixelGrids.{PixelGrid};

    ghost Value = { PixelGrid };

    ghost use Rattle.raster_core.specs.Private.Bitmaps.{IsBitmap, pixels_of};

    ghost view = { pixels_of };

    ghost invariant = { IsBitmap };
}

impl Bitmap {
    /// Makes a white bitmap with this number of columns and rows, 1 to 10,000 each. The fault is DimensionTooLarge for another size, and OutOfMemory
    /// otherwise. It takes all memory that painting needs.
    pub fn new(alloc: Global, width: u32, height: u32) -> Result<Bitmap, SizeFault>
        ensures ok { IfOk result (λ bitmap. bitmap ≡ white width height) }
        ensures fits { OnOk result (IsTrue (is_size width && is_size height)) }
        ensures fault { IfErr result (λ fault. fault
            ≡ (if is_size width && is_size height then SizeFault.OutOfMemory else SizeFault.DimensionTooLarge)) }
    {
        if width < 1 || width > 10_000 || height < 1 || height > 10_000 {
            return Err(SizeFault::DimensionTooLarge);
        }
        Ok(white(alloc, width as usize, height as usize)?)
    }

    /// Makes the pixels black that the rules of a page cover, for positive units and at most 10,000 pixels an inch. The first pixel of the first row
    /// is that of the page's origin, columns go to the right and rows down, and what is outside of the bitmap is cut off. The bottom left corner of a
    /// rule is rounded to the nearest pixel, halves away from zero, and its sizes are rounded up (DVItype, pixel_round and rule_pixels). Glyphs and
    /// specials are not painted. It takes no memory. Its time is that of the rows that the rules touch, and of the words that they make black.
    pub fn paint(&mut self, page: &Page<'_>, units: Units, dpi: u32)
        requires units { AreUnits (units_of units) }
        requires dpi { dpi ≤ 10000 }
        ensures { self.new ≡ painted_grid (is_covered (scale_of (units_of units) dpi) (marked_page page.now).marks) self.old }
    {
        let scale = Scale::new(units, dpi);
        let window = Window {
            scale,
            width: self.width,
            height: self.height,
        };
        paint_marks(
            &mut self.words,
            &mut self.mask,
            &mut self.full,
            &window,
            &page.marks,
        );
    }

    /// Appends the text of the bitmap, a plain PBM file: `P1`, the width and the height, and the rows from the top, 1 for black and 0 for white, in
    /// lines of at most 70 digits (Netpbm, plain PBM). Where memory is refused, `out` is unchanged.
    pub fn write_pbm(&self, out: &mut Vec<u8>) -> Result<(), AllocError>
        ensures ok { OnOk result (out.new.items ≡ out.old.items ++ pbm self.now) }
        ensures err { OnErr result (out.new.items ≡ out.old.items) }
    {
        append_text(out, self.rows())
    }

    /// The text of the bitmap, the same as `write_pbm` appends, to be taken in pieces. It takes no memory.
    pub fn text(&self) -> PbmText<'_>
        ensures { pbm_text_left result ≡ pbm self.now }
    {
        PbmText::new(self.rows())
    }

    /// The pixels of the bitmap as bytes, in rows from the top: eight pixels in each byte, the leftmost in the highest bit, 1 for black. A row is
    /// filled up to a whole byte with 0 (Netpbm, the raster of raw PBM).
    pub fn pixel_bytes(&self, alloc: Global) -> Result<Vec<u8>, AllocError>
        ensures { IfOk result (λ bytes. bytes.items ≡ pixel_bytes self.now) }
    {
        packed_rows(alloc, self.rows())
    }

    /// The rows.
    fn rows(&self) -> Rows<'_>
        ensures text { header_text result.width result.height ++ rows_text result.width result.height (in_rows result.words.now result.stride)
            ≡ pbm self.now }
        ensures bytes { packed_rows result.width result.height (λ x y. pixel result.width (in_rows result.words.now result.stride) y x)
            ≡ pixel_bytes self.now }
    {
        Rows {
            words: &self.words,
            stride: self.mask.len(),
            width: self.width,
            height: self.height,
        }
    }
}

/// A white bitmap of that size.
fn white(alloc: Global, width: usize, height: usize) -> Result<Bitmap, AllocError>
    requires width { (1 ≤ width) × (width ≤ 10000) }
    requires height { (1 ≤ height) × (height ≤ 10000) }
    ensures { IfOk result (λ bitmap. bitmap ≡ white width height) }
{
    let stride = width.div_ceil(64);
    let words = vec![in alloc; 0; height * stride]?.into_boxed_slice();
    let mask = vec![in alloc; 0; stride]?.into_boxed_slice();
    let full = vec![in alloc; 0; height * 3]?.into_boxed_slice();
    Ok(Bitmap {
        width,
        height,
        words,
        mask,
        full,
    })
}

/// The part of a page that a bitmap shows: the scale of its pixels, and the number of columns and rows.
#[derive(Clone, Copy, Debug)]
struct Window {
    scale: Scale,
    width: usize,
    height: usize,
}

/// Paints a mark into the pixels of a bitmap that shows this part of a page. A bit of `full` is 1 only where a word is black.
fn paint_mark(
    words: &mut [u64],
    mask: &mut [u64],
    full: &mut [u64],
    window: &Window,
    mark: Mark<'_>,
)
    requires columns { window.now.width ≤ 64 * length mask.old }
    requires rows { window.now.height * length mask.old ≤ length words.old }
    requires mask_bounded { length mask.old ≤ 157 }
    requires full_rows { window.now.height * 3 ≤ length full.old }
    requires full { AreFull full.old words.old (length mask.old) }
    ensures full { AreFull full.new words.new (length mask.old) }
    ensures pixels { (x y : ℕ) → x < window.now.width → y < window.now.height
        → in_rows words.new (length mask.old) x y ≡ (in_rows words.old (length mask.old) x y || covers window.now.scale (mark_of mark.entry) x y) }
{
    if let Mark::Rule {
        h,
        v,
        height: high,
        width: wide,
    } = mark
    {
        let columns = window.scale.columns(h, wide, window.width);
        let rows = window.scale.rows(v, high, window.height);
        blacken(words, mask, full, columns, rows);
    }
}

/// Paints marks in order. It writes to slices only, so it cannot take memory. The bits of `full` are cleared first, since the caller may have changed
/// the pixels.
fn paint_marks(
    words: &mut [u64],
    mask: &mut [u64],
    full: &mut [u64],
    window: &Window,
    marks: &[Mark<'_>],
)
    requires columns { window.now.width ≤ 64 * length mask.old }
    requires rows { window.now.height * length mask.old ≤ length words.old }
    requires mask_bounded { length mask.old ≤ 157 }
    requires full_rows { window.now.height * 3 ≤ length full.old }
    ensures { (x y : ℕ) → x < window.now.width → y < window.now.height
        → in_rows words.new (length mask.old) x y
        ≡ (in_rows words.old (length mask.old) x y || is_covered window.now.scale (map mark_of marks.now) x y) }
{
    full.fill(0);
    for mark in marks {
        paint_mark(words, mask, full, window, *mark);
    }
}
