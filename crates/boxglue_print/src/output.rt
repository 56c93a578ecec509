//! The text for a DVI file that is refused, and the bitmap of one of its pages.

ghost use Rattle.std.specs.Prelude.{◌≡◌, ◌≢◌, ◌⊎◌, Err, IfOk, OnOk};
ghost use Rattle.dvi_ops.specs.File.{AreUnits};
ghost use Rattle.dvi_ops.specs.View.{units as units_of};
ghost use Rattle.dvi_scan.specs.View.{marked_page};
ghost use Rattle.boxglue_print.specs.Faults.{fault_line};
ghost use Rattle.boxglue_print.specs.declared.output.PaintFault.TheVariants.{OutOfMemory};
ghost use Rattle.boxglue_print.specs.Outputs.{IsPageBitmap, IsPainted, IsPainting, LacksPage};
ghost use Rattle.raster_core.specs.PixelGrids.{painted_grid, white};
ghost use Rattle.raster_core.specs.Pixels.{is_covered, scale_of};

use crate::faults::push_fault;
use dvi_ops::Units;
use dvi_read::{Dvi, DviFault};
use dvi_scan::Page;
use raster_core::{Bitmap, PaintOptions};
use std::alloc::{AllocError, Global};
use tfm_core::FontFile;
use thiserror::Error;

/// The text to print for a DVI file, and whether the file was accepted.
#[derive(Debug, Drop)]
pub struct Output {
    pub text: Vec<u8>,
    pub accepted: bool,
}

/// A page of a DVI file as a bitmap, or the text of the file's refusal.
#[derive(Debug, Drop)]
pub enum Painting {
    Painted(Bitmap),
    Refusal(Vec<u8>),
}

/// Why nothing is painted.
#[derive(Clone, Copy, Debug, PartialEq, Eq, Error)]
pub enum PaintFault {
    /// A growth of memory was refused.
    #[error("out of memory")]
    OutOfMemory,
    /// The file is accepted, but has no such page.
    #[error("no such page")]
    NoSuchPage,
}

impl From<AllocError> for PaintFault {
    ghost from_gives = { λ _ fault. fault ≡ OutOfMemory };

    fn from(_error: AllocError) -> PaintFault {
        PaintFault::OutOfMemory
    }
}

/// The text for a file that is refused. The result is an Err where memory was refused, here or before.
pub fn refusal(alloc: Global, fault: DviFault<'_>) -> Result<Vec<u8>, AllocError>
    ensures text { IfOk result (λ text. text.items ≡ fault_line fault.entry) }
    ensures other { OnOk result (fault.entry ≢ DviFault.OutOfMemory) }
{
    let mut text = Vec::new(alloc);
    push_fault(fault, &mut text)?;
    Ok(text)
}

/// The bitmap of a page.
fn painted_page(
    alloc: Global,
    page: &Page<'_>,
    units: Units,
    options: PaintOptions,
) -> Result<Bitmap, AllocError>
    requires { AreUnits (units_of units) }
    ensures { IfOk result (λ bitmap. bitmap
        ≡ painted_grid (is_covered (scale_of (units_of units) options.dpi) (marked_page page.now).marks) (white options.width options.height)) }
{
    let Ok(mut bitmap) = Bitmap::new(alloc, options.width(), options.height()) else {
        return Err(AllocError);
    };
    bitmap.paint(page, units, options.dpi());
    Ok(bitmap)
}

/// The bitmap of a page of a DVI file with these metric files, or the text of the file's refusal. Of its marks the rules of the page alone are kept.
/// The whole file is checked before NoSuchPage is returned, which is the fault exactly where it is accepted and has fewer pages, unless memory is
/// refused: then it is OutOfMemory.
pub fn page_bitmap(
    alloc: Global,
    dvi: &[u8],
    files: &[FontFile],
    options: PaintOptions,
) -> Result<Painting, PaintFault>
    ensures ok { IfOk result (IsPainting files.now dvi.now options) }
    ensures pixels { IfOk result (IsPageBitmap files.now dvi.now options) }
    ensures missing { result ≡ Err PaintFault.NoSuchPage → LacksPage files.now dvi.now options.page }
    ensures found { LacksPage files.now dvi.now options.page → (result ≡ Err PaintFault.NoSuchPage) ⊎ (result ≡ Err PaintFault.OutOfMemory) }
{
    let opened = match Dvi::open(alloc, dvi, files) {
        Ok(opened) => opened,
        Err(fault) => return Ok(Painting::Refusal(refusal(alloc, fault)?)),
    };
    let index = options.page() as usize - 1;
    if opened.pages() <= index {
        return Err(PaintFault::NoSuchPage);
    }
    let page = opened.page_rules(index)?;
    let bitmap = painted_page(alloc, &page, opened.units(), options)?;
    Ok(Painting::Painted(bitmap))
}

/// The text of the bitmap of a page of a DVI file, or the line of the file's refusal, as `page_bitmap`.
pub fn paint_text(
    alloc: Global,
    dvi: &[u8],
    files: &[FontFile],
    options: PaintOptions,
) -> Result<Output, PaintFault>
    ensures ok { IfOk result (λ output. IsPainted files.now dvi.now options output.text.items output.accepted) }
    ensures missing { result ≡ Err PaintFault.NoSuchPage → LacksPage files.now dvi.now options.page }
    ensures found { LacksPage files.now dvi.now options.page → (result ≡ Err PaintFault.NoSuchPage) ⊎ (result ≡ Err PaintFault.OutOfMemory) }
{
    let painting = page_bitmap(alloc, dvi, files, options)?;
    let bitmap = match painting {
        Painting::Painted(bitmap) => bitmap,
        Painting::Refusal(text) => {
            return Ok(Output {
                text,
                accepted: false,
            });
        }
    };
    let mut text = Vec::new(alloc);
    bitmap.write_pbm(&mut text)?;
    Ok(Output {
        text,
        accepted: true,
    })
}
