//! A file is listed, and its first page painted.

use dvi_read::{Dvi, DviFault};
use raster_core::Bitmap;
use std::alloc::{AllocError, Global};
use tfm_core::FontFile;

/// The first page of a file as a bitmap of 850 by 1,100 pixels, white if the file has no page.
fn first_page(alloc: Global, dvi: &Dvi) -> Result<Bitmap, AllocError> {
    let Ok(mut bitmap) = Bitmap::new(alloc, 850, 1100) else {
        return Err(AllocError); // the size is in range, so memory was refused
    };
    if dvi.pages() > 0 {
        let page = dvi.page(0)?; // it is read again, from its place
        bitmap.paint(&page, dvi.units(), 100);
    }
    Ok(bitmap)
}

/// The listing of a DVI file, and its first page in plain PBM.
pub fn listing_and_pbm<'a>(
    alloc: Global,
    bytes: &'a [u8],
    files: &[FontFile],
) -> Result<(Vec<u8>, Vec<u8>), DviFault<'a>> {
    let dvi = Dvi::open(alloc, bytes, files)?; // the whole file is checked
    let bitmap = first_page(alloc, &dvi)?;
    let mut text = Vec::new(alloc);
    let mut pbm = Vec::new(alloc);
    dvi.listing(&mut text)?;
    bitmap.write_pbm(&mut pbm)?;
    Ok((text, pbm))
}
