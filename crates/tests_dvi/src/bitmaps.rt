//! Pages that are painted into bitmaps.

ghost use Rattle.std.specs.Prelude.{◌<◌};

use dvi_ops::Units;
use dvi_scan::{Mark, Page};
use raster_core::Bitmap;
use scaled_core::SizeFault;
use std::alloc::{AllocError, Global};
use std::process::Abort;
use std::test::Fail;

/// Units of one pixel each, at one dot per inch.
const PIXELS: Units = Units {
    num: 254_000,
    den: 1,
    mag: 1000,
};

/// A rule with its bottom left corner at (h, v).
fn rule(h: i32, v: i32, height: i32, width: i32) -> Mark<'static> {
    Mark::Rule {
        h,
        v,
        height,
        width,
    }
}

/// A page with these marks.
fn page<'a>(alloc: Global, marks: &[Mark<'a>]) -> Result<Page<'a>, AllocError> {
    Ok(Page {
        counts: [0; 10],
        marks: Vec::from_slice(alloc, marks)?,
    })
}

/// Paints a page with these marks.
fn paint(
    rt: &impl Abort,
    alloc: Global,
    bitmap: &mut Bitmap,
    units: Units,
    dpi: u32,
    marks: &[Mark],
) -> Result<(), AllocError> {
    assert!(rt; units.num > 0 && units.den > 0 && units.mag > 0 && dpi <= 10_000);
    bitmap.paint(&page(alloc, marks)?, units, dpi);
    Ok(())
}

#[test]
fn black_pixels_stay(rt: HostRuntime) -> Result<(), Fail> {
    let mut bitmap = Bitmap::new(rt.alloc(), 4, 2)?;
    let both = [rule(0, 0, 1, 1), rule(3, 1, 2, 1)];
    paint(&rt, rt.alloc(), &mut bitmap, PIXELS, 1, &both)?;
    paint(&rt, rt.alloc(), &mut bitmap, PIXELS, 1, &[])?;
    paint(&rt, rt.alloc(), &mut bitmap, PIXELS, 1, &[rule(1, 1, 1, 1)])?;
    let mut out = Vec::from_slice(rt.alloc(), b"held ")?;
    bitmap.write_pbm(&mut out)?;
    assert_eq!(rt; out.as_slice(), b"held P1\n4 2\n1001\n0101\n".as_slice());
    Ok(())
}

/// Whether column `x` of row `y` is expected to be black: in the first row all columns, in the second all from column 1 on, and in the third all
/// except the last.
fn is_in(width: u32, x: u32, y: u32) -> bool
    requires { x < width }
{
    match y {
        0 => true,
        1 => x > 0,
        _ => x + 1 < width,
    }
}

/// The text of a bitmap of these three rows, made digit by digit.
fn three_rows(alloc: Global, width: u32) -> Result<Vec<u8>, AllocError> {
    let header = format!(in alloc; "P1\n{width} 3\n")?;
    let mut text = Vec::from_slice(alloc, header.as_bytes())?;
    for y in 0..3u32 {
        for x in 0..width {
            text.push(if is_in(width, x, y) { b'1' } else { b'0' })?;
            if x % 70 == 69 || x == width - 1 {
                text.push(b'\n')?;
            }
        }
    }
    Ok(text)
}

/// Asserts the bitmap of three rules: one as wide as the bitmap, one from column 1 on, and one up to the last column but one.
fn expect_rows(rt: &impl Abort, alloc: Global, width: u32) -> Result<(), Fail> {
    assert!(rt; 0 < width && width <= 10_000);
    let wide = width as i32;
    let rules = [
        rule(0, 0, 1, wide),
        rule(1, 1, 1, wide),
        rule(0, 2, 1, wide - 1),
    ];
    let mut bitmap = Bitmap::new(alloc, width, 3)?;
    paint(rt, alloc, &mut bitmap, PIXELS, 1, &rules)?;
    let mut out = Vec::new(alloc);
    bitmap.write_pbm(&mut out)?;
    assert!(rt; out.as_slice() == three_rows(alloc, width)?.as_slice());
    Ok(())
}

#[test]
fn rows_of_every_width(rt: HostRuntime) -> Result<(), Fail> {
    for width in 1..201 {
        expect_rows(&rt, rt.alloc(), width)?;
    }
    // Rows of eight words or more, which are filled by lanes.
    for width in [511, 512, 513, 575, 640, 1024, 1089, 2550] {
        expect_rows(&rt, rt.alloc(), width)?;
    }
    Ok(())
}

#[test]
fn sizes_of_a_bitmap(rt: HostRuntime) -> Result<(), Fail> {
    for (width, height, refused) in [
        (0, 1, true),
        (1, 0, true),
        (10_001, 1, true),
        (1, 10_001, true),
        (u32::MAX, u32::MAX, true),
        (10_000, 1, false),
        (1, 10_000, false),
    ] {
        match Bitmap::new(rt.alloc(), width, height) {
            Ok(_) => assert!(rt; !refused),
            Err(SizeFault::DimensionTooLarge) => assert!(rt; refused),
            Err(fault) => return Err(fault.into()),
        }
    }
    Ok(())
}
