//! Pages are written without a job.

ghost use Rattle.dvi_write.specs.Shippable.{IsShippable};

use dvi_write::{DviWriter, Fonts, Memory, Offsets, WriteFault};
use node_core::BoxNode;
use std::alloc::Global;

/// The DVI file of pages that show one box at these offsets, one for each of these counts. The box is at most 200 deep, and each of its glyphs has
/// the width that its font in `fonts` gives.
pub fn same_pages(
    alloc: Global,
    shown: &BoxNode,
    at: &Offsets,
    all_counts: &[[i32; 10]],
    fonts: &Fonts,
) -> Result<Memory, WriteFault>
    requires { IsShippable fonts.now shown.now }
{
    let mut writer = DviWriter::new(Memory::new(alloc));
    for counts in all_counts {
        let offsets = Offsets { h: at.h, v: at.v };
        writer.page(alloc, shown, offsets, counts, fonts)?; // sent
    }
    writer.finish(alloc, fonts)?; // Summary { pages, bytes }
    Ok(writer.into_device())
}
