//! The parts of a file that are found before the pages are read: its end, the places of its pages, its preamble (DVItype, 15 to 20).

ghost use Rattle.std.specs.Prelude.{IfErr, IfOk};
ghost use Rattle.dvi_read.specs.Opening.{IsFrontFault};
ghost use Rattle.dvi_read.specs.OpeningParts.{HasFront};

use crate::fault::DviFault;
use dvi_scan::{FileEnd, find_postamble, page_offsets, preamble};
use std::alloc::Global;

/// The parts of a file that are found before the pages are read.
#[derive(Drop)]
pub struct BeforePages {
    /// The places of the parts of the file, and the operands of post.
    pub ending: FileEnd,
    /// The places of the pages, the last one first.
    pub chain: Vec<usize>,
    /// The place after the preamble.
    pub from: usize,
}

/// Finds the end of a file, the places of its pages, and its preamble, in this order. It takes memory for the places.
pub fn find_front(alloc: Global, bytes: &[u8]) -> Result<BeforePages, DviFault<'_>>
    ensures ok { IfOk result (HasFront bytes.now) }
    ensures bad { IfErr result (IsFrontFault bytes.now) }
{
    let ending = find_postamble(bytes)?;
    let chain = page_offsets(alloc, bytes, &ending)?;
    let from = preamble(bytes, &ending)?;
    Ok(BeforePages {
        ending,
        chain,
        from,
    })
}
