//! The units of a DVI file, and the fonts that it defines after its pages.

ghost use Rattle.std.specs.Prelude.{map, IfErr, IfOk};
ghost use Rattle.boxglue_print.specs.Fonts.{AreFontsPrinted, BreaksFonts, DefinesFonts};
ghost use Rattle.dvi_ops.specs.View.{definition, units as units_of};

use crate::font_lines::push_lines;
use crate::output::{Output, refusal};
use dvi_ops::{FontDefinition, Units};
use dvi_read::{BeforePages, DviFault, find_front};
use dvi_scan::{KnownFonts, read_trailing_definitions};
use std::alloc::{AllocError, Global};

/// The units of a DVI file, and the fonts that it defines after its pages, in order.
#[derive(Drop)]
pub struct DefinedFonts<'a> {
    pub units: Units,
    pub fonts: Vec<FontDefinition<'a>>,
}

/// Reads the units of a DVI file and the definitions after post. The end of the file, the chain of its pages and its preamble are checked, and the
/// pages are not read. It takes memory for the places of the pages and the definitions.
pub fn defined_fonts<'a>(alloc: Global, dvi: &'a [u8]) -> Result<DefinedFonts<'a>, DviFault<'a>>
    ensures ok { IfOk result (λ defined. DefinesFonts dvi.now (units_of defined.units) (map definition defined.fonts.items)) }
    ensures bad { IfErr result (BreaksFonts dvi.now) }
{
    let BeforePages { ending, .. } = find_front(alloc, dvi)?;
    let mut known = KnownFonts::new(alloc);
    read_trailing_definitions(dvi, ending.after, ending.last - 5, &mut known)?;
    Ok(DefinedFonts {
        units: ending.postamble.units,
        fonts: known.into_all(),
    })
}

/// The units of a DVI file and the fonts that it defines, a line each, or the line of its refusal. No metric file is needed, and the pages are not
/// read. The result is an Err where memory was refused.
pub fn fonts_text(alloc: Global, dvi: &[u8]) -> Result<Output, AllocError>
    ensures { IfOk result (λ output. AreFontsPrinted dvi.now output.text.items output.accepted) }
{
    let defined = match defined_fonts(alloc, dvi) {
        Ok(defined) => defined,
        Err(fault) => {
            let text = refusal(alloc, fault)?;
            return Ok(Output {
                text,
                accepted: false,
            });
        }
    };
    let mut text = Vec::new(alloc);
    push_lines(defined.units, &defined.fonts, &mut text)?;
    Ok(Output {
        text,
        accepted: true,
    })
}
