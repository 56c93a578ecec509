//! The fonts that a DVI file defines after its pages.

ghost use Rattle.std.specs.Prelude.{◌≡◌, ◌++◌, ◌∷◌, ℕ, List, [], length, map, true, IfOk, OnOk};
ghost use Rattle.boxglue_calls.specs.FontTables.{IsFontTable, names_of, row_at, rows_from};
ghost use Rattle.boxglue_print.specs.Fonts.{BreaksFonts};
ghost use Rattle.dvi_ops.specs.View.{definition};
ghost use Rattle.boxglue_calls.specs.Calls.{KeepsUnread, ReadsFonts};

use crate::buffers::hand_over_both;
use crate::pages::file_status;
use crate::status::OUT_OF_MEMORY;
use boxglue_print::{DviFault, defined_fonts, refusal};
use dvi_ops::FontDefinition;
use std::alloc::{AllocError, Global};

/// A font that a DVI file defines.
#[repr(C)]
#[derive(Clone, Copy, Debug, PartialEq, Eq)]
pub struct DviFont {
    /// The number by which pages select it.
    pub number: i32,
    /// The size at which it is used, in DVI units: 1 to 2^27 - 1.
    pub size: i32,
    /// Its design size in DVI units, as the file gives it.
    pub design_size: i32,
    /// The check sum of its metric file, as the file gives it: four bytes, the highest first.
    pub check_sum: u32,
    /// Where its name begins among the names.
    pub name_start: usize,
    /// How many bytes its name has.
    pub name_size: usize,
}

/// How many fonts and how many bytes of text a call has written.
#[repr(C)]
#[derive(Clone, Copy, Debug, PartialEq, Eq)]
pub struct FontSizes {
    pub fonts: usize,
    pub text: usize,
}

/// The fonts of a file and their names, or no fonts and the line of the file's refusal.
#[derive(Drop)]
struct FontTable {
    fonts: Vec<DviFont>,
    text: Vec<u8>,
    accepted: bool,
}

/// Appends the row of a font, and its name.
fn push_row(
    font: &FontDefinition<'_>,
    fonts: &mut Vec<DviFont>,
    text: &mut Vec<u8>,
) -> Result<(), AllocError>
    ensures fonts { OnOk result (fonts.new.items ≡ fonts.old.items ++ row_at (length text.old.items) (definition font.now) ∷ []) }
    ensures text { OnOk result (text.new.items ≡ text.old.items ++ font.now.name.now) }
{
    fonts.push(DviFont {
        number: font.number,
        size: font.size,
        design_size: font.design_size,
        check_sum: font.check_sum.cast_unsigned(),
        name_start: text.len(),
        name_size: font.name.len(),
    })?;
    text.extend_from_slice(font.name)
}

/// The rows of fonts, and their names.
fn table_of(alloc: Global, definitions: &[FontDefinition<'_>]) -> Result<FontTable, AllocError>
    ensures fonts { IfOk result (λ table. table.fonts.items ≡ rows_from 0 (map definition definitions.now)) }
    ensures text { IfOk result (λ table. table.text.items ≡ names_of (map definition definitions.now)) }
    ensures accepted { IfOk result (λ table. table.accepted ≡ true) }
{
    let mut fonts = Vec::new(alloc);
    let mut text = Vec::new(alloc);
    for font in definitions {
        push_row(font, &mut fonts, &mut text)?;
    }
    Ok(FontTable {
        fonts,
        text,
        accepted: true,
    })
}

/// The table of a file that is refused.
fn refused_table(alloc: Global, fault: DviFault<'_>) -> Result<FontTable, AllocError>
    ensures { IfOk result (λ table. (bytes : List ℕ) → BreaksFonts bytes fault.entry
        → IsFontTable bytes table.fonts.items table.text.items table.accepted) }
{
    let text = refusal(alloc, fault)?;
    Ok(FontTable {
        fonts: Vec::new(alloc),
        text,
        accepted: false,
    })
}

/// The table of a file.
fn font_table(alloc: Global, dvi: &[u8]) -> Result<FontTable, AllocError>
    ensures { IfOk result (λ table. IsFontTable dvi.now table.fonts.items table.text.items table.accepted) }
{
    match defined_fonts(alloc, dvi) {
        Ok(defined) => table_of(alloc, &defined.fonts),
        Err(fault) => refused_table(alloc, fault),
    }
}

/// Reads the fonts that a DVI file defines after its pages, where each font that a page selects is defined. They go into `fonts`, their names one
/// after the other into `text`, and the numbers of both into `sizes`. The end of the file, the chain of its pages and its preamble are checked, and
/// the pages are not read.
///
/// Returns ACCEPTED, and then all are written; REFUSED, and then there are no fonts, and the text is the line of the refusal; BUFFER_TOO_SMALL, and
/// then `sizes` alone is written; or OUT_OF_MEMORY, and then nothing is.
pub fn fonts(
    alloc: Global,
    dvi: &[u8],
    fonts: &mut [DviFont],
    text: &mut [u8],
    sizes: &mut FontSizes,
) -> u32
    ensures done { ReadsFonts dvi.now (fonts.old, fonts.new) (text.old, text.new) sizes.new result }
    ensures fonts { KeepsUnread result fonts.old fonts.new }
    ensures text { KeepsUnread result text.old text.new }
    ensures sizes { KeepsUnread result sizes.old sizes.new }
{
    match font_table(alloc, dvi) {
        Ok(table) => {
            *sizes = FontSizes {
                fonts: table.fonts.len(),
                text: table.text.len(),
            };
            hand_over_both(
                &table.fonts,
                fonts,
                &table.text,
                text,
                file_status(table.accepted),
            )
        }
        Err(AllocError) => OUT_OF_MEMORY,
    }
}
