//! The widths of a font's characters, from the metric file of its name (DVItype, 18; TFtoPL, 11).

ghost use Rattle.std.specs.Prelude.{◌≡◌, Some, IfOk, IfErr};
ghost use Rattle.dvi_ops.specs.Fonts.{IsFontSize};
ghost use Rattle.dvi_scan.specs.Widths.{HasBytes};
ghost use Rattle.tfm_core.specs.FileWidths.{width_at, widths_by};
ghost use Rattle.tfm_core.specs.FontReads.{IsReadRefusal};
ghost use Rattle.tfm_core.specs.Rules.{metric_file};

use dvi_ops::FontDefinition;
use std::alloc::Global;
use tfm_core::{Font, FontReadFault, FontSize, TfmCause};
use thiserror::Error;

/// Why the files give a font no widths.
#[derive(Clone, Copy, Debug, PartialEq, Eq, Error)]
pub enum FontRefusal<'a> {
    /// No file with the font's name was given, and this is the name.
    #[error("there is no file of this font")]
    NoFont(&'a [u8]),
    /// The metric file of the font with this number breaks a rule.
    #[error("{cause}")]
    BadTfm { font: i32, cause: TfmCause },
    /// A dimension of the font with this number does not fit at its size.
    #[error("a dimension of the font is too large")]
    DimensionTooLarge { font: i32 },
}

/// The size of a definition.
fn size_of(font: &FontDefinition<'_>) -> Option<FontSize>
    requires { IsFontSize font.now.size }
    ensures { result ≡ Some font.now.size }
{
    FontSize::try_new(i64::from(font.size))
}

/// Reads the font of a definition from the bytes of its metric file, at the size of the definition. The area is ignored (own). It takes memory for
/// the font. The fault is BadTfm, DimensionTooLarge or OutOfMemory.
pub fn read_font(
    alloc: Global,
    bytes: &[u8],
    font: &FontDefinition<'_>,
) -> Result<Font, FontReadFault>
    requires { IsFontSize font.now.size }
    // The characters of the font have the widths that the bytes give.
    ensures ok { IfOk result (λ read. widths_by (metric_file bytes.now) font.now.size ≡ Some (width_at read)) }
    // The codes of its characters are bytes.
    ensures bytes { IfOk result HasBytes }
    // The reason that a fault gives holds for the bytes.
    ensures bad { IfErr result (IsReadRefusal bytes.now (Some font.now.size)) }
{
    Font::read(alloc, bytes, size_of(font))
}
