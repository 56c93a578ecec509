//! Adding a definition to the known ones (DVItype, 18).

ghost use Rattle.std.specs.Prelude.{◌≡◌, ◌++◌, ◌∷◌, [], false, true, IfErr, OnErr, OnOk};
ghost use Rattle.dvi_ops.specs.Fonts.{IsRightAfter, IsFontSize};
ghost use Rattle.dvi_ops.specs.Instruction.{Do, FontDef};
ghost use Rattle.dvi_ops.specs.View.{definition};
ghost use Rattle.dvi_scan.specs.Closing.{IsDefinitionFault};

use crate::definitions::KnownFonts;
use crate::{DviCause, PassFault};
use dvi_ops::FontDefinition;
use tfm_core::FontSize;

/// Whether the size of a font is 1 to 2^27 - 1.
fn has_size(font: &FontDefinition<'_>) -> bool
    ensures yes { result ≡ true → IsFontSize font.now.size }
    ensures no { result ≡ false → IsFontSize font.now.size → ⊥ }
{
    FontSize::try_new(i64::from(font.size)).is_some()
}

/// Adds a definition after the known ones. The fault is Font where its size is out of range, or where another one of its number differs (DVItype,
/// 18); or OutOfMemory. It takes memory for the definition.
pub fn define<'a>(known: &mut KnownFonts<'a>, font: &FontDefinition<'a>) -> Result<(), PassFault>
    ensures ok { OnOk result (known.new ≡ known.old ++ definition font.now ∷ []) }
    // The definition was right.
    ensures right { OnOk result (IsRightAfter known.old (Do (FontDef (definition font.now)))) }
    ensures err { OnErr result (known.new ≡ known.old) }
    // The fault is Font, and the definition was wrong; or it was right, and memory was refused.
    ensures bad { IfErr result (IsDefinitionFault known.old (definition font.now)) }
{
    if !has_size(font) {
        return Err(PassFault::Broken(DviCause::Font));
    }
    if !known.agrees(font) {
        return Err(PassFault::Broken(DviCause::Font));
    }
    known.push(font)?;
    Ok(())
}
