//! Reading a font of a job from its file.

ghost use Rattle.std.specs.Prelude.{◌≡◌, Some, IfOk};
ghost use Rattle.tfm_core.specs.Fonts.{HasNumbers};
ghost use Rattle.job_machine.specs.FontSlots.{font_of_slot};

use job_machine::Refusal;
use std::alloc::{AllocError, Global};
use tfm_core::{Font, FontFile, FontReadFault, FontSize};

/// The font that a font file gives at a size, or at its design size where none is given.
///
/// The inner result is the refusal of a bad file, or of a size at which a number of the font does not fit. The outer one is refused memory.
pub fn read_font(
    alloc: Global,
    file: &FontFile,
    size: Option<FontSize>,
) -> Result<Result<Font, Refusal>, AllocError>
    ensures value { IfOk result (λ read. read ≡ font_of_slot (Some file.now) size) }
    ensures numbers { IfOk result (λ read. IfOk read HasNumbers) }
{
    match Font::read(alloc, file.bytes(), size) {
        Ok(font) => Ok(Ok(font)),
        Err(FontReadFault::OutOfMemory) => Err(AllocError),
        Err(FontReadFault::BadTfm(cause)) => Ok(Err(Refusal::BadTfm(cause))),
        Err(FontReadFault::DimensionTooLarge) => Ok(Err(Refusal::DimensionTooLarge)),
    }
}
