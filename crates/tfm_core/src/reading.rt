//! A font in the bytes of a metric file.

ghost use Rattle.std.specs.Prelude.{◌≡◌, IfErr, IfOk};
ghost use Rattle.tfm_core.specs.FontReads.{IsFontIn, IsReadRefusal, of_size, of_tfm};
ghost use Rattle.tfm_core.specs.Fonts.{HasNumbers};

use crate::fault::{FontFault, TfmCause, TfmFault};
use crate::font::Font;
use crate::scaling::FontSize;
use crate::tfm::Tfm;
use std::alloc::Global;
use thiserror::Error;

/// Why bytes give no font at a size.
#[derive(Clone, Copy, Debug, PartialEq, Eq, Error)]
pub enum FontReadFault {
    /// Out of memory: an allocation was refused.
    #[error("out of memory")]
    OutOfMemory,
    /// The bytes break this rule of a metric file.
    #[error("{0}")]
    BadTfm(TfmCause),
    /// The absolute value of a width, height, depth, kern or size of the space is above 2^30 - 1 scaled points.
    #[error("a dimension of the font is too large")]
    DimensionTooLarge,
}

impl From<TfmFault> for FontReadFault {
    ghost from_gives = { λ fault refusal. refusal ≡ of_tfm fault };

    fn from(fault: TfmFault) -> FontReadFault {
        match fault {
            TfmFault::OutOfMemory => FontReadFault::OutOfMemory,
            TfmFault::Bad(cause) => FontReadFault::BadTfm(cause),
        }
    }
}

impl From<FontFault> for FontReadFault {
    ghost from_gives = { λ fault refusal. refusal ≡ of_size fault };

    fn from(fault: FontFault) -> FontReadFault {
        match fault {
            FontFault::DimensionTooLarge => FontReadFault::DimensionTooLarge,
            FontFault::OutOfMemory => FontReadFault::OutOfMemory,
        }
    }
}

impl Font {
    /// The font in the bytes of a metric file at this size, or at its design size if none is given (TFtoPL, 8 to 15; TeX: The Program, part 30).
    /// Allocates its tables.
    ///
    /// A fault gives its reason: the first broken rule of a metric file, or a dimension that does not fit. `OutOfMemory` is returned if an allocation
    /// is refused; the rules that need no table are tested before anything is allocated.
    #[tactic(auto, using(crate::proofs::FontReading::front_holds))]
    pub fn read(alloc: Global, bytes: &[u8], size: Option<FontSize>) -> Result<Font, FontReadFault>
        ensures ok { IfOk result (IsFontIn bytes.now size) }
        ensures numbers { IfOk result HasNumbers }
        ensures refused { IfErr result (IsReadRefusal bytes.now size) }
    {
        let tfm = Tfm::read(alloc, bytes)?;
        let font = Font::at_size(alloc, &tfm, size)?;
        Ok(font)
    }
}
