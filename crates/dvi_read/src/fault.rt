//! Why a DVI file is refused.

ghost use Rattle.std.specs.Prelude.{◌≡◌};
ghost use Rattle.dvi_read.specs.Faults.{fault_in, of_frame};
ghost use Rattle.dvi_read.specs.Private.Faults.{of_read};

pub(crate) mod laws;

use dvi_ops::OpFault;
use dvi_scan::{BadDvi, DviCause, FontRefusal, FrameFault, PassFault};
pub use laws::{no_fault_is_in_a_file, no_walk_fault_is_in_a_file, pointers_are_wrong};
use std::alloc::AllocError;
use tfm_core::FontReadFault;
use thiserror::Error;

/// Why the walk over all pages does not accept an instruction.
#[derive(Clone, Copy, Debug, PartialEq, Eq, Error)]
pub enum StepFault<'a> {
    /// The instruction breaks a rule of the pass, of the chain of pages or of font definitions, or a growth of memory was refused.
    #[error("{0}")]
    Pass(PassFault),
    /// The instruction selects a font that has no widths.
    #[error("{0}")]
    Font(FontRefusal<'a>),
}

/// Why a DVI file is not opened.
#[derive(Clone, Copy, Debug, PartialEq, Eq, Error)]
pub enum DviFault<'a> {
    /// A growth of memory was refused.
    #[error("out of memory")]
    OutOfMemory,
    /// The bytes break this rule.
    #[error("{0}")]
    Bad(BadDvi),
    /// A selected font has no widths: no metric file with the name in its first definition was given, or this file is bad, or a dimension at its size
    /// does not fit.
    #[error("{0}")]
    Font(FontRefusal<'a>),
}

impl From<AllocError> for StepFault<'_> {
    ghost use Rattle.dvi_read.specs.declared.fault.StepFault.TheVariants.{Pass};
    ghost use Rattle.dvi_scan.specs.declared.executing.PassFault.TheVariants.{OutOfMemory};

    ghost from_gives = { λ _ fault. fault ≡ Pass OutOfMemory };

    fn from(_error: AllocError) -> Self {
        StepFault::Pass(PassFault::OutOfMemory)
    }
}

impl From<OpFault> for StepFault<'_> {
    ghost use Rattle.dvi_read.specs.declared.fault.StepFault.TheVariants.{Pass};
    ghost use Rattle.dvi_scan.specs.Ends.{cause_of};
    ghost use Rattle.dvi_scan.specs.declared.executing.PassFault.TheVariants.{Broken};

    ghost from_gives = { λ op fault. fault ≡ Pass (Broken (cause_of op)) };

    fn from(fault: OpFault) -> Self {
        StepFault::Pass(PassFault::Broken(DviCause::from(fault)))
    }
}

impl From<PassFault> for StepFault<'_> {
    ghost use Rattle.dvi_read.specs.declared.fault.StepFault.TheVariants.{Pass};

    ghost from_gives = { λ pass fault. fault ≡ Pass pass };

    fn from(fault: PassFault) -> Self {
        StepFault::Pass(fault)
    }
}

impl<'a> From<FontRefusal<'a>> for StepFault<'a> {
    ghost use Rattle.dvi_read.specs.declared.fault.StepFault.TheVariants.{Font};

    ghost from_gives = { λ refusal fault. fault ≡ Font refusal };

    fn from(refusal: FontRefusal<'a>) -> StepFault<'a> {
        StepFault::Font(refusal)
    }
}

impl<'a> StepFault<'a> {
    /// The fault of the font with this number, which was not read.
    pub(crate) fn of_read(font: i32, fault: FontReadFault) -> StepFault<'a>
        ensures { result ≡ of_read font fault }
    {
        match fault {
            FontReadFault::OutOfMemory => StepFault::Pass(PassFault::OutOfMemory),
            FontReadFault::BadTfm(cause) => StepFault::Font(FontRefusal::BadTfm { font, cause }),
            FontReadFault::DimensionTooLarge => {
                StepFault::Font(FontRefusal::DimensionTooLarge { font })
            }
        }
    }

    /// The fault of the instruction at a place.
    pub fn at(self, place: usize) -> DviFault<'a>
        ensures { result ≡ fault_in place self.entry }
    {
        match self {
            StepFault::Pass(fault) => DviFault::from(fault.at(place)),
            StepFault::Font(refusal) => DviFault::Font(refusal),
        }
    }
}

impl From<AllocError> for DviFault<'_> {
    ghost use Rattle.dvi_read.specs.declared.fault.DviFault.TheVariants.{OutOfMemory};

    ghost from_gives = { λ _ fault. fault ≡ OutOfMemory };

    fn from(_error: AllocError) -> Self {
        DviFault::OutOfMemory
    }
}

impl From<BadDvi> for DviFault<'_> {
    ghost use Rattle.dvi_read.specs.declared.fault.DviFault.TheVariants.{Bad};

    ghost from_gives = { λ bad fault. fault ≡ Bad bad };

    fn from(bad: BadDvi) -> Self {
        DviFault::Bad(bad)
    }
}

impl From<FrameFault> for DviFault<'_> {
    ghost from_gives = { λ frame fault. fault ≡ of_frame frame };

    fn from(fault: FrameFault) -> Self {
        match fault {
            FrameFault::OutOfMemory => DviFault::OutOfMemory,
            FrameFault::Bad(bad) => DviFault::Bad(bad),
        }
    }
}
