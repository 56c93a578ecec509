//! Why a DVI file or a metric file is refused, in numbers.

ghost use Rattle.std.specs.Prelude.{◌≡◌};
ghost use Rattle.boxglue_calls.specs.FileFaults.{dvi_cause, fault_numbers, missing_name, no_fault, refusal_fault};

use crate::jobs::refusal_cause;
use boxglue_print::DviFault;
use boxglue_program::refusal_row;
use dvi_scan::{DviCause, FontRefusal};
use job_core::Refusal;

/// Why a file is refused. What its refusal does not have is 0.
#[repr(C)]
#[derive(Clone, Copy, Debug, PartialEq, Eq)]
pub struct Fault {
    /// The number of the refusal; 0 for none.
    pub number: u32,
    /// Why a metric file is refused, 1 to 6; or the rule that a DVI file breaks, 1 to 11.
    pub cause: u32,
    /// The number by which a DVI file means the font whose metric file is refused.
    pub font: i32,
    /// Where a DVI file breaks a rule: the number of bytes before that place.
    pub place: u64,
    /// How many bytes the name of a missing font has.
    pub name_size: usize,
}

/// The number of the refusal of a DVI file that breaks a rule.
const BAD_DVI: u32 = 20;

/// No refusal.
pub(crate) fn no_fault() -> Fault
    ensures { result ≡ no_fault }
{
    Fault {
        number: 0,
        cause: 0,
        font: 0,
        place: 0,
        name_size: 0,
    }
}

/// A refusal that a job has too.
pub(crate) fn refusal_fault(refusal: Refusal) -> Fault
    ensures { result ≡ refusal_fault refusal }
{
    Fault {
        number: refusal_row(refusal).0,
        cause: refusal_cause(refusal),
        ..no_fault()
    }
}

/// The number of a rule of a DVI file.
fn dvi_cause(cause: DviCause) -> u32
    ensures { result ≡ dvi_cause cause }
{
    match cause {
        DviCause::Trailer => 1,
        DviCause::Version => 2,
        DviCause::Opcode => 3,
        DviCause::Pointer => 4,
        DviCause::Count => 5,
        DviCause::Preamble => 6,
        DviCause::Truncated => 7,
        DviCause::Stack => 8,
        DviCause::Font => 9,
        DviCause::Glyph => 10,
        DviCause::Range => 11,
    }
}

/// The numbers of a DVI file's fault.
pub(crate) fn fault_numbers(fault: DviFault<'_>) -> Fault
    ensures { result ≡ fault_numbers fault.entry }
{
    match fault {
        DviFault::OutOfMemory => refusal_fault(Refusal::OutOfMemory),
        DviFault::Bad(bad) => Fault {
            number: BAD_DVI,
            cause: dvi_cause(bad.cause),
            place: bad.place as u64,
            ..no_fault()
        },
        DviFault::Font(FontRefusal::NoFont(name)) => Fault {
            name_size: name.len(),
            ..refusal_fault(Refusal::NoFont)
        },
        DviFault::Font(FontRefusal::BadTfm { font, cause }) => Fault {
            font,
            ..refusal_fault(Refusal::BadTfm(cause))
        },
        DviFault::Font(FontRefusal::DimensionTooLarge { font }) => Fault {
            font,
            ..refusal_fault(Refusal::DimensionTooLarge)
        },
    }
}

/// The name of the font that is missing; empty for another fault.
pub(crate) fn missing_name<'a>(fault: DviFault<'a>) -> &'a [u8]
    ensures { result.now ≡ missing_name fault.entry }
{
    match fault {
        DviFault::Font(FontRefusal::NoFont(name)) => name,
        _ => b"",
    }
}
