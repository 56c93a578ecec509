//! The lines of refusals.

ghost use Rattle.std.specs.Prelude.{◌≡◌, ◌≢◌, ◌++◌, OnOk};
ghost use Rattle.boxglue_print.specs.Faults.{bad_line, dvi_cause_name, fault_line};

use boxglue_program::{push_number, push_refusal_line, push_text};
use dvi_read::DviFault;
use dvi_scan::{BadDvi, DviCause, FontRefusal};
use job_machine::Refusal;
use std::alloc::AllocError;

/// The name of a rule of a DVI file.
fn dvi_cause_name(cause: DviCause) -> &'static str
    ensures { result.now ≡ dvi_cause_name cause }
{
    match cause {
        DviCause::Trailer => "Trailer",
        DviCause::Version => "Version",
        DviCause::Opcode => "Opcode",
        DviCause::Pointer => "Pointer",
        DviCause::Count => "Count",
        DviCause::Preamble => "Preamble",
        DviCause::Truncated => "Truncated",
        DviCause::Stack => "Stack",
        DviCause::Font => "Font",
        DviCause::Glyph => "Glyph",
        DviCause::Range => "Range",
    }
}

/// Appends the line of a broken rule.
#[tactic(auto, unfolding(crate::specs::Faults::bad_line))]
fn push_bad(bad: &BadDvi, out: &mut Vec<u8>) -> Result<(), AllocError>
    ensures { OnOk result (out.new.items ≡ out.old.items ++ bad_line bad.now) }
{
    push_text("refused 20 BadDvi ", out)?;
    push_number(bad.place as u64, out)?;
    push_text(" ", out)?;
    push_text(dvi_cause_name(bad.cause), out)?;
    push_text("\n", out)
}

/// Appends the line of a file's refusal. Those that a job has too have its numbers and names. The error is a refused growth, here or before.
#[tactic(auto, unfolding(crate::specs::Faults::fault_line))]
pub(crate) fn push_fault(fault: DviFault<'_>, out: &mut Vec<u8>) -> Result<(), AllocError>
    ensures line { OnOk result (out.new.items ≡ out.old.items ++ fault_line fault.entry) }
    ensures other { OnOk result (fault.entry ≢ DviFault.OutOfMemory) }
{
    match fault {
        DviFault::OutOfMemory => Err(AllocError),
        DviFault::Font(FontRefusal::DimensionTooLarge { .. }) => {
            push_refusal_line(Refusal::DimensionTooLarge, out)
        }
        DviFault::Font(FontRefusal::NoFont(_)) => push_refusal_line(Refusal::NoFont, out),
        DviFault::Font(FontRefusal::BadTfm { cause, .. }) => {
            push_refusal_line(Refusal::BadTfm(cause), out)
        }
        DviFault::Bad(bad) => push_bad(&bad, out),
    }
}
