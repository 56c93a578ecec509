//! The texts of refusals: the number and the name of each, for answers to commands and for DVI files.

ghost use Rattle.std.specs.Prelude.{◌≡◌, ◌≤◌, ◌+◌, ◌++◌, decimal, length, take, OnOk, OnErr, vec_capacity, vec_len};
ghost use Rattle.scaled_core.specs.Spaces.{TakesSpace};
ghost use Rattle.boxglue_program.specs.Texts.{refusal_row, metric_refusal_name, refusal_text, refusal_line};

use itoa::Buffer;
use job_core::{Refusal, TfmCause};
use std::alloc::AllocError;

/// The name of the refusal of a metric file, with its cause.
fn metric_refusal_name(cause: TfmCause) -> &'static str
    ensures { result.now ≡ metric_refusal_name cause }
{
    match cause {
        TfmCause::TooShort => "BadTfm TooShort",
        TfmCause::Counts => "BadTfm Counts",
        TfmCause::DesignSize => "BadTfm DesignSize",
        TfmCause::CharInfo => "BadTfm CharInfo",
        TfmCause::FixWord => "BadTfm FixWord",
        TfmCause::LigKern => "BadTfm LigKern",
    }
}

/// The number and the name of a refusal. 2 is the number of a bad script, and 20 that of a DVI file that is refused.
pub fn refusal_row(refusal: Refusal) -> (u32, &'static str)
    ensures number { result.0 ≡ (refusal_row refusal).0 }
    ensures name { result.1.now ≡ (refusal_row refusal).1 }
    ensures short { length result.1.now ≤ 17 }
{
    match refusal {
        Refusal::OutOfMemory => (1, "OutOfMemory"),
        Refusal::DimensionTooLarge => (3, "DimensionTooLarge"),
        Refusal::NoFont => (4, "NoFont"),
        Refusal::BadTfm(cause) => (5, metric_refusal_name(cause)),
        Refusal::SlotTaken => (6, "SlotTaken"),
        Refusal::NoOpenList => (7, "NoOpenList"),
        Refusal::WrongMode => (8, "WrongMode"),
        Refusal::WrongKind => (9, "WrongKind"),
        Refusal::ListTooLong => (10, "ListTooLong"),
        Refusal::TooDeep => (11, "TooDeep"),
        Refusal::InfiniteShrink => (12, "InfiniteShrink"),
        Refusal::TooManyBreaks => (13, "TooManyBreaks"),
        Refusal::HugePage => (14, "HugePage"),
        Refusal::TooManyPages => (15, "TooManyPages"),
        Refusal::TooMuchShipped => (16, "TooMuchShipped"),
        Refusal::ListsOpen => (17, "ListsOpen"),
        Refusal::Device => (18, "Device"),
        Refusal::JobOver => (19, "JobOver"),
        Refusal::VoidBox => (21, "VoidBox"),
        Refusal::TooMuchSpecial => (22, "TooMuchSpecial"),
    }
}

/// Appends bytes for which there is space. Most texts are short and known where this is called: written byte by byte, they become a few stores, where
/// a copy would be a call.
#[inline(always)]
fn put_bytes(bytes: &[u8], out: &mut Vec<u8>)
    requires space { vec_len out.old + length bytes.now ≤ vec_capacity out.old }
    ensures items { out.new.items ≡ out.old.items ++ bytes.now }
    ensures len { vec_len out.new ≡ vec_len out.old + length bytes.now }
    ensures capacity { vec_capacity out.new ≡ vec_capacity out.old }
{
    for byte in bytes {
        out.push_reserved(*byte);
    }
}

/// Appends a text. If memory is refused, nothing was appended, and there was no space for the text.
#[inline(always)]
pub fn push_text(text: &str, out: &mut Vec<u8>) -> Result<(), AllocError>
    ensures ok { OnOk result (out.new.items ≡ out.old.items ++ text.now) }
    ensures err { OnErr result (out.new.items ≡ out.old.items) }
    ensures space { TakesSpace (length text.now) out.old out.new result }
{
    let bytes = text.as_bytes();
    out.reserve(bytes.len())?;
    put_bytes(bytes, out);
    Ok(())
}

/// Appends a number in decimal. If memory is refused, nothing was appended, and there was no space for a number.
pub fn push_number(number: u64, out: &mut Vec<u8>) -> Result<(), AllocError>
    ensures ok { OnOk result (out.new.items ≡ out.old.items ++ decimal number) }
    ensures err { OnErr result (out.new.items ≡ out.old.items) }
    ensures space { TakesSpace 40 out.old out.new result }
{
    let mut buffer = Buffer::new();
    push_text(buffer.format(number), out)
}

/// Appends a refusal with its number and name; if memory is refused, only the beginning of it.
#[tactic(auto, unfolding(crate::specs::Texts::refusal_text))]
pub(crate) fn push_refusal(refusal: Refusal, out: &mut Vec<u8>) -> Result<(), AllocError>
    ensures ok { OnOk result (out.new.items ≡ out.old.items ++ refusal_text refusal) }
    ensures front { take (length out.old.items) out.new.items ≡ out.old.items }
    ensures space { TakesSpace 80 out.old out.new result }
{
    let (number, name) = refusal_row(refusal);
    push_text("refused ", out)?;
    push_number(u64::from(number), out)?;
    push_text(" ", out)?;
    push_text(name, out)
}

/// Appends the line of a refusal. If memory is refused, nothing was appended.
pub fn push_refusal_line(refusal: Refusal, out: &mut Vec<u8>) -> Result<(), AllocError>
    ensures ok { OnOk result (out.new.items ≡ out.old.items ++ refusal_line refusal) }
    ensures err { OnErr result (out.new.items ≡ out.old.items) }
{
    let held = out.len();
    let pushed = push_line(refusal, out);
    if pushed.is_err() {
        out.truncate(held);
    }
    pushed
}

/// Appends the line of a refusal; if memory is refused, only the beginning of it.
#[tactic(auto, unfolding(crate::specs::Texts::refusal_line))]
fn push_line(refusal: Refusal, out: &mut Vec<u8>) -> Result<(), AllocError>
    ensures ok { OnOk result (out.new.items ≡ out.old.items ++ refusal_line refusal) }
    ensures front { take (length out.old.items) out.new.items ≡ out.old.items }
{
    push_refusal(refusal, out)?;
    push_text("\n", out)
}
