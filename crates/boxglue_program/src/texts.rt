//! The texts of answers.

ghost use Rattle.std.specs.Prelude.{◌≡◌, ◌++◌, ◌+◌, ◌*◌, ◌<◌, ◌≤◌, length, codes, decimal, OnOk, OnErr, IfOk};
ghost use Rattle.std.specs.Fmt.{signed_decimal};
ghost use Rattle.scaled_core.specs.Spaces.{TakesSpace};
ghost use Rattle.boxglue_program.specs.Texts.{cause_name, kind_name, points_text, sizes_text, rest_text, lines_text, costs_text, answer_text};
ghost use Rattle.boxglue_program.specs.Texts.{reply_text, answer_line, summary_text, end_line, line_feed, script_refusal_text};
ghost use Rattle.boxglue_program.specs.Private.NumberedLines.{HoldsTens};

use crate::numbered_line::NumberedLine;
use crate::refusals::{push_number, push_refusal, push_text};
use boxglue_script::Cause;
use itoa::Buffer;
use job_core::{Answer, Refusal, Reply, Sizes, Summary};
use node_core::Kind;
use scaled_core::{Dimen, print_dimen};
use std::alloc::{AllocError, Global};

/// Space for one line of answers. The longest is that of a split: two numbers, six dimensions, and the words between them.
pub(crate) const ANSWER_SIZE: usize = 512;

/// The name of the cause that makes a script bad.
fn cause_name(cause: Cause) -> &'static str
    ensures name { result.now ≡ cause_name cause }
    ensures short { length result.now ≤ 9 }
{
    match cause {
        Cause::Byte => "Byte",
        Cause::Word => "Word",
        Cause::Missing => "Missing",
        Cause::Extra => "Extra",
        Cause::Number => "Number",
        Cause::Dimension => "Dimension",
        Cause::Name => "Name",
    }
}

/// The word for a kind of box.
fn kind_name(kind: Kind) -> &'static str
    ensures name { result.now ≡ kind_name kind }
    ensures short { length result.now ≤ 4 }
{
    match kind {
        Kind::Horizontal => "hbox",
        Kind::Vertical => "vbox",
    }
}

/// Appends a number in decimal, with a minus sign if it is negative. If memory is refused, nothing was appended.
pub fn push_signed(number: i64, out: &mut Vec<u8>) -> Result<(), AllocError>
    ensures ok { OnOk result (out.new.items ≡ out.old.items ++ signed_decimal number) }
    ensures err { OnErr result (out.new.items ≡ out.old.items) }
    ensures space { TakesSpace 40 out.old out.new result }
{
    let mut buffer = Buffer::new();
    push_text(buffer.format(number), out)
}

/// Appends width, height and depth, each in points. If memory is refused, here and in the functions below, a beginning of the text may have been
/// appended.
#[tactic(auto, unfolding(crate::specs::Texts::sizes_text, crate::specs::Texts::points_text))]
fn push_sizes(sizes: &Sizes, out: &mut Vec<u8>) -> Result<(), AllocError>
    ensures ok { OnOk result (out.new.items ≡ out.old.items ++ sizes_text sizes.now) }
    ensures space { TakesSpace 149 out.old out.new result }
{
    print_dimen(sizes.width, out)?;
    push_text("pt ", out)?;
    print_dimen(sizes.height, out)?;
    push_text("pt ", out)?;
    print_dimen(sizes.depth, out)?;
    push_text("pt", out)
}

/// Appends the answer to a packed box: sizes and badness.
#[tactic(auto, unfolding(crate::specs::Texts::answer_text))]
fn push_packed(sizes: &Sizes, badness: u32, out: &mut Vec<u8>) -> Result<(), AllocError>
    ensures ok { OnOk result (out.new.items ≡ out.old.items ++ answer_text (Answer.Packed sizes.now badness)) }
    ensures space { TakesSpace 205 out.old out.new result }
{
    push_text("packed ", out)?;
    push_sizes(sizes, out)?;
    push_text(" badness ", out)?;
    push_number(u64::from(badness), out)
}

/// Appends the answer to a measured box: kind and sizes.
#[tactic(auto, unfolding(crate::specs::Texts::answer_text))]
fn push_measured(kind: Kind, sizes: &Sizes, out: &mut Vec<u8>) -> Result<(), AllocError>
    ensures ok { OnOk result (out.new.items ≡ out.old.items ++ answer_text (Answer.Measured kind sizes.now)) }
    ensures space { TakesSpace 163 out.old out.new result }
{
    push_text("measured ", out)?;
    push_text(kind_name(kind), out)?;
    push_text(" ", out)?;
    push_sizes(sizes, out)
}

/// Appends how many items characters added, and how many characters are missing in the font.
#[tactic(auto, unfolding(crate::specs::Texts::answer_text))]
fn push_shaped(items: usize, missing: usize, out: &mut Vec<u8>) -> Result<(), AllocError>
    ensures ok { OnOk result (out.new.items ≡ out.old.items ++ answer_text (Answer.Shaped items missing)) }
    ensures space { TakesSpace 95 out.old out.new result }
{
    push_text("added ", out)?;
    push_number(items as u64, out)?;
    push_text(" missing ", out)?;
    push_number(missing as u64, out)
}

/// Appends how many items were added.
#[tactic(auto, unfolding(crate::specs::Texts::answer_text))]
fn push_added(items: usize, out: &mut Vec<u8>) -> Result<(), AllocError>
    ensures ok { OnOk result (out.new.items ≡ out.old.items ++ answer_text (Answer.Added items)) }
    ensures space { TakesSpace 46 out.old out.new result }
{
    push_text("added ", out)?;
    push_number(items as u64, out)
}

/// Appends the number of lines of a paragraph.
fn push_lines(lines: usize, out: &mut Vec<u8>) -> Result<(), AllocError>
    ensures ok { OnOk result (out.new.items ≡ out.old.items ++ lines_text lines) }
    ensures space { TakesSpace 56 out.old out.new result }
{
    push_text("paragraph lines ", out)?;
    push_number(lines as u64, out)
}

/// Appends the overhang and the demerits of a paragraph.
#[tactic(auto, unfolding(crate::specs::Texts::costs_text))]
fn push_costs(overhang: i64, demerits: i64, out: &mut Vec<u8>) -> Result<(), AllocError>
    ensures ok { OnOk result (out.new.items ≡ out.old.items ++ costs_text overhang demerits) }
    ensures space { TakesSpace 100 out.old out.new result }
{
    push_text(" overhang ", out)?;
    push_signed(overhang, out)?;
    push_text(" demerits ", out)?;
    push_signed(demerits, out)
}

/// Appends the answer to a broken paragraph: its lines, the pass that gave them, its overhang in scaled points and its demerits.
#[tactic(auto, unfolding(crate::specs::Texts::answer_text))]
fn push_paragraph(
    lines: usize,
    pass: u8,
    overhang: i64,
    demerits: i64,
    out: &mut Vec<u8>,
) -> Result<(), AllocError>
    ensures ok { OnOk result (out.new.items ≡ out.old.items ++ answer_text (Answer.Paragraph lines pass overhang demerits)) }
    ensures space { TakesSpace 202 out.old out.new result }
{
    push_lines(lines, out)?;
    push_text(" pass ", out)?;
    push_number(u64::from(pass), out)?;
    push_costs(overhang, demerits, out)
}

/// Appends the sizes of the rest of a split, or `void` if there is none.
#[tactic(auto, unfolding(crate::specs::Texts::rest_text))]
fn push_rest(rest: &Option<Sizes>, out: &mut Vec<u8>) -> Result<(), AllocError>
    ensures ok { OnOk result (out.new.items ≡ out.old.items ++ rest_text rest.now) }
    ensures space { TakesSpace 149 out.old out.new result }
{
    match rest {
        None => push_text("void", out),
        Some(sizes) => push_sizes(sizes, out),
    }
}

/// Appends the answer to a split: the sizes of the front, its badness, and the rest.
#[tactic(auto, unfolding(crate::specs::Texts::answer_text))]
fn push_split(
    front: &Sizes,
    badness: u32,
    rest: &Option<Sizes>,
    out: &mut Vec<u8>,
) -> Result<(), AllocError>
    ensures ok { OnOk result (out.new.items ≡ out.old.items ++ answer_text (Answer.Split front.now badness rest.now)) }
    ensures space { TakesSpace 359 out.old out.new result }
{
    push_text("split ", out)?;
    push_sizes(front, out)?;
    push_text(" badness ", out)?;
    push_number(u64::from(badness), out)?;
    push_text(" rest ", out)?;
    push_rest(rest, out)
}

/// Appends the number of pages that were shipped.
#[tactic(auto, unfolding(crate::specs::Texts::answer_text))]
fn push_shipped(pages: u32, out: &mut Vec<u8>) -> Result<(), AllocError>
    ensures ok { OnOk result (out.new.items ≡ out.old.items ++ answer_text (Answer.Shipped pages)) }
    ensures space { TakesSpace 48 out.old out.new result }
{
    push_text("shipped ", out)?;
    push_number(u64::from(pages), out)
}

/// Appends an answer.
#[tactic(auto, unfolding(crate::specs::Texts::answer_text))]
fn push_answer(answer: &Answer, out: &mut Vec<u8>) -> Result<(), AllocError>
    ensures ok { OnOk result (out.new.items ≡ out.old.items ++ answer_text answer.now) }
    ensures space { TakesSpace 359 out.old out.new result }
{
    match answer {
        Answer::Done => push_text("ok", out),
        Answer::Packed(sizes, badness) => push_packed(sizes, *badness, out),
        Answer::Measured(kind, sizes) => push_measured(*kind, sizes, out),
        Answer::MeasuredVoid => push_text("measured void", out),
        Answer::Shaped { items, missing } => push_shaped(*items, *missing, out),
        Answer::Added(items) => push_added(*items, out),
        Answer::Paragraph {
            lines,
            pass,
            overhang,
            demerits,
        } => push_paragraph(*lines, *pass, *overhang, *demerits, out),
        Answer::Split {
            front,
            badness,
            rest,
        } => push_split(front, *badness, rest, out),
        Answer::SplitVoid => push_text("split void", out),
        Answer::Shipped(pages) => push_shipped(*pages, out),
    }
}

/// Appends the reply of a job.
fn push_reply(reply: &Reply, out: &mut Vec<u8>) -> Result<(), AllocError>
    ensures ok { OnOk result (out.new.items ≡ out.old.items ++ reply_text reply.now) }
    ensures space { TakesSpace 359 out.old out.new result }
{
    match reply {
        Ok(answer) => push_answer(answer, out),
        Err(refusal) => push_refusal(*refusal, out),
    }
}

/// Appends the line that answers the line of a script with this number. If memory is refused, nothing was appended, as space is taken first.
#[tactic(auto, unfolding(crate::specs::Texts::answer_line))]
pub(crate) fn push_answer_line(
    line: &mut NumberedLine,
    number: usize,
    reply: &Reply,
    out: &mut Vec<u8>,
) -> Result<(), AllocError>
    requires { HoldsTens line.old }
    ensures holds { HoldsTens line.new }
    ensures ok { OnOk result (out.new.items ≡ out.old.items ++ answer_line number reply.now) }
    ensures cut { OnErr result (out.new.items ≡ out.old.items) }
    ensures space { TakesSpace 512 out.old out.new result }
{
    out.reserve(ANSWER_SIZE)?;
    line.push_number(number as u64, out)?;
    push_reply(reply, out)?;
    push_text("\n", out)
}

/// Appends the result of the end of a job.
fn push_summary(end: &Result<Summary, Refusal>, out: &mut Vec<u8>) -> Result<(), AllocError>
    ensures ok { OnOk result (out.new.items ≡ out.old.items ++ summary_text end.now) }
    ensures space { TakesSpace 100 out.old out.new result }
{
    match end {
        Ok(summary) => {
            push_text("pages ", out)?;
            push_number(u64::from(summary.pages), out)?;
            push_text(" bytes ", out)?;
            push_number(summary.bytes, out)
        }
        Err(refusal) => push_refusal(*refusal, out),
    }
}

/// Appends the last line of the answers. If memory is refused, nothing was appended.
#[tactic(auto, unfolding(crate::specs::Texts::end_line))]
pub fn push_end_line(end: &Result<Summary, Refusal>, out: &mut Vec<u8>) -> Result<(), AllocError>
    ensures ok { OnOk result (out.new.items ≡ out.old.items ++ end_line end.now) }
    ensures cut { OnErr result (out.new.items ≡ out.old.items) }
    ensures space { TakesSpace 512 out.old out.new result }
{
    out.reserve(ANSWER_SIZE)?;
    push_text("end: ", out)?;
    push_summary(end, out)?;
    push_text("\n", out)
}

/// The text for a bad script: the number of its first bad line, and the cause.
pub fn script_refusal_text(
    alloc: Global,
    number: usize,
    cause: Cause,
) -> Result<Vec<u8>, AllocError>
    ensures { IfOk result (λ text. text.items ≡ script_refusal_text number cause) }
{
    let mut text = Vec::new(alloc);
    push_script_refusal(number, cause, &mut text)?;
    Ok(text)
}

/// Appends the text for a bad line: its number, and the cause. If memory is refused, nothing was appended.
#[tactic(auto, unfolding(crate::specs::Texts::script_refusal_text))]
pub fn push_script_refusal(line: usize, cause: Cause, out: &mut Vec<u8>) -> Result<(), AllocError>
    ensures ok { OnOk result (out.new.items ≡ out.old.items ++ script_refusal_text line cause) }
    ensures cut { OnErr result (out.new.items ≡ out.old.items) }
{
    out.reserve(ANSWER_SIZE)?;
    push_text("refused 2 BadScript ", out)?;
    push_number(line as u64, out)?;
    push_cause(cause, out)
}

/// Appends a space, the name of a cause, and the end of the line.
fn push_cause(cause: Cause, out: &mut Vec<u8>) -> Result<(), AllocError>
    ensures ok { OnOk result (out.new.items ≡ out.old.items ++ (codes " " ++ (cause_name cause ++ line_feed))) }
    ensures space { TakesSpace 11 out.old out.new result }
{
    push_text(" ", out)?;
    push_text(cause_name(cause), out)?;
    push_text("\n", out)
}
