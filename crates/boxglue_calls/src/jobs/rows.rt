//! Replies as rows of numbers.

ghost use Rattle.std.specs.Prelude.{◌≡◌};
ghost use Rattle.boxglue_calls.specs.Rows.{answer_row, bad_row, cause_number, end_row, kind_number, metric_cause, refusal_cause};
ghost use Rattle.boxglue_calls.specs.Rows.{refused_row, reply_row, row_of_kind, size_numbers, split_row};

use crate::jobs::reply_kind;
use boxglue_program::{Cause, refusal_row};
use job_core::{Answer, Refusal, Reply, Sizes, Summary, TfmCause};
use node_core::Kind;

/// Width, height and depth of a box, in scaled points.
#[repr(C)]
#[derive(Clone, Copy, Debug, PartialEq, Eq)]
pub struct BoxSizes {
    pub width: i32,
    pub height: i32,
    pub depth: i32,
}

/// The reply to a line of a script, or to the end of a job. What its kind does not have is 0.
#[repr(C)]
#[derive(Clone, Copy, Debug, PartialEq, Eq)]
pub struct ReplyRow {
    /// The number of the line, from 1; 0 for the end.
    pub line: u64,
    /// One of the numbers of `reply_kind`.
    pub kind: u32,
    /// The number of the refusal; 2 for a bad line.
    pub refusal: u32,
    /// Why a metric file is refused, 1 to 6, or a line is bad, 1 to 7.
    pub cause: u32,
    /// 0 for an hbox and 1 for a vbox that was measured.
    pub box_kind: u32,
    /// The sizes of the box that was packed or measured, or of the front of a split.
    pub box_sizes: BoxSizes,
    /// The sizes of the rest of a split.
    pub rest: BoxSizes,
    /// 1 where a split has a rest.
    pub has_rest: u32,
    /// The badness of a box that was packed, or of the front of a split.
    pub badness: u32,
    /// The pass that broke a paragraph, 1 to 3; 0 where it was empty.
    pub pass: u32,
    /// How many characters of a text the font does not have; the greatest number stands for more too.
    pub missing: u32,
    /// How many items were added, lines a paragraph has, or pages were shipped.
    pub count: u64,
    /// How many bytes the file has.
    pub bytes: u64,
    /// By how much lines of a paragraph are overfull, in scaled points.
    pub overhang: i64,
    /// The demerits of a paragraph.
    pub demerits: i64,
}

/// The number of the refusal of a bad script.
const BAD_SCRIPT: u32 = 2;

/// No sizes.
const NO_SIZES: BoxSizes = BoxSizes {
    width: 0,
    height: 0,
    depth: 0,
};

/// A row of this kind in which every other number is 0.
pub(crate) fn row_of_kind(kind: u32) -> ReplyRow
    ensures { result ≡ row_of_kind kind }
{
    ReplyRow {
        line: 0,
        kind,
        refusal: 0,
        cause: 0,
        box_kind: 0,
        box_sizes: NO_SIZES,
        rest: NO_SIZES,
        has_rest: 0,
        badness: 0,
        pass: 0,
        missing: 0,
        count: 0,
        bytes: 0,
        overhang: 0,
        demerits: 0,
    }
}

/// The sizes of a box.
fn size_numbers(sizes: &Sizes) -> BoxSizes
    ensures { result ≡ size_numbers sizes.now }
{
    BoxSizes {
        width: sizes.width.get(),
        height: sizes.height.get(),
        depth: sizes.depth.get(),
    }
}

/// The number of a kind of box.
fn kind_number(kind: Kind) -> u32
    ensures { result ≡ kind_number kind }
{
    match kind {
        Kind::Horizontal => 0,
        Kind::Vertical => 1,
    }
}

/// The row of a split.
fn split_row(front: &Sizes, badness: u32, rest: &Option<Sizes>) -> ReplyRow
    ensures { result ≡ split_row front.now badness rest.now }
{
    let row = ReplyRow {
        box_sizes: size_numbers(front),
        badness,
        ..row_of_kind(reply_kind::SPLIT)
    };
    match rest {
        None => row,
        Some(rest) => ReplyRow {
            has_rest: 1,
            rest: size_numbers(rest),
            ..row
        },
    }
}

/// A row of this kind with this count in which every other number is 0.
fn counted_row(kind: u32, count: u64) -> ReplyRow
    ensures { result ≡ record (row_of_kind kind) { count = count } }
{
    ReplyRow {
        count,
        ..row_of_kind(kind)
    }
}

/// The row of a text that was added.
fn shaped_row(items: usize, missing: usize) -> ReplyRow
    ensures { result ≡ answer_row (Answer.Shaped items missing) }
{
    ReplyRow {
        count: items as u64,
        missing: missing.min(u32::MAX as usize) as u32,
        ..row_of_kind(reply_kind::SHAPED)
    }
}

/// The row of an answer, without the number of its line.
fn answer_row(answer: &Answer) -> ReplyRow
    ensures { result ≡ answer_row answer.now }
{
    match answer {
        Answer::Done => row_of_kind(reply_kind::OK),
        Answer::Packed(sizes, badness) => ReplyRow {
            box_sizes: size_numbers(sizes),
            badness: *badness,
            ..row_of_kind(reply_kind::PACKED)
        },
        Answer::Measured(kind, sizes) => ReplyRow {
            box_kind: kind_number(*kind),
            box_sizes: size_numbers(sizes),
            ..row_of_kind(reply_kind::MEASURED)
        },
        Answer::MeasuredVoid => row_of_kind(reply_kind::MEASURED_VOID),
        Answer::Shaped { items, missing } => shaped_row(*items, *missing),
        Answer::Added(items) => counted_row(reply_kind::ADDED, *items as u64),
        Answer::Paragraph {
            lines,
            pass,
            overhang,
            demerits,
        } => ReplyRow {
            count: *lines as u64,
            pass: u32::from(*pass),
            overhang: *overhang,
            demerits: *demerits,
            ..row_of_kind(reply_kind::PARAGRAPH)
        },
        Answer::Split {
            front,
            badness,
            rest,
        } => split_row(front, *badness, rest),
        Answer::SplitVoid => row_of_kind(reply_kind::SPLIT_VOID),
        Answer::Shipped(pages) => counted_row(reply_kind::SHIPPED, u64::from(*pages)),
    }
}

/// The number of the cause for which a metric file is refused.
fn metric_cause(cause: TfmCause) -> u32
    ensures { result ≡ metric_cause cause }
{
    match cause {
        TfmCause::TooShort => 1,
        TfmCause::Counts => 2,
        TfmCause::DesignSize => 3,
        TfmCause::CharInfo => 4,
        TfmCause::FixWord => 5,
        TfmCause::LigKern => 6,
    }
}

/// The number of the cause of a refusal; 0 where it names none.
pub(crate) fn refusal_cause(refusal: Refusal) -> u32
    ensures { result ≡ refusal_cause refusal }
{
    match refusal {
        Refusal::BadTfm(cause) => metric_cause(cause),
        _ => 0,
    }
}

/// The row of a refusal, without the number of its line.
fn refused_row(refusal: Refusal) -> ReplyRow
    ensures { result ≡ refused_row refusal }
{
    ReplyRow {
        refusal: refusal_row(refusal).0,
        cause: refusal_cause(refusal),
        ..row_of_kind(reply_kind::REFUSED)
    }
}

/// The row of the reply to the line with this number.
pub(crate) fn reply_row(line: usize, reply: &Reply) -> ReplyRow
    ensures { result ≡ reply_row line reply.now }
{
    let row = match reply {
        Ok(answer) => answer_row(answer),
        Err(refusal) => refused_row(*refusal),
    };
    ReplyRow {
        line: line as u64,
        ..row
    }
}

/// The row of the end of a job.
pub(crate) fn end_row(end: &Result<Summary, Refusal>) -> ReplyRow
    ensures { result ≡ end_row end.now }
{
    match end {
        Ok(summary) => ReplyRow {
            count: u64::from(summary.pages),
            bytes: summary.bytes,
            ..row_of_kind(reply_kind::END)
        },
        Err(refusal) => refused_row(*refusal),
    }
}

/// The number of the cause for which a line is bad.
fn cause_number(cause: Cause) -> u32
    ensures { result ≡ cause_number cause }
{
    match cause {
        Cause::Byte => 1,
        Cause::Word => 2,
        Cause::Missing => 3,
        Cause::Extra => 4,
        Cause::Number => 5,
        Cause::Dimension => 6,
        Cause::Name => 7,
    }
}

/// The row of a piece or a script that is refused for the line with this number.
pub(crate) fn bad_row(line: usize, cause: Cause) -> ReplyRow
    ensures { result ≡ bad_row line cause }
{
    ReplyRow {
        line: line as u64,
        refusal: BAD_SCRIPT,
        cause: cause_number(cause),
        ..row_of_kind(reply_kind::BAD_LINE)
    }
}
