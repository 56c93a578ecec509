//! The typesetter for programs in C, and for languages that call C. Each function calls the one of its name in `boxglue_calls`, or in its module
//! `jobs`, and has the same clauses, which that crate's `Calls` defines; `include/boxglue.h` describes them for callers in C. A function has no
//! `requires`: it returns a status for every input.
#![tactic(auto)]

ghost use Rattle.std.specs.Prelude.{◌≡◌, ◌≢◌, None};
ghost use Rattle.boxglue_program.specs.Reports.{any_bytes, written_bytes};
ghost use Rattle.boxglue_calls.specs.Items.{HandsItems, KeepsUnlisted, RefusesRegister, item_outputs};
ghost use Rattle.boxglue_calls.specs.MarkTables.{mark_outputs};
ghost use Rattle.boxglue_calls.specs.Metrics.{metric_outputs};
ghost use Rattle.boxglue_calls.specs.Pieces.{DoesCommands, FinishesKept, HandsAnswers, HandsBytes};
ghost use Rattle.boxglue_calls.specs.Replies.{RepliesTo, RepliesToEnd, row_space};
ghost use Rattle.raster_core.specs.PaintOptions.{options_of};
ghost use Rattle.boxglue_calls.specs.Calls.{Checks, HasSpaceForMarks, IsStatusOfNew, KeepsUndone, KeepsUnnamed, KeepsUnpainted, KeepsUnread};
ghost use Rattle.boxglue_calls.specs.Calls.{KeepsWithoutJob, Lists, MakesJob, NeedsJob, NoticesNoPage, OnJob, Paints, PaintsBits, ReadsFonts};
ghost use Rattle.boxglue_calls.specs.Calls.{ReadsMarks, ReadsMetrics, RefusesJob, RefusesNames, RefusesNamesOfJob, RefusesNumbers, RefusesPage};
ghost use Rattle.boxglue_calls.specs.Calls.{RefusesSize, Runs, RunsInRows};

use boxglue_calls::jobs::{JobHandle, ReplyRow, ReplySizes};
use boxglue_calls::{
    BoxItem, DviFont, DviMark, DviPage, Fault, Font, FontParameters, FontSizes, FontStep,
    GlyphTable, ItemSizes, Lengths, MarkSizes,
};
use std::alloc::Global;

/// Runs a script with these fonts. The answers and the bytes of the DVI file go into the buffers, and the numbers of these bytes into `lengths`.
#[unsafe(no_mangle)]
pub extern "C" fn boxglue_run(
    alloc: Global,
    script: &[u8],
    fonts: &[Font<'_>],
    answers: &mut [u8],
    dvi: &mut [u8],
    lengths: &mut Lengths,
) -> u32
    ensures named { RefusesNames fonts.now result }
    ensures done { Runs any_bytes script.now fonts.now (answers.old, answers.new) (dvi.old, dvi.new) lengths.new result }
    ensures sent { Runs written_bytes script.now fonts.now (answers.old, answers.new) (dvi.old, dvi.new) lengths.new result }
    ensures answers { KeepsUndone result answers.old answers.new }
    ensures dvi { KeepsUndone result dvi.old dvi.new }
    ensures lengths { KeepsUndone result lengths.old lengths.new }
{
    boxglue_calls::run(alloc, script, fonts, answers, dvi, lengths)
}

/// Lists the marks of all pages of a DVI file with these fonts. The listing, or the line of the refusal, goes into `text`, and the number of its
/// bytes into `size`.
#[unsafe(no_mangle)]
pub extern "C" fn boxglue_list(
    alloc: Global,
    dvi: &[u8],
    fonts: &[Font<'_>],
    text: &mut [u8],
    size: &mut usize,
) -> u32
    ensures named { RefusesNames fonts.now result }
    ensures done { Lists dvi.now fonts.now (text.old, text.new) size.new result }
    ensures text { KeepsUndone result text.old text.new }
    ensures size { KeepsUndone result size.old size.new }
{
    boxglue_calls::list(alloc, dvi, fonts, text, size)
}

/// Paints the rules of a page of a DVI file with these fonts. Pages are counted from 1. The bitmap as plain PBM, or the line of the refusal, goes
/// into `text`, and the number of its bytes into `size`.
#[unsafe(no_mangle)]
pub extern "C" fn boxglue_paint(
    alloc: Global,
    dvi: &[u8],
    fonts: &[Font<'_>],
    page: u32,
    dpi: u32,
    width: u32,
    height: u32,
    text: &mut [u8],
    size: &mut usize,
) -> u32
    ensures named { RefusesNames fonts.now result }
    ensures range { RefusesNumbers fonts.now page dpi width height result }
    ensures lacking { RefusesPage dvi.now fonts.now page result }
    ensures found { NoticesNoPage dvi.now fonts.now page dpi width height result }
    ensures done { Paints dvi.now fonts.now (options_of page dpi width height) (text.old, text.new) size.new result }
    ensures text { KeepsUnpainted result text.old text.new }
    ensures size { KeepsUnpainted result size.old size.new }
{
    boxglue_calls::paint(alloc, dvi, fonts, page, dpi, width, height, text, size)
}

/// Paints the rules of a page of a DVI file with these fonts, as `boxglue_paint`. The bitmap as bytes, eight pixels in each, or the line of the
/// refusal, goes into `bits`, and the number of its bytes into `size`.
#[unsafe(no_mangle)]
pub extern "C" fn boxglue_paint_bits(
    alloc: Global,
    dvi: &[u8],
    fonts: &[Font<'_>],
    page: u32,
    dpi: u32,
    width: u32,
    height: u32,
    bits: &mut [u8],
    size: &mut usize,
) -> u32
    ensures named { RefusesNames fonts.now result }
    ensures range { RefusesNumbers fonts.now page dpi width height result }
    ensures lacking { RefusesPage dvi.now fonts.now page result }
    ensures found { NoticesNoPage dvi.now fonts.now page dpi width height result }
    ensures done { PaintsBits dvi.now fonts.now (options_of page dpi width height) (bits.old, bits.new) size.new result }
    ensures bits { KeepsUnpainted result bits.old bits.new }
    ensures size { KeepsUnpainted result size.old size.new }
{
    boxglue_calls::paint_bits(alloc, dvi, fonts, page, dpi, width, height, bits, size)
}

/// Reads the fonts that a DVI file defines after its pages. They go into `fonts`, their names or the line of the refusal into `text`, and the numbers
/// of both into `sizes`.
#[unsafe(no_mangle)]
pub extern "C" fn boxglue_fonts(
    alloc: Global,
    dvi: &[u8],
    fonts: &mut [DviFont],
    text: &mut [u8],
    sizes: &mut FontSizes,
) -> u32
    ensures done { ReadsFonts dvi.now (fonts.old, fonts.new) (text.old, text.new) sizes.new result }
    ensures fonts { KeepsUnread result fonts.old fonts.new }
    ensures text { KeepsUnread result text.old text.new }
    ensures sizes { KeepsUnread result sizes.old sizes.new }
{
    boxglue_calls::fonts(alloc, dvi, fonts, text, sizes)
}

/// Reads the marks of all pages of a DVI file with these fonts. The pages go into `pages`, their marks into `marks`, and the numbers of both and the
/// units of the file into `sizes`. The line of a refusal goes into `text`.
#[unsafe(no_mangle)]
pub extern "C" fn boxglue_marks(
    alloc: Global,
    dvi: &[u8],
    fonts: &[Font<'_>],
    pages: &mut [DviPage],
    marks: &mut [DviMark],
    text: &mut [u8],
    sizes: &mut MarkSizes,
) -> u32
    ensures named { RefusesNames fonts.now result }
    ensures done { ReadsMarks dvi.now fonts.now (mark_outputs pages.old marks.old text.old)
        (mark_outputs pages.new marks.new text.new) sizes.new result }
    ensures enough { HasSpaceForMarks dvi.now (mark_outputs pages.old marks.old text.old) result }
    ensures pages { KeepsUndone result pages.old pages.new }
    ensures marks { KeepsUndone result marks.old marks.new }
    ensures text { KeepsUndone result text.old text.new }
    ensures sizes { KeepsUndone result sizes.old sizes.new }
{
    boxglue_calls::marks(alloc, dvi, fonts, pages, marks, text, sizes)
}

/// Checks a DVI file with these fonts. Why it is refused goes into `fault`, and the name of a font that is missing into `name`.
#[unsafe(no_mangle)]
pub extern "C" fn boxglue_check(
    alloc: Global,
    dvi: &[u8],
    fonts: &[Font<'_>],
    fault: &mut Fault,
    name: &mut [u8],
) -> u32
    ensures named { RefusesNames fonts.now result }
    ensures done { Checks dvi.now fonts.now (name.old, name.new) fault.new result }
    ensures fault { KeepsUnnamed result fault.old fault.new }
    ensures name { KeepsUndone result name.old name.new }
{
    boxglue_calls::check(alloc, dvi, fonts, fault, name)
}

/// Reads the metrics of a font in the bytes of a metric file, at a size in scaled points, or at its design size for 0.
#[unsafe(no_mangle)]
pub extern "C" fn boxglue_metrics(
    alloc: Global,
    tfm: &[u8],
    size: i32,
    glyphs: &mut GlyphTable,
    parameters: &mut FontParameters,
    steps: &mut [FontStep],
    count: &mut usize,
    fault: &mut Fault,
) -> u32
    ensures size { RefusesSize size result }
    ensures done { ReadsMetrics tfm.now size (metric_outputs glyphs.old parameters.old steps.old count.old fault.old)
        (metric_outputs glyphs.new parameters.new steps.new count.new fault.new) result }
{
    boxglue_calls::metrics(alloc, tfm, size, glyphs, parameters, steps, count, fault)
}

/// The version of the library: 10,000 times the first of its three numbers, 100 times the second, and the third.
#[unsafe(no_mangle)]
pub extern "C" fn boxglue_version() -> u32
    ensures { result ≡ 10200 }
{
    boxglue_calls::version()
}

/// 1 in a library that is proved, and 0 in one that was built without proofs.
#[unsafe(no_mangle)]
pub extern "C" fn boxglue_proved() -> u32
    ensures { result ≡ 1 }
{
    if boxglue_calls::is_proved() { 1 } else { 0 }
}

/// Makes a job with these fonts, and keeps it in a handle that is null.
#[unsafe(no_mangle)]
pub extern "C" fn boxglue_job_new(alloc: Global, job: &mut JobHandle, fonts: &[Font<'_>]) -> u32
    ensures exists { RefusesJob job.old.value result }
    ensures named { RefusesNamesOfJob job.old.value fonts.now result }
    ensures made { MakesJob fonts.now job.new.value result }
    ensures same { result ≢ 0 → job.new.value ≡ job.old.value }
    ensures statuses { IsStatusOfNew result }
{
    boxglue_calls::jobs::new(alloc, job, fonts)
}

/// Runs a piece of a script, which is whole lines, on a job.
#[unsafe(no_mangle)]
pub extern "C" fn boxglue_job_commands(alloc: Global, job: &mut JobHandle, script: &[u8]) -> u32
    ensures no_job { NeedsJob job.old.value result }
    ensures done { OnJob (DoesCommands script.now) job.old.value job.new.value result }
{
    boxglue_calls::jobs::commands(alloc, job, script)
}

/// Hands the answers over that were not handed over yet.
#[unsafe(no_mangle)]
pub extern "C" fn boxglue_job_answers(
    alloc: Global,
    job: &mut JobHandle,
    text: &mut [u8],
    size: &mut usize,
) -> u32
    ensures no_job { NeedsJob job.old.value result }
    ensures done { OnJob (HandsAnswers text.old text.new size.new) job.old.value job.new.value result }
    ensures text { KeepsWithoutJob result text.old text.new }
    ensures size { KeepsWithoutJob result size.old size.new }
{
    boxglue_calls::jobs::answers(alloc, job, text, size)
}

/// Hands the bytes of the file over that went out since the last time.
#[unsafe(no_mangle)]
pub extern "C" fn boxglue_job_take(
    alloc: Global,
    job: &mut JobHandle,
    dvi: &mut [u8],
    size: &mut usize,
) -> u32
    ensures no_job { NeedsJob job.old.value result }
    ensures done { OnJob (HandsBytes dvi.old dvi.new size.new) job.old.value job.new.value result }
    ensures dvi { KeepsWithoutJob result dvi.old dvi.new }
    ensures size { KeepsWithoutJob result size.old size.new }
{
    boxglue_calls::jobs::take(alloc, job, dvi, size)
}

/// Writes the end of the file of a job.
#[unsafe(no_mangle)]
pub extern "C" fn boxglue_job_finish(alloc: Global, job: &mut JobHandle) -> u32
    ensures no_job { NeedsJob job.old.value result }
    ensures done { OnJob FinishesKept job.old.value job.new.value result }
{
    boxglue_calls::jobs::finish(alloc, job)
}

/// Runs a piece of a script, which is whole lines, on a job. The replies go into `replies`, and their number into `count`.
#[unsafe(no_mangle)]
pub extern "C" fn boxglue_job_run(
    alloc: Global,
    job: &mut JobHandle,
    script: &[u8],
    replies: &mut [ReplyRow],
    count: &mut usize,
) -> u32
    ensures no_job { NeedsJob job.old.value result }
    ensures done { OnJob (RepliesTo script.now (row_space replies.old count.old) (row_space replies.new count.new)) job.old.value
        job.new.value result }
    ensures replies { KeepsWithoutJob result replies.old replies.new }
    ensures count { KeepsWithoutJob result count.old count.new }
{
    boxglue_calls::jobs::run(alloc, job, script, replies, count)
}

/// Writes the end of the file of a job. Its reply goes into `reply`.
#[unsafe(no_mangle)]
pub extern "C" fn boxglue_job_end(alloc: Global, job: &mut JobHandle, reply: &mut ReplyRow) -> u32
    ensures no_job { NeedsJob job.old.value result }
    ensures done { OnJob (RepliesToEnd reply.new) job.old.value job.new.value result }
    ensures reply { KeepsWithoutJob result reply.old reply.new }
{
    boxglue_calls::jobs::end(alloc, job, reply)
}

/// Runs a script with these fonts. The replies and the bytes of the DVI file go into the buffers, and the numbers of both into `sizes`.
#[unsafe(no_mangle)]
pub extern "C" fn boxglue_run_replies(
    alloc: Global,
    script: &[u8],
    fonts: &[Font<'_>],
    replies: &mut [ReplyRow],
    dvi: &mut [u8],
    sizes: &mut ReplySizes,
) -> u32
    ensures named { RefusesNames fonts.now result }
    ensures done { RunsInRows script.now fonts.now (replies.old, replies.new) (dvi.old, dvi.new) sizes.new result }
    ensures replies { KeepsUndone result replies.old replies.new }
    ensures dvi { KeepsUndone result dvi.old dvi.new }
    ensures sizes { KeepsUndone result sizes.old sizes.new }
{
    boxglue_calls::jobs::run_replies(alloc, script, fonts, replies, dvi, sizes)
}

/// Hands the items of the box in a register of a job over, as rows. They go into `items`, the texts of its specials into `text`, and the numbers of
/// both into `sizes`.
#[unsafe(no_mangle)]
pub extern "C" fn boxglue_job_items(
    alloc: Global,
    job: &mut JobHandle,
    register_number: u32,
    items: &mut [BoxItem],
    text: &mut [u8],
    sizes: &mut ItemSizes,
) -> u32
    ensures no_job { NeedsJob job.old.value result }
    ensures range { RefusesRegister job.old.value register_number result }
    ensures done { OnJob (HandsItems register_number (item_outputs items.old text.old) (item_outputs items.new text.new) sizes.new)
        job.old.value job.new.value result }
    ensures same { job.new.value ≡ job.old.value }
    ensures items { KeepsUnlisted result items.old items.new }
    ensures text { KeepsUnlisted result text.old text.new }
    ensures sizes { KeepsUnlisted result sizes.old sizes.new }
{
    boxglue_calls::jobs::items(alloc, job, register_number, items, text, sizes)
}

/// Gives all memory of a job back. The handle is null then.
#[unsafe(no_mangle)]
pub extern "C" fn boxglue_job_free(alloc: Global, job: &mut JobHandle)
    ensures { job.new.value ≡ None }
{
    boxglue_calls::jobs::free(alloc, job)
}
