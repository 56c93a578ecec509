//! The calls on a handle.

ghost use Rattle.std.specs.Prelude.{◌≡◌, ◌≢◌, None, true, IfOk};
ghost use Rattle.boxglue_calls.specs.Fonts.{are_named, files_of};
ghost use Rattle.boxglue_calls.specs.Jobs.{IsNewJob};
ghost use Rattle.boxglue_calls.specs.Items.{HandsItems, KeepsUnlisted, RefusesRegister, item_outputs};
ghost use Rattle.boxglue_calls.specs.Pieces.{DoesCommands, FinishesKept, HandsAnswers, HandsBytes};
ghost use Rattle.boxglue_calls.specs.Replies.{RepliesTo, RepliesToEnd, row_space};
ghost use Rattle.boxglue_calls.specs.Calls.{IsStatusOfNew, KeepsWithoutJob, MakesJob, NeedsJob, OnJob, RefusesJob, RefusesNamesOfJob};

use crate::jobs::handle::{JobHandle, put, take as take_out};
use crate::jobs::kept_job::KeptJob;
use crate::jobs::rows::ReplyRow;
use crate::jobs::status::{JOB_EXISTS, NO_JOB};
use crate::status::{ACCEPTED, BAD_FONT_NAME, OUT_OF_MEMORY};
use crate::{Font, are_named, font_files};
use box_items::{BoxItem, ItemSizes};
use std::alloc::{AllocError, Global};

/// A new job with these fonts, which have names.
fn new_job(alloc: Global, fonts: &[Font<'_>]) -> Result<Box<KeptJob>, AllocError>
    requires { are_named fonts.now ≡ true }
    ensures { IfOk result (λ kept. IsNewJob (files_of fonts.now) kept.value) }
{
    let files = font_files(alloc, fonts)?;
    let kept = KeptJob::new(alloc, &files)?;
    match Box::new(alloc, kept) {
        Ok(kept) => Ok(kept),
        Err(_) => Err(AllocError),
    }
}

/// Makes a job with these fonts, and keeps it in a handle that is null.
///
/// Returns ACCEPTED; JOB_EXISTS, BAD_FONT_NAME or OUT_OF_MEMORY, and then the handle is as it was.
pub fn new(alloc: Global, job: &mut JobHandle, fonts: &[Font<'_>]) -> u32
    ensures exists { RefusesJob job.old.value result }
    ensures named { RefusesNamesOfJob job.old.value fonts.now result }
    ensures made { MakesJob fonts.now job.new.value result }
    ensures same { result ≢ 0 → job.new.value ≡ job.old.value }
    ensures statuses { IsStatusOfNew result }
{
    if let Some(kept) = take_out(alloc, job) {
        put(alloc, job, kept);
        return JOB_EXISTS;
    }
    if !are_named(fonts) {
        return BAD_FONT_NAME;
    }
    match new_job(alloc, fonts) {
        Ok(kept) => {
            put(alloc, job, kept);
            ACCEPTED
        }
        Err(AllocError) => OUT_OF_MEMORY,
    }
}

/// Runs a piece of a script, which is whole lines. The piece is read first, and where a line of it is bad, no line is run. The numbers of lines count
/// on over the pieces that were run, in the line of a refused piece too.
///
/// Returns ACCEPTED, REFUSED or REFUSED_MEMORY, and then the answers are kept; ANSWERS_LOST, and then the commands were run and memory was refused
/// for the text of their answers; NO_JOB or OUT_OF_MEMORY, and then nothing changed.
#[tactic(auto, using(crate::proofs::KeptLaws::on_a_job, crate::proofs::KeptLaws::on_no_job, crate::proofs::KeptLaws::there_was_none))]
pub fn commands(alloc: Global, job: &mut JobHandle, script: &[u8]) -> u32
    ensures no_job { NeedsJob job.old.value result }
    ensures done { OnJob (DoesCommands script.now) job.old.value job.new.value result }
{
    let Some(mut kept) = take_out(alloc, job) else {
        return NO_JOB;
    };
    let status = kept.commands(alloc, script);
    put(alloc, job, kept);
    status
}

/// Hands the answers over that were not handed over yet. They go into `text`, and the number of their bytes into `size`.
///
/// Returns ACCEPTED; BUFFER_TOO_SMALL, and then `size` alone is written, and the answers are still kept; or NO_JOB, and then nothing is written.
#[tactic(auto, using(crate::proofs::KeptLaws::on_a_job, crate::proofs::KeptLaws::on_no_job, crate::proofs::KeptLaws::there_was_none, crate::proofs::KeptLaws::answers_on_a_job))]
pub fn answers(alloc: Global, job: &mut JobHandle, text: &mut [u8], size: &mut usize) -> u32
    ensures no_job { NeedsJob job.old.value result }
    ensures done { OnJob (HandsAnswers text.old text.new size.new) job.old.value job.new.value result }
    ensures text { KeepsWithoutJob result text.old text.new }
    ensures size { KeepsWithoutJob result size.old size.new }
{
    let Some(mut kept) = take_out(alloc, job) else {
        return NO_JOB;
    };
    let status = kept.answers(text, size);
    put(alloc, job, kept);
    status
}

/// Hands the bytes of the file over that went out since the last time. They go into `dvi`, and their number into `size`.
///
/// Returns ACCEPTED; BUFFER_TOO_SMALL, and then `size` alone is written, and the bytes are handed over by a later call; or NO_JOB, and then nothing
/// is written.
#[tactic(auto, using(crate::proofs::KeptLaws::on_a_job, crate::proofs::KeptLaws::on_no_job, crate::proofs::KeptLaws::there_was_none, crate::proofs::KeptLaws::take_on_a_job))]
pub fn take(alloc: Global, job: &mut JobHandle, dvi: &mut [u8], size: &mut usize) -> u32
    ensures no_job { NeedsJob job.old.value result }
    ensures done { OnJob (HandsBytes dvi.old dvi.new size.new) job.old.value job.new.value result }
    ensures dvi { KeepsWithoutJob result dvi.old dvi.new }
    ensures size { KeepsWithoutJob result size.old size.new }
{
    let Some(mut kept) = take_out(alloc, job) else {
        return NO_JOB;
    };
    let status = kept.take(dvi, size);
    put(alloc, job, kept);
    status
}

/// Hands the items of the box in a register over, as rows: a row for the box, and then its items, an inner box before its own items. The rows go
/// into `items`, the texts of its specials, one after the other, into `text`, and the numbers of both into `sizes`. A void register has no rows. It
/// takes no memory, and the job is as it was.
///
/// Returns ACCEPTED; BUFFER_TOO_SMALL, and then `sizes` alone is written; NO_JOB, or OUT_OF_RANGE for a register above 32,767, and then nothing is
/// written.
pub fn items(
    alloc: Global,
    job: &mut JobHandle,
    register: u32,
    items: &mut [BoxItem],
    text: &mut [u8],
    sizes: &mut ItemSizes,
) -> u32
    ensures no_job { NeedsJob job.old.value result }
    ensures range { RefusesRegister job.old.value register result }
    ensures done { OnJob (HandsItems register (item_outputs items.old text.old) (item_outputs items.new text.new) sizes.new)
        job.old.value job.new.value result }
    ensures same { job.new.value ≡ job.old.value }
    ensures items { KeepsUnlisted result items.old items.new }
    ensures text { KeepsUnlisted result text.old text.new }
    ensures sizes { KeepsUnlisted result sizes.old sizes.new }
{
    let Some(kept) = take_out(alloc, job) else {
        return NO_JOB;
    };
    let status = kept.items(register, items, text, sizes);
    put(alloc, job, kept);
    status
}

/// Writes the end of the file. The last of the answers is the `end:` line. After an end that was accepted the job takes no commands: each is answered
/// JobOver.
///
/// Returns ACCEPTED, REFUSED or REFUSED_MEMORY, and then the answer is kept; ANSWERS_LOST, and then memory was refused for its text; or NO_JOB, and
/// then nothing changed.
#[tactic(auto, using(crate::proofs::KeptLaws::on_a_job, crate::proofs::KeptLaws::on_no_job, crate::proofs::KeptLaws::there_was_none, crate::proofs::KeptLaws::finish_on_a_job))]
pub fn finish(alloc: Global, job: &mut JobHandle) -> u32
    ensures no_job { NeedsJob job.old.value result }
    ensures done { OnJob FinishesKept job.old.value job.new.value result }
{
    let Some(mut kept) = take_out(alloc, job) else {
        return NO_JOB;
    };
    let status = kept.finish();
    put(alloc, job, kept);
    status
}

/// Runs a piece of a script, as `commands` does, and writes the row of each reply to the front of `rows`, and their number into `count`. A bad
/// piece has one row. No answer is kept, and those that are kept stay.
///
/// Returns ACCEPTED, REFUSED or REFUSED_MEMORY; BUFFER_TOO_SMALL, and then nothing was run, and `count` alone is written: the number of rows that
/// are needed; NO_JOB or OUT_OF_MEMORY, and then nothing changed.
#[tactic(auto, using(crate::proofs::KeptLaws::on_a_job, crate::proofs::KeptLaws::on_no_job, crate::proofs::KeptLaws::there_was_none))]
pub fn run(
    alloc: Global,
    job: &mut JobHandle,
    script: &[u8],
    rows: &mut [ReplyRow],
    count: &mut usize,
) -> u32
    ensures no_job { NeedsJob job.old.value result }
    ensures done { OnJob (RepliesTo script.now (row_space rows.old count.old) (row_space rows.new count.new)) job.old.value job.new.value result }
    ensures rows { KeepsWithoutJob result rows.old rows.new }
    ensures count { KeepsWithoutJob result count.old count.new }
{
    let Some(mut kept) = take_out(alloc, job) else {
        return NO_JOB;
    };
    let status = kept.run(alloc, script, rows, count);
    put(alloc, job, kept);
    status
}

/// Writes the end of the file, as `finish` does, and the row of its reply. No answer is kept, and those that are kept stay.
///
/// Returns ACCEPTED, REFUSED or REFUSED_MEMORY; or NO_JOB, and then nothing changed.
#[tactic(auto, using(crate::proofs::KeptLaws::on_a_job, crate::proofs::KeptLaws::on_no_job, crate::proofs::KeptLaws::there_was_none, crate::proofs::KeptLaws::end_on_a_job))]
pub fn end(alloc: Global, job: &mut JobHandle, row: &mut ReplyRow) -> u32
    ensures no_job { NeedsJob job.old.value result }
    ensures done { OnJob (RepliesToEnd row.new) job.old.value job.new.value result }
    ensures row { KeepsWithoutJob result row.old row.new }
{
    let Some(mut kept) = take_out(alloc, job) else {
        return NO_JOB;
    };
    let status = kept.end(row);
    put(alloc, job, kept);
    status
}

/// Gives all memory of a job back. The handle is null then. It may be null before.
pub fn free(alloc: Global, job: &mut JobHandle)
    ensures { job.new.value ≡ None }
{
    let _kept = take_out(alloc, job);
}
