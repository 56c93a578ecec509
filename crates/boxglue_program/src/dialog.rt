//! A job that is given lines as they come, and the answers that wait for a client.

ghost use Rattle.std.specs.Prelude.{◌≡◌, ◌++◌, ◌∷◌, ◌<◌, ◌≤◌, ◌+◌, ◌^◌, ◌&&◌, true, [], ℕ, List, length, Result, is_ok, IfOk, OnOk, OnErr, vec_len};
ghost use Rattle.std.specs.Str.Lines.{lines};
ghost use Rattle.job_machine.specs.declared.replies.Refusal.{Refusal as ARefusal};
ghost use Rattle.page_core.specs.declared.summary.Summary.{Summary as ASummary};
ghost use Rattle.dvi_write.specs.Writing.{GoesOn};
ghost use Rattle.job_core.specs.Jobs.{writing_of};
ghost use Rattle.boxglue_program.specs.Texts.{end_line};
ghost use Rattle.boxglue_program.specs.Sessions.{AnswersLines, DialogView, EndsRun, IsSent, StopsIn};
ghost use Rattle.boxglue_program.specs.Private.Dialogs.{dialog_of, outbox_of, Sends};

use crate::run::run_lines;
use crate::texts::{ANSWER_SIZE, push_end_line, push_script_refusal};
use crate::writing::write_text;
use boxglue_script::{Line, LineContent, first_line, read_line};
use job_core::{Device, Job};
use std::alloc::{AllocError, Global};
use std::io::Write;
use std::marker::Model;
use std::slice::from_ref;

/// Space for the answers that wait.
pub(crate) const OUTBOX_SIZE: usize = 65_536;

/// Runs a line on a job after so many lines, and appends its answer, if it has one. Returns whether it was not refused. If memory is refused, nothing
/// was run, and nothing is appended.
fn answer_line<D: Device>(
    alloc: Global,
    job: &mut Job<D>,
    before: usize,
    line: &[u8],
    answers: &mut Vec<u8>,
) -> Result<bool, AllocError>
    requires countable { before + 1 < 2 ^ 64 }
    ensures ok { IfOk result (λ accepted. (text : List ℕ) × (answers.new.items ≡ answers.old.items ++ text)
        × AnswersLines (dialog_of job.old before true) (line.now ∷ []) text (dialog_of job.new (before + 1) accepted)) }
    ensures unchanged { OnErr result (job.new ≡ job.old) }
    ensures cut { OnErr result (answers.new.items ≡ answers.old.items) }
{
    match read_line(alloc, line)? {
        LineContent::Nothing => Ok(true),
        LineContent::Command(command) => {
            answers.reserve(ANSWER_SIZE)?;
            let line = Line {
                number: before + 1,
                command,
            };
            let run = run_lines(job, from_ref(&line), answers);
            Ok(run.outcome.is_accepting())
        }
        LineContent::Bad(cause) => {
            push_script_refusal(before + 1, cause, answers)?;
            Ok(false)
        }
    }
}

/// A job, how many lines of its input were run, and whether nothing was refused.
#[derive(Drop)]
pub(crate) struct Dialog<D: Device> {
    pub(crate) alloc: Global,
    pub(crate) job: Job<D>,
    pub(crate) lines: usize,
    pub(crate) accepted: bool,
}

impl<D: Device> Model for Dialog<D> {
    ghost use Rattle.boxglue_program.specs.Sessions.{DialogView};
    ghost use Rattle.boxglue_program.specs.Private.Dialogs.{coded_dialog, dialog_of};

    ghost Value = { DialogView };

    ghost coded = { coded_dialog };

    ghost view = { λ d. dialog_of d.job d.lines d.accepted };
}

impl<D: Device> Dialog<D> {
    /// Runs the next line, and appends its answer, if it has one. If memory is refused, nothing was run, and nothing is appended.
    fn answer(&mut self, line: &[u8], answers: &mut Vec<u8>) -> Result<(), AllocError>
        requires countable { self.old.lines + 1 < 2 ^ 64 }
        ensures ok { OnOk result ((text : List ℕ) × (answers.new.items ≡ answers.old.items ++ text)
            × AnswersLines self.old (line.now ∷ []) text self.new) }
        ensures unchanged { OnErr result (self.new ≡ self.old) }
        ensures cut { OnErr result (answers.new.items ≡ answers.old.items) }
        ensures counted { self.new.lines ≤ self.old.lines + 1 }
    {
        let accepted = answer_line(self.alloc, &mut self.job, self.lines, line, answers)?;
        self.lines += 1;
        self.accepted &= accepted;
        Ok(())
    }

    /// Finishes the job, and appends the last line. Returns whether nothing was refused in all. If memory is refused, the job is not finished.
    fn finish(&mut self, answers: &mut Vec<u8>) -> Result<bool, AllocError>
        ensures ended { IfOk result (λ accepted. (end : Result ASummary ARefusal)
            × EndsRun self.old.job end self.new.job.failed self.new.job.bytes_written
            × (answers.new.items ≡ answers.old.items ++ end_line end) × (accepted ≡ (self.old.accepted && is_ok end))) }
        ensures none { OnErr result (self.new ≡ self.old) }
        ensures cut { OnErr result (answers.new.items ≡ answers.old.items) }
        ensures goes_on { GoesOn (writing_of self.old.job) (writing_of self.new.job) }
    {
        answers.reserve(ANSWER_SIZE)?;
        let end = self.job.finish();
        let Ok(()) = push_end_line(&end, answers) else {
            unreachable!()
        };
        Ok(self.accepted & end.is_ok())
    }
}

/// Answers that wait to be written, and whether the client reads.
#[derive(Drop)]
pub(crate) struct Outbox {
    pub(crate) waiting: Vec<u8>,
    pub(crate) reads: bool,
}

/// Writes a text if the client reads, and returns whether it still does.
fn send_answers<W: Write>(reads: bool, text: &[u8], writer: &mut W) -> bool
    ensures { IsSent reads result (W.contents writer.old) (W.contents writer.new) text.now }
{
    if !reads {
        return false;
    }
    write_text(writer, text).is_ok()
}

impl Outbox {
    /// Writes the answers that wait, if the client reads.
    fn send<W: Write>(&mut self, writer: &mut W)
        ensures sent { IsSent self.old.reads self.new.reads (W.contents writer.old) (W.contents writer.new) self.old.waiting.items }
        ensures empty { self.new.waiting.items ≡ [] }
    {
        self.reads = send_answers(self.reads, &self.waiting, writer);
        self.waiting.clear();
    }

    /// Writes the answers that wait if the space for another one is not there.
    fn make_space<W: Write>(&mut self, writer: &mut W)
        ensures sent { Sends (outbox_of self.old.waiting.items self.old.reads) (outbox_of self.new.waiting.items self.new.reads)
            (W.contents writer.old) (W.contents writer.new) [] }
    {
        if self.waiting.len() <= OUTBOX_SIZE - ANSWER_SIZE {
            return;
        }
        self.send(writer);
    }

    /// Runs the lines of a text. Answers are written whenever the space for another one is not there.
    fn answer_lines<D: Device, W: Write>(
        &mut self,
        dialog: &mut Dialog<D>,
        text: &[u8],
        writer: &mut W,
    ) -> Result<(), AllocError>
        requires countable { dialog.old.lines + length text.now < 2 ^ 64 }
        ensures ok { OnOk result ((answers : List ℕ)
            × AnswersLines dialog.old (lines text.now) answers dialog.new
            × Sends (outbox_of self.old.waiting.items self.old.reads) (outbox_of self.new.waiting.items self.new.reads) (W.contents writer.old)
            (W.contents writer.new) answers) }
        ensures stopped { OnErr result ((answers : List ℕ)
            × StopsIn text.now dialog.old answers dialog.new
            × Sends (outbox_of self.old.waiting.items self.old.reads) (outbox_of self.new.waiting.items self.new.reads) (W.contents writer.old)
            (W.contents writer.new) answers) }
        ensures counted { dialog.new.lines ≤ dialog.old.lines + length text.now }
    {
        let mut rest = text;
        while !rest.is_empty() {
            let (line, after) = first_line(rest);
            self.make_space(writer);
            dialog.answer(line, &mut self.waiting)?;
            rest = after;
        }
        Ok(())
    }

    /// Runs the lines of a text, and writes their answers.
    pub(crate) fn answer<D: Device, W: Write>(
        &mut self,
        dialog: &mut Dialog<D>,
        text: &[u8],
        writer: &mut W,
    ) -> Result<(), AllocError>
        requires countable { dialog.old.lines + length text.now < 2 ^ 64 }
        requires empty { self.old.waiting.items ≡ [] }
        ensures ok { OnOk result ((answers : List ℕ)
            × AnswersLines dialog.old (lines text.now) answers dialog.new
            × IsSent self.old.reads self.new.reads (W.contents writer.old) (W.contents writer.new) answers) }
        ensures stopped { OnErr result ((answers : List ℕ)
            × StopsIn text.now dialog.old answers dialog.new
            × IsSent self.old.reads self.new.reads (W.contents writer.old) (W.contents writer.new) answers) }
        ensures emptied { self.new.waiting.items ≡ [] }
        ensures counted { dialog.new.lines ≤ dialog.old.lines + length text.now }
    {
        let ran = self.answer_lines(dialog, text, writer);
        self.send(writer);
        ran
    }

    /// Runs the lines of a text, finishes the job, and writes all answers. Returns whether nothing was refused in all.
    pub(crate) fn answer_last<D: Device, W: Write>(
        &mut self,
        dialog: &mut Dialog<D>,
        text: &[u8],
        writer: &mut W,
    ) -> Result<bool, AllocError>
        requires countable { dialog.old.lines + length text.now < 2 ^ 64 }
        requires empty { self.old.waiting.items ≡ [] }
        ensures ended { IfOk result (λ accepted. (answers : List ℕ) × (middle : DialogView) × (end : Result ASummary ARefusal)
            × AnswersLines dialog.old (lines text.now) answers middle
            × EndsRun middle.job end dialog.new.job.failed dialog.new.job.bytes_written
            × IsSent self.old.reads self.new.reads (W.contents writer.old) (W.contents writer.new) (answers ++ end_line end)
            × (accepted ≡ (middle.accepted && is_ok end)) × GoesOn (writing_of middle.job) (writing_of dialog.new.job)) }
        ensures stopped { OnErr result ((answers : List ℕ)
            × StopsIn text.now dialog.old answers dialog.new
            × IsSent self.old.reads self.new.reads (W.contents writer.old) (W.contents writer.new) answers) }
    {
        self.answer(dialog, text, writer)?;
        self.finish(dialog, writer)
    }

    /// Finishes the job, and writes the last line. Returns whether nothing was refused in all.
    fn finish<D: Device, W: Write>(
        &mut self,
        dialog: &mut Dialog<D>,
        writer: &mut W,
    ) -> Result<bool, AllocError>
        requires empty { self.old.waiting.items ≡ [] }
        ensures ended { IfOk result (λ accepted. (end : Result ASummary ARefusal)
            × EndsRun dialog.old.job end dialog.new.job.failed dialog.new.job.bytes_written
            × IsSent self.old.reads self.new.reads (W.contents writer.old) (W.contents writer.new) (end_line end)
            × (accepted ≡ (dialog.old.accepted && is_ok end))) }
        ensures none { OnErr result ((dialog.new ≡ dialog.old)
            × IsSent self.old.reads self.new.reads (W.contents writer.old) (W.contents writer.new) []) }
        ensures goes_on { GoesOn (writing_of dialog.old.job) (writing_of dialog.new.job) }
    {
        let ended = dialog.finish(&mut self.waiting);
        self.send(writer);
        ended
    }
}
