//! Running a script.

ghost use Rattle.std.specs.Prelude.{◌≡◌, ◌<◌, ◌≤◌, ◌+◌, ◌*◌, ◌^◌, ◌++◌, ℕ, false, true, List, [], length, Some, Result, IfOk, IfErr, IfSome, vec_len};
ghost use Rattle.std.specs.Prelude.{vec_capacity};
ghost use Rattle.std.specs.Io.KnownBytes.{Appends};
ghost use Rattle.job_machine.specs.declared.replies.Refusal.{Refusal as ARefusal};
ghost use Rattle.page_core.specs.declared.summary.Summary.{Summary as ASummary};
ghost use Rattle.job_machine.specs.Reply.{Reply};
ghost use Rattle.dvi_device.specs.Pasts.{KeepsPast};
ghost use Rattle.dvi_device.specs.Seen.{device_view};
ghost use Rattle.dvi_write.specs.Writing.{GoesOn};
ghost use Rattle.job_core.specs.Headline.{WasRun};
ghost use Rattle.job_core.specs.Jobs.{RunsTo, due_bytes, writing_of};
ghost use Rattle.job_core.specs.Sent.{WasSent};
ghost use Rattle.boxglue_program.specs.Reports.{any_bytes, written_bytes};
ghost use Rattle.boxglue_program.specs.Texts.{answer_line, answer_lines, answers_text, end_line};
ghost use Rattle.boxglue_script.specs.Blocks.{lines_of};
ghost use Rattle.boxglue_program.specs.Outcomes.{replies_outcome, run_outcome, worse_outcome};
ghost use Rattle.boxglue_program.specs.Runs.{commands_of, line_numbers, fault_view, IsAnswered, IsUnanswered, IsLeft, IsAnswerOfRest};
ghost use Rattle.boxglue_program.specs.Runs.{IsAnsweredOverRest, IsLeftOverRest};
ghost use Rattle.boxglue_program.specs.Private.NumberedLines.{HoldsTens};

use crate::numbered_line::NumberedLine;
use crate::outcome::Outcome;
use crate::texts::{push_answer_line, push_end_line, script_refusal_text};
use crate::writing::{UnwrittenText, write_text};
use boxglue_script::{Line, LineBlocks, ScriptFault, read_blocks};
use job_core::{Answer, Device, FontFile, Job, Refusal, Reply, Rest, Summary};
use std::alloc::Global;
use std::io::Write;
use std::mem::replace;
use thiserror::Error;

/// Why the answers of a script were not written. Each case returns the device, which shows what was sent.
#[derive(Debug, Drop, Error)]
pub enum RunFault<D> {
    /// A growth of memory was refused. Either nothing was run, or the whole script was run and the job was finished. Nothing was written.
    #[error("a growth of memory was refused")]
    Memory(D),
    /// The writer did not take all of the answers. It took a beginning of them, or nothing.
    #[error("the answers could not be written")]
    Answers(D),
}

/// The answers to a script, whether nothing was refused, and the device on which it was run.
#[derive(Debug, Drop)]
pub struct AnsweredScript<D> {
    pub text: Vec<u8>,
    pub accepted: bool,
    pub device: D,
}

/// Runs a script's text with these font files on a device, and returns the text of its answers, which is not written yet. A bad script is
/// refused whole: its text is its one line, and nothing is run. If memory is refused, the error is the device: nothing was run, or the whole script
/// was.
pub fn answer_script<D: Device>(
    alloc: Global,
    text: &[u8],
    files: &[FontFile],
    device: D,
) -> Result<AnsweredScript<D>, D>
    requires countable { D.failed device + 1 < 2 ^ 64 }
    requires fresh { IfSome (D.bytes_written device) (λ bytes. bytes ≡ []) }
    ensures answers { let seen = device_view D.bytes_written D.failed D.past in
        IfOk result (λ done. IsAnswered any_bytes text.now files.now (seen device) (seen done.device) done.text.items done.accepted) }
    ensures left { let seen = device_view D.bytes_written D.failed D.past in
        IfErr result (λ back. IsUnanswered any_bytes text.now files.now (seen device) (seen back)) }
    ensures sent { let seen = device_view D.bytes_written D.failed D.past in
        IfOk result (λ done. IsAnswered written_bytes text.now files.now (seen device) (seen done.device) done.text.items done.accepted) }
    ensures left_sent { let seen = device_view D.bytes_written D.failed D.past in
        IfErr result (λ back. IsUnanswered written_bytes text.now files.now (seen device) (seen back)) }
{
    let lines = match read_blocks(alloc, text) {
        Ok(lines) => lines,
        Err(ScriptFault::OutOfMemory) => return Err(device),
        Err(ScriptFault::BadScript { line, cause }) => {
            return match script_refusal_text(alloc, line, cause) {
                Ok(text) => Ok(AnsweredScript {
                    text,
                    accepted: false,
                    device,
                }),
                Err(_) => Err(device),
            };
        }
    };
    let WholeRun {
        answers,
        outcome,
        device,
    } = run_whole(alloc, lines, files, device)?;
    match answers {
        Some(text) => Ok(AnsweredScript {
            text,
            accepted: outcome.is_accepting(),
            device,
        }),
        None => Err(device),
    }
}

/// Runs a script's text with these font files on a device, and then writes the texts of its answers. A bad script is refused whole: it writes its
/// one line and runs nothing. The truth value is true if nothing was refused.
///
/// Answers are written after the job was finished or its end refused, so a writer that fails changes nothing in the file.
///
/// Errors, each with the device: Memory for a refused growth, where nothing was written, and nothing or the whole script was run; Answers if the
/// writer failed, where it has taken a beginning of the text, once.
pub fn run_script<D: Device, W: Write>(
    alloc: Global,
    text: &[u8],
    files: &[FontFile],
    device: D,
    writer: &mut W,
) -> Result<(bool, D), RunFault<D>>
    requires countable { D.failed device + 1 < 2 ^ 64 }
    requires fresh { IfSome (D.bytes_written device) (λ bytes. bytes ≡ []) }
    ensures answers { let seen = device_view D.bytes_written D.failed D.past in
        IfOk result (λ done. (answer : List ℕ) × IsAnswered any_bytes text.now files.now (seen device) (seen done.1) answer done.0
        × Appends (W.contents writer.old) (W.contents writer.new) answer) }
    ensures left { let seen = device_view D.bytes_written D.failed D.past in
        IfErr result (λ fault. IsLeft any_bytes text.now files.now (seen device) (fault_view seen fault) (W.contents writer.old)
        (W.contents writer.new)) }

    // The same with what went out by the rules of this writer, also if something failed.
    ensures sent { let seen = device_view D.bytes_written D.failed D.past in
        IfOk result (λ done. (answer : List ℕ) × IsAnswered written_bytes text.now files.now (seen device) (seen done.1) answer done.0
        × Appends (W.contents writer.old) (W.contents writer.new) answer) }
    ensures left_sent { let seen = device_view D.bytes_written D.failed D.past in
        IfErr result (λ fault. IsLeft written_bytes text.now files.now (seen device) (fault_view seen fault) (W.contents writer.old)
        (W.contents writer.new)) }
{
    let done = match answer_script(alloc, text, files, device) {
        Ok(done) => done,
        Err(device) => return Err(RunFault::Memory(device)),
    };
    let AnsweredScript {
        text: answers,
        accepted,
        device,
    } = done;
    match write_text(writer, &answers) {
        Ok(()) => Ok((accepted, device)),
        Err(UnwrittenText) => Err(RunFault::Answers(device)),
    }
}

/// Runs a script's text again over `Rest` of a device, to which these bytes were sent before, and returns that device.
///
/// Suppose that the device had reported exactly these bytes, and that the end succeeds. If they are a beginning of the file of the script's pages,
/// the device then reports exactly that file; if not, nothing was sent. The errors are those of `run_script`. In each case the device keeps what it
/// had reported, and only bytes after those sent before follow it.
///
/// If these bytes and those of the run begin one file, and the device does not fail, no answer is Device, and the end succeeds unless memory is
/// refused or a list is open.
pub fn run_rest<D: Device, W: Write>(
    alloc: Global,
    text: &[u8],
    files: &[FontFile],
    device: D,
    sent: Vec<u8>,
    writer: &mut W,
) -> Result<(bool, D), RunFault<D>>
    requires { D.failed device + 1 < 2 ^ 64 }
    ensures whole { D.bytes_written device ≡ Some sent.items
        → IfOk result (λ done. (answer : List ℕ) × IsAnswerOfRest text.now files.now sent.items (D.bytes_written done.1) answer done.0
        × Appends (W.contents writer.old) (W.contents writer.new) answer) }
    ensures answers { let seen = device_view D.bytes_written D.failed D.past in
        IfOk result (λ done. (answer : List ℕ) × IsAnsweredOverRest text.now files.now sent.items (seen device) (seen done.1) answer done.0
        × Appends (W.contents writer.old) (W.contents writer.new) answer) }
    ensures left { let seen = device_view D.bytes_written D.failed D.past in
        IfErr result (λ fault. IsLeftOverRest text.now files.now sent.items (seen device) (fault_view seen fault) (W.contents writer.old)
        (W.contents writer.new)) }
{
    match run_script(alloc, text, files, Rest::new(device, sent), writer) {
        Ok((accepted, rest)) => Ok((accepted, rest.into_device())),
        Err(RunFault::Memory(rest)) => Err(RunFault::Memory(rest.into_device())),
        Err(RunFault::Answers(rest)) => Err(RunFault::Answers(rest.into_device())),
    }
}

/// A run that was finished: the text of its answers, None if memory was refused for it; what was refused; and the device.
#[derive(Debug, Drop)]
pub struct WholeRun<D> {
    pub answers: Option<Vec<u8>>,
    pub outcome: Outcome,
    pub device: D,
}

/// Runs the lines of a script on a new job, and finishes it. If memory is refused for the job, nothing was run, and the error is the device. If it is
/// refused for a text, the run continues without texts, so that the file is the whole one.
pub fn run_whole<D: Device>(
    alloc: Global,
    lines: LineBlocks,
    files: &[FontFile],
    device: D,
) -> Result<WholeRun<D>, D>
    requires countable { D.failed device + 1 < 2 ^ 64 }
    requires fresh { IfSome (D.bytes_written device) (λ bytes. bytes ≡ []) }
    ensures ran { IfOk result (λ ran. (replies : List Reply) × (end : Result ASummary ARefusal)
        × (run : WasRun files.now (D.failed device) (commands_of (lines_of lines)) replies end (D.failed ran.device) (D.bytes_written ran.device))
        × WasSent run.middle run.last end (D.bytes_written ran.device) × KeepsPast (D.past device) (due_bytes run.last) (D.past ran.device)
        × IfSome ran.answers (λ text. text.items ≡ answers_text (line_numbers (lines_of lines)) replies end)
        × (ran.outcome ≡ run_outcome replies end)) }
    ensures none { IfErr result (λ back. back ≡ device) }
{
    let mut job = Job::new(alloc, device, files)?;
    let mut answers = Vec::new(alloc);
    let run = run_blocks(&mut job, lines, &mut answers);
    let end = job.finish();
    Ok(WholeRun {
        answers: with_end(answers, run.are_answers_kept, &end),
        outcome: run.outcome.worse(Outcome::of(&end)),
        device: job.into_device(),
    })
}

/// The answers with the last line, if all lines before it are there. None if memory is refused, or was refused before.
fn with_end(
    answers: Vec<u8>,
    are_answers_kept: bool,
    end: &Result<Summary, Refusal>,
) -> Option<Vec<u8>>
    ensures { (front : List ℕ) → (are_answers_kept ≡ true → answers.items ≡ front) → IfSome result (λ text. text.items ≡ front ++ end_line end.now) }
{
    if !are_answers_kept {
        return None;
    }
    let mut text = answers;
    push_end_line(end, &mut text).ok()?;
    Some(text)
}

/// How some lines were run.
#[derive(Clone, Copy, Debug, PartialEq, Eq)]
pub struct LinesRun {
    /// What was refused of them.
    pub outcome: Outcome,
    /// Whether the answers of all of them are there. If not, none is.
    pub are_answers_kept: bool,
}

impl LinesRun {
    /// How lines were run of which some were run so and the others after them so.
    fn then(self, next: LinesRun) -> LinesRun
        ensures outcome { result.outcome ≡ worse_outcome self.outcome next.outcome }
        ensures kept { result.are_answers_kept ≡ true → (self.are_answers_kept ≡ true) × (next.are_answers_kept ≡ true) }
    {
        LinesRun {
            outcome: self.outcome.worse(next.outcome),
            are_answers_kept: self.are_answers_kept & next.are_answers_kept,
        }
    }
}

/// Runs the lines of a script as `run_lines` does. The memory of each block is given back once its lines were run, so that their answers may take it.
fn run_blocks<D: Device>(job: &mut Job<D>, lines: LineBlocks, answers: &mut Vec<u8>) -> LinesRun
    ensures ran { (replies : List Reply) × RunsTo job.old (commands_of (lines_of lines)) replies job.new
        × (result.are_answers_kept ≡ true → answers.new.items ≡ answers.old.items ++ answer_lines (line_numbers (lines_of lines)) replies)
        × (result.outcome ≡ replies_outcome replies) }
    ensures goes_on { GoesOn (writing_of job.old) (writing_of job.new) }
{
    let LineBlocks { full, last } = lines;
    let mut run = LinesRun {
        outcome: Outcome::Accepted,
        are_answers_kept: true,
    };
    for block in full {
        let part = run_lines(job, &block, answers);
        run = run.then(part);
    }
    let end = run_lines(job, &last, answers);
    run.then(end)
}

/// Runs lines of a script in order on a job of the caller, and appends their answers, one line each, to those that are there.
///
/// Each line is answered at once, so that no command and no reply is kept for its text. Where memory for a text is refused, the lines are run all the
/// same, and no answer is appended. It is not refused where there is space for 512 bytes a line. A job that is over stays as it was: each line is
/// answered JobOver. What the device has reported stands, and only more bytes follow it.
pub fn run_lines<D: Device>(job: &mut Job<D>, lines: &[Line], answers: &mut Vec<u8>) -> LinesRun
    ensures ran { (replies : List Reply) × RunsTo job.old (commands_of lines.now) replies job.new × (length replies ≡ length lines.now)
        × (result.are_answers_kept ≡ true → answers.new.items ≡ answers.old.items ++ answer_lines (line_numbers lines.now) replies)
        × (result.are_answers_kept ≡ false → answers.new.items ≡ answers.old.items) × (result.outcome ≡ replies_outcome replies) }
    ensures space { vec_len answers.old + 512 * length lines.now ≤ vec_capacity answers.old → result.are_answers_kept ≡ true }
    ensures idle { job.old.state.over ≡ true → job.new ≡ job.old }
    ensures goes_on { GoesOn (writing_of job.old) (writing_of job.new) }
{
    let before = answers.len();
    let mut outcome = Outcome::Accepted;
    let mut are_answers_kept = true;
    let mut numbered = NumberedLine::new();
    for line in lines {
        let reply = job.step(&line.command);
        outcome = outcome.worse(Outcome::of(&reply));
        are_answers_kept = push_next_answer(
            are_answers_kept,
            &mut numbered,
            line.number,
            &reply,
            answers,
        );
    }
    if !are_answers_kept {
        answers.truncate(before);
    }
    LinesRun {
        outcome,
        are_answers_kept,
    }
}

/// Appends an answer if those before it are there. Returns whether it is there too.
///
/// Most answers are `ok`, and are appended as one piece. Any other reply is handed on as a value: for one that is handed on by reference, the caller
/// would write each reply into memory first.
#[inline(always)]
#[tactic(auto, unfolding(crate::specs::Texts::answer_line, crate::specs::Texts::answer_text))]
fn push_next_answer(
    are_answers_kept: bool,
    line: &mut NumberedLine,
    number: usize,
    reply: &Reply,
    answers: &mut Vec<u8>,
) -> bool
    requires { HoldsTens line.old }
    ensures holds { HoldsTens line.new }
    ensures ok { result ≡ true → (are_answers_kept ≡ true) × (answers.new.items ≡ answers.old.items ++ answer_line number reply.now) }
    ensures cut { result ≡ false → answers.new.items ≡ answers.old.items }
    ensures space { are_answers_kept ≡ true → vec_len answers.old + 512 ≤ vec_capacity answers.old → result ≡ true }
    ensures grown { vec_capacity answers.old ≤ vec_capacity answers.new }
    ensures short { vec_len answers.new ≤ vec_len answers.old + 512 }
{
    if !are_answers_kept {
        return false;
    }
    if let Ok(Answer::Done) = reply {
        return line.push_done(number as u64, answers).is_ok();
    }
    push_other_answer(line, number, *reply, answers)
}

/// Appends an answer with more than `ok`, and returns whether it is there. The text is moved here while it grows: as a value of this call its length
/// is not written back after each of the many short pieces.
#[inline(never)]
fn push_other_answer(
    line: &mut NumberedLine,
    number: usize,
    reply: Reply,
    answers: &mut Vec<u8>,
) -> bool
    requires { HoldsTens line.old }
    ensures holds { HoldsTens line.new }
    ensures ok { result ≡ true → answers.new.items ≡ answers.old.items ++ answer_line number reply }
    ensures cut { result ≡ false → answers.new.items ≡ answers.old.items }
    ensures space { vec_len answers.old + 512 ≤ vec_capacity answers.old → result ≡ true }
    ensures grown { vec_capacity answers.old ≤ vec_capacity answers.new }
    ensures short { vec_len answers.new ≤ vec_len answers.old + 512 }
{
    let alloc = *answers.allocator();
    let mut text = replace(answers, Vec::new(alloc));
    let pushed = push_answer_line(line, number, &reply, &mut text).is_ok();
    *answers = text;
    pushed
}
