//! A job that is kept, with the answers and the bytes that were not handed over yet.

ghost use Rattle.std.specs.Prelude.{◌≡◌, ◌<◌, ◌⊎◌, [], ◌∷◌, length, drop, if◌then◌else◌};
ghost use Rattle.boxglue_calls.specs.Buffers.{Holds};
ghost use Rattle.boxglue_calls.specs.Rows.{bad_row};

use crate::buffers::hand_over;
use crate::jobs::numbering::{line_count, number_after, number_on};
use crate::jobs::replied::reply_to_each;
use crate::jobs::rows::{ReplyRow, bad_row, end_row};
use crate::jobs::status::ANSWERS_LOST;
use crate::run_status::{outcome_status, reply_status};
use crate::status::{ACCEPTED, BUFFER_TOO_SMALL, OUT_OF_MEMORY, OUT_OF_RANGE, REFUSED};
use box_items::{BoxItem, ItemSizes, count_items, write_items};
use boxglue_program::{
    Cause, FontFile, Line, Memory, ScriptFault, push_end_line, push_script_refusal, read_script,
    run_lines,
};
use job_core::Job;
use job_machine::Register;
use std::alloc::{AllocError, Global};
use std::marker::Model;

/// A job on a device in memory, which keeps all bytes of the file.
#[derive(Drop)]
pub struct KeptJob {
    job: Job<Memory>,
    lines: usize,
    answers: Vec<u8>,
    taken: usize,
}

impl Model for KeptJob {
    ghost use Rattle.boxglue_calls.specs.Jobs.{KeptState};
    ghost use Rattle.boxglue_calls.specs.Private.KeptCode.{coded_kept};

    ghost Value = { KeptState };

    ghost coded = { coded_kept };

    ghost view = { λ kept. record { job = kept.job; lines = kept.lines; answers = kept.answers.items; taken = kept.taken } };
}

/// The bytes after the first `taken`.
fn bytes_after(bytes: &[u8], taken: usize) -> &[u8]
    ensures { result.now ≡ drop taken bytes.now }
{
    &bytes[taken.min(bytes.len())..]
}

/// Writes the row of a piece that is refused for the line with this number.
fn refuse_in_rows(line: usize, cause: Cause, rows: &mut [ReplyRow]) -> u32
    ensures { (Holds rows.old rows.new (bad_row line cause ∷ []) × (result ≡ 1)) ⊎ ((length rows.old < 1) × (rows.new ≡ rows.old) × (result ≡ 4)) }
{
    if rows.is_empty() {
        return BUFFER_TOO_SMALL;
    }
    rows[0] = bad_row(line, cause);
    REFUSED
}

/// The status of what was run, which is this one where its answers were kept.
fn kept_status(kept: bool, done: u32) -> u32
    ensures { result ≡ (if kept then done else 10) }
{
    if kept { done } else { ANSWERS_LOST }
}

impl KeptJob {
    ghost use Rattle.std.specs.Prelude.{◌≡◌, ◌≢◌, ◌≤◌, ◌↔◌, ◌⊎◌, ◌++◌, List, ℕ, [], length, IfOk, IfSome};
    ghost use Rattle.node_core.specs.declared.limits.TheConstants.{REGISTERS};
    ghost use Rattle.boxglue_calls.specs.Items.{HandsItems, item_outputs};
    ghost use Rattle.boxglue_program.specs.Texts.{script_refusal_text};
    ghost use Rattle.boxglue_script.specs.Script.{IsScript};
    ghost use Rattle.boxglue_calls.specs.Jobs.{IsNewJob};
    ghost use Rattle.boxglue_calls.specs.Pieces.{Answers, DoesCommands, FinishesKept, HandsAnswers, HandsBytes};
    ghost use Rattle.boxglue_calls.specs.Replies.{RepliesTo, RepliesToEnd, RepliesToPiece};

    /// A new job with these font files.
    pub fn new(alloc: Global, files: &[FontFile]) -> Result<KeptJob, AllocError>
        ensures { IfOk result (IsNewJob files.now) }
    {
        match Job::new(alloc, Memory::new(alloc), files) {
            Ok(job) => Ok(KeptJob {
                job,
                lines: 0,
                answers: Vec::new(alloc),
                taken: 0,
            }),
            Err(_) => Err(AllocError),
        }
    }

    /// Answers a piece that is refused, with the number of its first bad line.
    fn refuse(&mut self, number: usize, cause: Cause) -> u32
        ensures { ((self.new ≡ record self.old { answers = self.old.answers ++ script_refusal_text number cause }) × (result ≡ 1))
            ⊎ ((self.new ≡ self.old) × (result ≡ 2)) }
    {
        match push_script_refusal(number, cause, &mut self.answers) {
            Ok(()) => REFUSED,
            Err(_) => OUT_OF_MEMORY,
        }
    }

    /// Runs a piece of a script, which is whole lines. It is read first, and where it is bad, no line of it is run.
    pub fn commands(&mut self, alloc: Global, script: &[u8]) -> u32
        ensures { DoesCommands script.now self.old self.new result }
    {
        let mut lines = match read_script(alloc, script) {
            Ok(lines) => lines,
            Err(ScriptFault::OutOfMemory) => return OUT_OF_MEMORY,
            Err(ScriptFault::BadScript { line, cause }) => {
                return self.refuse(number_after(self.lines, line), cause);
            }
        };
        number_on(self.lines, &mut lines);
        let run = run_lines(&mut self.job, &lines, &mut self.answers);
        self.lines = number_after(self.lines, line_count(script));
        kept_status(run.are_answers_kept, outcome_status(run.outcome))
    }

    /// Runs the lines of a piece of a script, and writes the rows of their replies.
    fn reply_to_piece(&mut self, script: &[u8], lines: &mut [Line], rows: &mut [ReplyRow]) -> u32
        requires piece { IsScript script.now lines.old }
        requires space { length lines.old ≤ length rows.old }
        ensures { (count : ℕ) → RepliesToPiece script.now (record { rows = rows.old; count = count })
            (record { rows = rows.new; count = length lines.old }) self.old self.new result }
    {
        number_on(self.lines, lines);
        let status = reply_to_each(&mut self.job, lines, rows);
        self.lines = number_after(self.lines, line_count(script));
        status
    }

    /// Runs a piece of a script, which is whole lines, and writes the rows of its replies. It is read first, and where it is bad, or there is no
    /// space for its rows, no line of it is run.
    pub fn run(
        &mut self,
        alloc: Global,
        script: &[u8],
        rows: &mut [ReplyRow],
        count: &mut usize,
    ) -> u32
        ensures { RepliesTo script.now (record { rows = rows.old; count = count.old }) (record { rows = rows.new; count = count.new })
            self.old self.new result }
    {
        let mut lines = match read_script(alloc, script) {
            Ok(lines) => lines,
            Err(ScriptFault::OutOfMemory) => return OUT_OF_MEMORY,
            Err(ScriptFault::BadScript { line, cause }) => {
                *count = 1;
                return refuse_in_rows(number_after(self.lines, line), cause, rows);
            }
        };
        *count = lines.len();
        if lines.len() > rows.len() {
            return BUFFER_TOO_SMALL;
        }
        self.reply_to_piece(script, &mut lines, rows)
    }

    /// Hands the answers over that were not handed over yet.
    pub fn answers(&mut self, text: &mut [u8], size: &mut usize) -> u32
        ensures { HandsAnswers text.old text.new size.new self.old self.new result }
    {
        *size = self.answers.len();
        let status = hand_over(&self.answers, text, ACCEPTED);
        if status == ACCEPTED {
            self.answers.clear();
        }
        status
    }

    /// Hands the bytes over that went out since the last time.
    pub fn take(&mut self, dvi: &mut [u8], size: &mut usize) -> u32
        ensures { HandsBytes dvi.old dvi.new size.new self.old self.new result }
    {
        let bytes = self.job.device().bytes();
        let rest = bytes_after(bytes, self.taken);
        *size = rest.len();
        let status = hand_over(rest, dvi, ACCEPTED);
        if status == ACCEPTED {
            self.taken = bytes.len();
        }
        status
    }

    /// Hands the items of the box in a register over, as rows, with the texts of its specials.
    pub fn items(
        &self,
        register: u32,
        items: &mut [BoxItem],
        text: &mut [u8],
        sizes: &mut ItemSizes,
    ) -> u32
        ensures done { HandsItems register (item_outputs items.old text.old) (item_outputs items.new text.new) sizes.new self.now self.now result }
        ensures range { result ≡ 6 ↔ REGISTERS ≤ register }
        ensures job { result ≢ 8 }
        ensures items { result ≡ 6 → items.new ≡ items.old }
        ensures text { result ≡ 6 → text.new ≡ text.old }
        ensures sizes { result ≡ 6 → sizes.new ≡ sizes.old }
    {
        let Some(register) = Register::try_new(u64::from(register)) else {
            return OUT_OF_RANGE;
        };
        let Some(box_node) = self.job.box_in(register) else {
            *sizes = ItemSizes { items: 0, text: 0 };
            return ACCEPTED;
        };
        *sizes = count_items(box_node);
        if write_items(box_node, items, text) {
            return ACCEPTED;
        }
        BUFFER_TOO_SMALL
    }

    /// Writes the end of the file.
    pub fn finish(&mut self) -> u32
        ensures { FinishesKept self.old self.new result }
    {
        let end = self.job.finish();
        let kept = push_end_line(&end, &mut self.answers).is_ok();
        kept_status(kept, reply_status(&end))
    }

    /// Writes the end of the file, and the row of its reply.
    pub fn end(&mut self, row: &mut ReplyRow) -> u32
        ensures { RepliesToEnd row.new self.old self.new result }
    {
        let ended = self.job.finish();
        *row = end_row(&ended);
        reply_status(&ended)
    }
}
