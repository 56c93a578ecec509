//! Laws of pieces of scripts.

ghost use Rattle.std.specs.Prelude.{◌≡◌, ◌<◌, ◌≤◌, ◌+◌, ◌-◌, ◌^◌, ◌++◌, ℕ, List, [], length, min, take};
ghost use Rattle.std.specs.Str.Lines.{lines};
ghost use Rattle.tfm_core.specs.NamedBytes.{NamedBytes};
ghost use Rattle.job_core.specs.Jobs.{RunsTo};
ghost use Rattle.boxglue_script.specs.LineContents.{IsWhole};
ghost use Rattle.boxglue_script.specs.Script.{IsScript};
ghost use Rattle.boxglue_program.specs.Runs.{commands_of, line_numbers};
ghost use Rattle.boxglue_program.specs.Texts.{answer_lines};
ghost use Rattle.boxglue_calls.specs.Jobs.{HasHanded, IsNewJob, KeptState, sent_by};
ghost use Rattle.boxglue_calls.specs.Numbers.{line_count, line_feeds, number_after, numbered_lines};
ghost use Rattle.boxglue_calls.specs.Pieces.{DoesCommands, FinishesKept, HandsAnswers, HandsBytes, RunsLines};
ghost use Rattle.boxglue_calls.specs.Replies.{NeedsRows, RepliesTo, RepliesToEnd, RowBuffer};
ghost use Rattle.boxglue_calls.specs.Rows.{reply_rows};
ghost use Rattle.boxglue_calls.specs.declared.jobs.rows.ReplyRow.{ReplyRow};

/// Two pieces of a script are one run of the commands of both, and their answers, one after the other, are the answers of all lines. So are the
/// rows of their replies.
pub fn pieces_are_one_run()
    ensures run { (old middle new : KeptState) (script more : List ℕ) (first : RunsLines old script middle) (second : RunsLines middle more new)
        → RunsTo old.job (commands_of (first.lines ++ second.lines)) (first.replies ++ second.replies) new.job }
    ensures answers { (old middle new : KeptState) (script more : List ℕ) (first : RunsLines old script middle) (second : RunsLines middle more new)
        → answer_lines (line_numbers (numbered_lines old.lines first.lines)) first.replies
        ++ answer_lines (line_numbers (numbered_lines middle.lines second.lines)) second.replies
        ≡ answer_lines (line_numbers (numbered_lines old.lines first.lines ++ numbered_lines middle.lines second.lines))
        (first.replies ++ second.replies) }
    ensures rows { (old middle new : KeptState) (script more : List ℕ) (first : RunsLines old script middle) (second : RunsLines middle more new)
        → reply_rows (line_numbers (numbered_lines old.lines first.lines)) first.replies
        ++ reply_rows (line_numbers (numbered_lines middle.lines second.lines)) second.replies
        ≡ reply_rows (line_numbers (numbered_lines old.lines first.lines ++ numbered_lines middle.lines second.lines))
        (first.replies ++ second.replies) }
{}

/// The lines of a text are counted, up to the greatest number of the machine.
pub fn lines_are_counted()
    ensures { (text : List ℕ) → line_count text ≡ min (length (lines text)) (2 ^ 64 - 1) }
{}

/// Two pieces of a script, of which the first ends with a whole line, are one script: its lines are those of the first piece, and then those of the
/// second, whose numbers go on after the lines of the first. A job gives them the numbers that it would give those of that script, and counts as
/// many lines.
pub fn pieces_are_one_script()
    ensures script { (old middle new : KeptState) (script more : List ℕ) (first : RunsLines old script middle) (second : RunsLines middle more new)
        → IsWhole script
        → length (lines (script ++ more)) < 2 ^ 64 → IsScript (script ++ more) (first.lines ++ numbered_lines (line_count script) second.lines) }
    ensures numbers { (old middle new : KeptState) (script more : List ℕ) (first : RunsLines old script middle) (second : RunsLines middle more new)
        → numbered_lines old.lines first.lines ++ numbered_lines middle.lines second.lines
        ≡ numbered_lines old.lines (first.lines ++ numbered_lines (line_count script) second.lines) }
    ensures count { (old middle new : KeptState) (script more : List ℕ) (first : RunsLines old script middle) (second : RunsLines middle more new)
        → IsWhole script
        → new.lines ≡ number_after old.lines (line_count (script ++ more)) }
{}

/// As many rows as a piece of a script has line feeds, and one, suffice for its replies.
pub fn rows_suffice()
    ensures { (script : List ℕ) (count : ℕ) → NeedsRows script count → count ≤ line_feeds script + 1 }
{}

/// What `take` hands over, one call after the other, are the bytes that the job has sent: none is left out, none comes twice, and none is another
/// later.
pub fn bytes_are_handed_over_once()
    ensures begins { (files : List NamedBytes) (new : KeptState) → IsNewJob files new → HasHanded new [] }
    ensures goes_on { (dvi_old dvi_new handed : List ℕ) (size : ℕ) (old new : KeptState) → HasHanded old handed
        → HandsBytes dvi_old dvi_new size old new 0
        → HasHanded new (handed ++ take size dvi_new) }
    ensures all { (dvi_old dvi_new handed : List ℕ) (size : ℕ) (old new : KeptState) → HasHanded old handed
        → HandsBytes dvi_old dvi_new size old new 0
        → handed ++ take size dvi_new ≡ sent_by new.job }
    ensures waits { (dvi_old dvi_new handed : List ℕ) (size : ℕ) (old new : KeptState) → HasHanded old handed
        → HandsBytes dvi_old dvi_new size old new 4 → HasHanded new handed }
    ensures commands { (script handed : List ℕ) (old new : KeptState) (status : ℕ) → HasHanded old handed → DoesCommands script old new status
        → HasHanded new handed }
    ensures replies { (script handed : List ℕ) (before after : RowBuffer) (old new : KeptState) (status : ℕ) → HasHanded old handed
        → RepliesTo script before after old new status → HasHanded new handed }
    ensures answers { (text_old text_new handed : List ℕ) (size : ℕ) (old new : KeptState) (status : ℕ) → HasHanded old handed
        → HandsAnswers text_old text_new size old new status
        → HasHanded new handed }
    ensures finish { (handed : List ℕ) (old new : KeptState) (status : ℕ) → HasHanded old handed → FinishesKept old new status
        → HasHanded new handed }
    ensures end { (handed : List ℕ) (row : ReplyRow) (old new : KeptState) (status : ℕ) → HasHanded old handed
        → RepliesToEnd row old new status → HasHanded new handed }
{}
