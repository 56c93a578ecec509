//! Laws that compare the definitions of texts with known answers, a law about every run, and laws that compare a session with a run and with its
//! pieces.

ghost use Rattle.std.specs.Prelude.{◌≡◌, ◌+◌, ◌++◌, [], ℕ, Bool, List, Option, Result, is_ok, OnOk, IfSome, length, take, drop};
ghost use Rattle.std.specs.List.{list_all};
ghost use Rattle.std.specs.Str.Lines.{lines};
ghost use Rattle.job_machine.specs.declared.command.Command.{Command};
ghost use Rattle.job_machine.specs.declared.replies.Refusal.{Refusal};
ghost use Rattle.page_core.specs.declared.summary.Summary.{Summary};
ghost use Rattle.job_machine.specs.Reply.{Reply};
ghost use Rattle.tfm_core.specs.NamedBytes.{NamedBytes};
ghost use Rattle.boxglue_script.specs.declared.script.Line.{Line};
ghost use Rattle.boxglue_script.specs.declared.line_content.LineContent.{LineContent};
ghost use Rattle.boxglue_script.specs.Script.{IsScript};
ghost use Rattle.boxglue_script.specs.LineContents.{IsWhole, SayEach, lines_of_contents};
ghost use Rattle.job_core.specs.Headline.{WasRun};
ghost use Rattle.boxglue_program.specs.Rows.{OneRuleAnswers, TextAnswers};
ghost use Rattle.boxglue_program.specs.Outcomes.{is_accepting, replies_outcome, run_outcome};
ghost use Rattle.boxglue_program.specs.Reports.{written_bytes};
ghost use Rattle.boxglue_program.specs.Runs.{is_accepted, line_numbers, RanScript};
ghost use Rattle.boxglue_program.specs.Sessions.{session_text, AnswersLines, DialogView, RanSession};
ghost use Rattle.boxglue_program.specs.Texts.{answers_text, end_line};

/// The known text of the answers to the script of the one-rule page.
pub fn one_rule_answers()
    ensures { OneRuleAnswers }
{}

/// The known text of answers and refusals of fonts, texts and specials.
pub fn text_answers()
    ensures { TextAnswers }
{}

/// Nothing was refused of commands exactly where each is accepted, and of a run where its end is accepted too.
pub fn outcomes_of_replies()
    ensures commands { (replies : List Reply) → is_accepting (replies_outcome replies) ≡ list_all is_ok replies }
    ensures run { (replies : List Reply) (end : Result Summary Refusal) → is_accepting (run_outcome replies end) ≡ is_accepted replies end }
{}

/// A run without a page has sent nothing, if its end succeeded.
pub fn a_run_without_a_page_sends_nothing()
    ensures { (files : List NamedBytes) (n k : ℕ) (commands : List Command) (replies : List Reply) (end : Result Summary Refusal)
        (bytes_written : Option (List ℕ))
        (run : WasRun files n commands replies end k bytes_written) → run.middle.pages ≡ [] → OnOk end (IfSome bytes_written (λ bytes. bytes ≡ [])) }
{}

/// A session over a good script has the answers, the file and the acceptance that the run of the whole script has, and no others.
pub fn a_session_over_a_good_script()
    ensures texts { (text : List ℕ) (found : List Line) (contents : List LineContent) (replies : List Reply) (end : Result Summary Refusal)
        → IsScript text found → SayEach (lines text) contents
        → length replies ≡ length found → session_text 1 contents replies ++ end_line end ≡ answers_text (line_numbers found) replies end }
    ensures run { (text answer : List ℕ) (found : List Line) (files : List NamedBytes) (n k : ℕ) (bytes_written : Option (List ℕ)) (accepted : Bool)
        → IsScript text found
        → RanSession written_bytes text files n k bytes_written answer accepted
        → RanScript written_bytes text files n k bytes_written answer accepted }
    ensures session { (text answer : List ℕ) (files : List NamedBytes) (n k : ℕ) (bytes_written : Option (List ℕ)) (accepted : Bool)
        → RanScript written_bytes text files n k bytes_written answer accepted
        → RanSession written_bytes text files n k bytes_written answer accepted }
{}

/// What is read in two pieces, the first of them with whole lines, is run and answered as what is read at once: the answers are those to the first
/// piece and then those to the second, whose lines are counted on.
pub fn a_session_in_pieces()
    ensures texts { (text more : List ℕ) (first second contents : List LineContent) (replies : List Reply) → IsWhole text → SayEach (lines text) first
        → SayEach (lines more) second
        → SayEach (lines (text ++ more)) contents → length replies ≡ length (lines_of_contents 1 contents)
        → session_text 1 contents replies ≡ session_text 1 first (take (length (lines_of_contents 1 first)) replies)
        ++ session_text (length first + 1) second (drop (length (lines_of_contents 1 first)) replies) }
    ensures runs { (old middle new : DialogView) (text more answers others : List ℕ) → IsWhole text → AnswersLines old (lines text) answers middle
        → AnswersLines middle (lines more) others new → AnswersLines old (lines (text ++ more)) (answers ++ others) new }
{}
