//! Laws of a job from its beginning to its end.

ghost use Rattle.std.specs.Prelude.{◌≡◌, ◌≢◌, ◌≤◌, ◌⊎◌, ◌++◌, [], ◌∷◌, ℕ, false, List, length, Result, Err, IfOk, IfErr, OnOk, IfSome};
ghost use Rattle.job_machine.specs.declared.command.Command.{Command};
ghost use Rattle.job_machine.specs.declared.replies.Refusal.{Refusal};
ghost use Rattle.job_machine.specs.declared.replies.Refusal.TheVariants as refusals;
ghost use Rattle.page_core.specs.declared.summary.Summary.{Summary};
ghost use Rattle.job_machine.specs.Reply.{Reply};
ghost use Rattle.tfm_core.specs.NamedBytes.{NamedBytes};
ghost use Rattle.dvi_device.specs.Written.{IsFrontOf};
ghost use Rattle.dvi_write.specs.Layout.{whole};
ghost use Rattle.job_machine.specs.Machine.{Machine, first_machine};
ghost use Rattle.job_machine.specs.Runs.{Run, Finishes};
ghost use Rattle.job_core.specs.Jobs.{JobView, IsProperFrontOf, due_bytes, Represents, KeepsTo, RunsTo, FinishesTo};
ghost use Rattle.std.specs.List.{AllByRecursion};
ghost use Rattle.job_core.specs.GlyphWidths.{IsMeasuredPage};
ghost use Rattle.job_core.specs.Closing.{ClosesFile};
ghost use Rattle.job_core.specs.Shown.{FilesPages};
ghost use Rattle.job_core.specs.Headline.{IsDone};

/// After any list of commands, each answer and the state of the job are the abstract machine's; and if every write succeeded, the finished file is,
/// by the DVI definition, a well-formed file of exactly the machine's pages in order: the same glyphs, rules and specials, in the same order,
/// at the same scaled points, under the same ten counts. The widths of the glyphs are those of the job's own font files.
///
/// `run_commands` ensures it of a whole job. This law is for callers that step: its premises are what `Job::new`, `Job::run` and `Job::finish`
/// ensure, in this order.
pub fn headline()
    ensures { (files : List NamedBytes) (commands : List Command) (replies : List Reply) (result : Result Summary Refusal) (new run ended : JobView)
        → Represents new (first_machine files)
        → RunsTo new commands replies run
        → FinishesTo run result ended
        → ((m : Machine) → Represents run m → OnOk result (IfSome ended.bytes_written (λ bytes. bytes ≡ whole m.state.fonts m.pages)))
        → FilesPages run result ended → ClosesFile run result ended
        → IfOk result (λ summary. (m : Machine) → Represents run m → IfSome ended.bytes_written (λ bytes. summary.bytes ≡ length bytes))
        → IfOk result (λ summary. (m : Machine) → Represents run m → summary.bytes ≡ length (whole m.state.fonts m.pages))
        → (result ≡ Err refusals.Device → (m : Machine) → Represents run m
        → IfSome ended.bytes_written (λ bytes. IsProperFrontOf bytes (whole m.state.fonts m.pages)))
        → IsDone files commands replies result new run ended }
{}

/// Consecutive calls of `Job::step` and `Job::run` are one run of all their commands.
pub fn runs_are_joined()
    ensures none { (job : JobView) → RunsTo job [] [] job }
    ensures step { (old new : JobView) (command : Command) (reply : Reply) → KeepsTo old command reply new
        → RunsTo old (command ∷ []) (reply ∷ []) new }
    ensures joined { (old middle new : JobView) (commands more : List Command) (replies others : List Reply)
        → RunsTo old commands replies middle → RunsTo middle more others new → RunsTo old (commands ++ more) (replies ++ others) new }
{}

/// An end that is refused, except with Device, is no step: it leaves the same as a run of no command. So a run, a refused end, more commands and an
/// end are one run and an end.
pub fn a_refused_end_is_no_step()
    ensures { (old new : JobView) (refusal : Refusal) → refusal ≢ refusals.Device → FinishesTo old (Err refusal) new → RunsTo old [] [] new }
{}

/// A device for the rest of a file has no failure of its own in a job of that file: if the bytes that it was to meet when the job was made, and all
/// bytes that the machine gives to it, begin one file, it has as many as then. So a reply Device says that the inner device has failed.
pub fn the_rest_of_one_file_never_differs()
    ensures { (job : JobView) (m : Machine) (file : List ℕ) → Represents job m → IsFrontOf job.began.left file → IsFrontOf (due_bytes m) file
        → job.past.differing ≡ job.began.differing }
{}

/// A job that is not over and whose device does not fail in a run has no reply Device, and is not over after it; and its end then succeeds, unless
/// memory is refused or a list is open.
pub fn no_reply_is_device_without_a_failure()
    ensures runs { (m next : Machine) (n k : ℕ) (commands : List Command) (replies : List Reply) → Run m n commands replies next k → k ≤ n
        → m.state.over ≡ false
        → AllByRecursion (λ reply. reply ≢ Err refusals.Device) replies × (next.state.over ≡ false) }
    ensures ends { (m next : Machine) (n k : ℕ) (end : Result Summary Refusal) → Finishes m n end next k → k ≤ n → m.state.over ≡ false
        → IfErr end (λ refusal. (refusal ≡ refusals.OutOfMemory) ⊎ (refusal ≡ refusals.ListsOpen)) }
{}

/// The metrics law. After any run, the slot of each glyph of each page has a font; the job's own font files give widths for the name and size of this
/// font; and the glyph has the width of its character. So one slot has one size, and in one size a character has one width.
pub fn glyphs_have_the_widths_of_their_files()
    ensures { (files : List NamedBytes) (n k : ℕ) (commands : List Command) (replies : List Reply) (m : Machine)
        → Run (first_machine files) n commands replies m k → AllByRecursion (IsMeasuredPage m.state) m.pages }
{}
