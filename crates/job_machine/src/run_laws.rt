//! Laws of runs of the machine: what they never change, and what they count.

ghost use Rattle.std.specs.Prelude.{◌≡◌, ℕ, List, length, Result};
ghost use Rattle.job_machine.specs.declared.command.Command.{Command};
ghost use Rattle.job_machine.specs.declared.replies.Refusal.{Refusal};
ghost use Rattle.page_core.specs.declared.summary.Summary.{Summary};
ghost use Rattle.job_machine.specs.Reply.{Reply};
ghost use Rattle.tfm_core.specs.NamedBytes.{NamedBytes};
ghost use Rattle.job_machine.specs.Machine.{Machine, first_machine};
ghost use Rattle.job_machine.specs.Runs.{Run, Finishes};

/// The font files stay those that the job was given.
pub fn runs_keep_files()
    ensures { (m next : Machine) (n k : ℕ) (commands : List Command) (replies : List Reply) → Run m n commands replies next k
        → next.state.files ≡ m.state.files }
{}

/// After any run the state counts the pages that were shipped: the answer of the next `ship` and the limit of pages use this number.
pub fn pages_are_counted()
    ensures { (files : List NamedBytes) (n k : ℕ) (commands : List Command) (replies : List Reply) (m : Machine)
        → Run (first_machine files) n commands replies m k → m.state.pages ≡ length m.pages }
{}

/// The replies to commands leave one machine, and so does the result of an end: whoever knows what was replied knows the pages.
pub fn replies_leave_one_machine()
    ensures runs { (m a b : Machine) (n i j : ℕ) (commands : List Command) (replies : List Reply) → Run m n commands replies a i
        → Run m n commands replies b j → (a ≡ b) × (i ≡ j) }
    ensures ends { (m a b : Machine) (n i j : ℕ) (end : Result Summary Refusal) → Finishes m n end a i → Finishes m n end b j → (a ≡ b) × (i ≡ j) }
{}
