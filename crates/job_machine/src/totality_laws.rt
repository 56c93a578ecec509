//! Laws of every step and every run, whatever memory and the device do.

ghost use Rattle.std.specs.Prelude.{◌≡◌, ◌≢◌, ◌+◌, [], ℕ, true, List, Result, Err};
ghost use Rattle.std.specs.List.{AllByRecursion};
ghost use Rattle.job_machine.specs.declared.command.Command.{Command};
ghost use Rattle.job_machine.specs.declared.replies.Refusal.{Refusal as ARefusal};
ghost use Rattle.job_machine.specs.declared.replies.Refusal.TheVariants as refusals;
ghost use Rattle.page_core.specs.declared.summary.Summary.{Summary};
ghost use Rattle.job_machine.specs.Reply.{Reply as AReply};
ghost use Rattle.job_machine.specs.Machine.{Machine};
ghost use Rattle.job_machine.specs.Runs.{StepsTo, Run, Finishes, MayRunOutOfMemory};

/// A refusal leaves the machine as it was, but for a fault of the device, which stops it.
pub fn refusals_change_nothing()
    ensures { (m next : Machine) (n k : ℕ) (command : Command) (refusal : ARefusal) → refusal ≢ refusals.Device
        → StepsTo m n command (Err refusal) next k → next ≡ m }
{}

/// OutOfMemory is the reply only to commands that take memory: never to use, lastbox, measure, void, set and count, to end only if the box or the
/// lines go to the enclosing list, and to the commands that take or split the box of a register only if it holds one.
pub fn memory_is_wanted_by_few()
    ensures { (m next : Machine) (n k : ℕ) (command : Command) → StepsTo m n command (Err refusals.OutOfMemory) next k
        → MayRunOutOfMemory m.state command }
{}

/// Device is the reply only if the device's count of failures rose by one.
pub fn faults_are_counted()
    ensures { (m next : Machine) (n k : ℕ) (command : Command) → StepsTo m n command (Err refusals.Device) next k → k ≡ n + 1 }
{}

/// A job that is over replies JobOver to every command and to its end, and stays as it is.
pub fn over_for_good()
    ensures runs { (m next : Machine) (n k : ℕ) (commands : List Command) (replies : List AReply) → m.state.over ≡ true
        → Run m n commands replies next k → AllByRecursion (λ reply. reply ≡ Err refusals.JobOver) replies × (next ≡ m) × (k ≡ n) }
    ensures finish { (m next : Machine) (n k : ℕ) (result : Result Summary ARefusal) → m.state.over ≡ true → Finishes m n result next k
        → (result ≡ Err refusals.JobOver) × (next ≡ m) × (k ≡ n) }
{}

/// The end of a job is refused with OutOfMemory only if there are pages, and with Device only if the device's count of failures rose by one.
/// After every refusal but Device the machine is as before.
pub fn refusals_of_the_end()
    ensures memory { (m next : Machine) (n k : ℕ) → Finishes m n (Err refusals.OutOfMemory) next k → m.pages ≢ [] }
    ensures device { (m next : Machine) (n k : ℕ) → Finishes m n (Err refusals.Device) next k → k ≡ n + 1 }
    ensures refused { (m next : Machine) (n k : ℕ) (refusal : ARefusal) → refusal ≢ refusals.Device → Finishes m n (Err refusal) next k → next ≡ m }
{}
