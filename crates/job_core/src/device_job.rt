//! The job: commands are run, and each page goes to a device when it is shipped.

ghost use Rattle.std.specs.Prelude.{◌≡◌, ◌≢◌, ◌<◌, ◌+◌, ◌^◌, ◌++◌, [], true, false, Err, List, length, IfOk, IfErr, OnOk, OnErr, IfSome};
ghost use Rattle.job_machine.specs.declared.command.Command.TheVariants as commands;
ghost use Rattle.job_machine.specs.declared.replies.Refusal.{Refusal};
ghost use Rattle.job_machine.specs.Reply.{Reply as AReply};
ghost use Rattle.dvi_write.specs.Layout.{unfinished_file, whole};
ghost use Rattle.job_state.specs.JobStateView.{before_shipping};
ghost use Rattle.job_machine.specs.Effects.{new_pages};
ghost use Rattle.job_machine.specs.Machine.{Machine, first_machine};
ghost use Rattle.dvi_write.specs.Writing.{GoesOn};
ghost use Rattle.job_core.specs.Jobs.{Represents, KeepsTo, RunsTo, FinishesTo, IsProperFrontOf};
ghost use Rattle.job_core.specs.Private.Sound.{IsSound, IsBoundedFile, write_refusal, view_of};
ghost use Rattle.job_core.specs.Shown.{FilesPages};
ghost use Rattle.job_core.specs.Closing.{ClosesFile};

use dvi_device::Device;
use dvi_write::{DviWriter, WriteFault};
use job_machine::{Answer, Command, Refusal, Register, Reply, Summary};
use job_state::job_state::JobState;
use node_core::BoxNode;
use std::alloc::{AllocError, Global};
use std::marker::Model;
use tfm_core::FontFile;

/// The refusal of a job if its writer does not take a page, or does not finish the file.
fn write_refusal(fault: WriteFault) -> Refusal
    ensures { result ≡ write_refusal fault }
{
    match fault {
        WriteFault::JobOver => Refusal::JobOver,
        WriteFault::TooManyPages => Refusal::TooManyPages,
        WriteFault::TooMuchShipped => Refusal::TooMuchShipped,
        WriteFault::TooMuchSpecial => Refusal::TooMuchSpecial,
        WriteFault::HugePage => Refusal::HugePage,
        WriteFault::OutOfMemory => Refusal::OutOfMemory,
        WriteFault::Device => Refusal::Device,
    }
}

/// Ships the box in a register: its page goes to the device, and then the register is void. After a refusal the register keeps its box. The writer
/// decides why a page is refused, in the order of the machine's checks.
fn ship_page<D: Device>(
    state: &mut JobState,
    writer: &mut DviWriter<D>,
    alloc: Global,
    register: Register,
) -> Reply
    requires running { writer.old.over ≡ false }
    requires sound { IsSound (before_shipping state.old) }
    requires bounded { IsBoundedFile state.old.fonts writer.old }
    ensures keeps { KeepsTo (view_of state.old writer.old) (commands.Ship register) result (view_of state.new writer.new) }
    ensures same { IfErr result (λ refusal. refusal ≢ Refusal.Device → view_of state.new writer.new ≡ view_of state.old writer.old) }
    ensures sound { IsSound (before_shipping state.new) }
    ensures bounded { writer.new.over ≡ false → IsBoundedFile state.new.fonts writer.new }
    ensures part { result ≡ Err Refusal.Device → (m : Machine) → Represents (view_of state.old writer.old) m
        → IfSome writer.new.bytes_written
        (λ bytes. IsProperFrontOf bytes (unfinished_file m.state.fonts (m.pages ++ new_pages m.state (commands.Ship register)))) }
    ensures goes_on { GoesOn writer.old writer.new }
{
    let Some(box_node) = state.box_in(register) else {
        return Err(Refusal::VoidBox);
    };
    match writer.page(
        alloc,
        box_node,
        state.offsets(),
        state.counts(),
        state.fonts(),
    ) {
        Ok(()) => {
            state.empty(register);
            Ok(Answer::Shipped(writer.pages()))
        }
        Err(fault) => Err(write_refusal(fault)),
    }
}

/// A job: its state, and the writer of its file over the device.
///
/// The proved link to the abstract machine of `job_machine` is `Represents`: the job represents a machine, and each call moves both together.
#[derive(Drop)]
pub struct Job<D: Device> {
    alloc: Global,
    state: JobState,
    writer: DviWriter<D>,
}

impl<D: Device> Model for Job<D> {
    ghost use Rattle.std.specs.Prelude.{◌≡◌, false};
    ghost use Rattle.job_state.specs.JobStateView.{before_shipping};
    ghost use Rattle.job_core.specs.Jobs.{JobView};
    ghost use Rattle.job_core.specs.Private.Sound.{IsSound, IsBoundedFile, view_of};
    ghost use Rattle.job_core.specs.Private.JobViewCode.{coded_job_view};

    ghost Value = { JobView };

    ghost coded = { coded_job_view };

    ghost view = { λ job. view_of job.state job.writer };

    ghost invariant = { λ job. IsSound (before_shipping job.state) × (job.writer.over ≡ false → IsBoundedFile job.state.fonts job.writer) };
}

impl<D: Device> Job<D> {
    ghost use Rattle.std.specs.Prelude.{◌≡◌, ◌≢◌, ◌<◌, ◌≤◌, ◌+◌, ◌^◌, ◌++◌, [], true, List, IfOk, IfErr, IsOk, OnOk, OnErr, IfSome, Err, length};
    ghost use Rattle.std.specs.Prelude.{option_copied, vec_len, vec_capacity};
    ghost use Rattle.job_machine.specs.State.{held_in};
    ghost use Rattle.job_machine.specs.Effects.{new_pages};
    ghost use Rattle.job_machine.specs.Machine.{Machine, first_machine};
    ghost use Rattle.dvi_write.specs.Layout.{unfinished_file, whole};
    ghost use Rattle.job_machine.specs.declared.command.Command.TheVariants as commands;
    ghost use Rattle.job_machine.specs.declared.replies.Refusal.{Refusal};
    ghost use Rattle.job_machine.specs.Reply.{Reply as AReply};
    ghost use Rattle.dvi_device.specs.Seen.{device_view};
    ghost use Rattle.dvi_write.specs.Writing.{GoesOn, IsDeviceOf, IsMadeOver};
    ghost use Rattle.job_core.specs.Jobs.{Represents, KeepsTo, RunsTo, FinishesTo, IsProperFrontOf, writing_of};
    ghost use Rattle.job_core.specs.Shown.{FilesPages};
    ghost use Rattle.job_core.specs.Closing.{ClosesFile};

    /// A new job with these font files, which it copies. The device must have reported no byte yet, so that the file of the job is all that it gets.
    ///
    /// If memory is refused, the error is the device, unchanged.
    pub fn new(alloc: Global, device: D, files: &[FontFile]) -> Result<Job<D>, D>
        requires countable { D.failed device + 1 < 2 ^ 64 }
        requires fresh { IfSome (D.bytes_written device) (λ bytes. bytes ≡ []) }
        ensures ok { IfOk result (λ job. Represents job (first_machine files.now)) }
        ensures made { IfOk result (λ job. IsMadeOver (device_view D.bytes_written D.failed D.past device) (writing_of job)) }
        ensures device_returned { IfErr result (λ back. back ≡ device) }
    {
        let Ok(state) = JobState::new(alloc, files) else {
            return Err(device);
        };
        Ok(Job {
            alloc,
            state,
            writer: DviWriter::new(device),
        })
    }

    /// Runs one command. A page goes to the device when it is shipped, and it is whole in memory before.
    ///
    /// A refusal has the cause that its text gives, and leaves the job as it was. Only Device differs: the device has then got a beginning of the
    /// file up to this page, and the job is over. A job that is over refuses every command with JobOver.
    pub fn step(&mut self, command: &Command) -> Result<Answer, Refusal>
        ensures keeps { KeepsTo self.old command.now result self.new }
        ensures same { IfErr result (λ refusal. refusal ≢ Refusal.Device → self.new ≡ self.old) }
        ensures idle { self.old.state.over ≡ true → self.new ≡ self.old }
        ensures part { result ≡ Err Refusal.Device → (m : Machine) → Represents self.old m
            → IfSome self.new.bytes_written
            (λ bytes. IsProperFrontOf bytes (unfinished_file m.state.fonts (m.pages ++ new_pages m.state command.now))) }
        ensures goes_on { GoesOn (writing_of self.old) (writing_of self.new) }
    {
        if self.writer.is_over() {
            return Err(Refusal::JobOver);
        }
        if let Command::Ship(register) = command {
            return ship_page(&mut self.state, &mut self.writer, self.alloc, *register);
        }
        // A refused growth becomes the answer OutOfMemory, by `From` of `Refusal`.
        self.state.obey(command)?
    }

    /// Runs the commands in order, and appends one reply for each. A refused command does not stop the run.
    ///
    /// The error is a refused growth: space for all replies is made first, so no command was run then, and `replies` is as before.
    pub fn run(&mut self, commands: &[Command], replies: &mut Vec<Reply>) -> Result<(), AllocError>
        ensures ran { OnOk result ((added : List AReply) × (replies.new.items ≡ replies.old.items ++ added)
            × RunsTo self.old commands.now added self.new) }
        ensures none { OnErr result (self.new ≡ self.old) }
        ensures cut { OnErr result (replies.new.items ≡ replies.old.items) }
        ensures space { vec_len replies.old + length commands.now ≤ vec_capacity replies.old → IsOk result }
        ensures idle { self.old.state.over ≡ true → self.new ≡ self.old }
        ensures goes_on { GoesOn (writing_of self.old) (writing_of self.new) }
    {
        replies.reserve(commands.len())?;
        for command in commands {
            let reply = self.step(command);
            let Ok(()) = replies.push(reply) else {
                unreachable!()
            };
        }
        Ok(())
    }

    /// Ends the job: if there are pages, the end of their file goes to the device, and all memory is taken before that. The summary reports
    /// the pages and the bytes of the file. The job is over then.
    ///
    /// Refusals: JobOver if the job is over already, ListsOpen while a list is open, OutOfMemory for a refused growth: nothing has changed after
    /// these three, so all shipped pages were sent, and no end of the file. Device if the device failed: the job is over, and the device has got a
    /// beginning of the file.
    pub fn finish(&mut self) -> Result<Summary, Refusal>
        ensures finished { FinishesTo self.old result self.new }
        ensures same { IfErr result (λ refusal. refusal ≢ Refusal.Device → self.new ≡ self.old) }
        ensures idle { self.old.state.over ≡ true → self.new ≡ self.old }
        ensures file { (m : Machine) → Represents self.old m
            → OnOk result (IfSome self.new.bytes_written (λ bytes. bytes ≡ whole m.state.fonts m.pages)) }
        ensures dvi { FilesPages self.old result self.new }
        ensures end { ClosesFile self.old result self.new }
        ensures size { IfOk result (λ summary. (m : Machine) → Represents self.old m
            → IfSome self.new.bytes_written (λ bytes. summary.bytes ≡ length bytes)) }
        ensures count { IfOk result (λ summary. (m : Machine) → Represents self.old m → summary.bytes ≡ length (whole m.state.fonts m.pages)) }
        ensures small { IfOk result (λ summary. summary.bytes < 2 ^ 31) }
        ensures part { result ≡ Err Refusal.Device → (m : Machine) → Represents self.old m
            → IfSome self.new.bytes_written (λ bytes. IsProperFrontOf bytes (whole m.state.fonts m.pages)) }
        ensures goes_on { GoesOn (writing_of self.old) (writing_of self.new) }
    {
        if self.writer.is_over() {
            return Err(Refusal::JobOver);
        }
        if self.state.is_open() {
            return Err(Refusal::ListsOpen);
        }
        let summary = match self.writer.finish(self.alloc, self.state.fonts()) {
            Ok(summary) => summary,
            Err(fault) => return Err(write_refusal(fault)),
        };
        Ok(summary)
    }

    /// The box in a register; None if it is void.
    pub fn box_in(&self, register: Register) -> Option<&BoxNode>
        ensures { option_copied result ≡ held_in self.now.state.registers register }
    {
        self.state.box_in(register)
    }

    /// Lends the device.
    pub fn device(&self) -> &D
        ensures { IsDeviceOf (writing_of self.now) (device_view D.bytes_written D.failed D.past result.now) }
    {
        self.writer.device()
    }

    /// Returns the device, and drops the rest of the job.
    pub fn into_device(self) -> D
        ensures { IsDeviceOf (writing_of self) (device_view D.bytes_written D.failed D.past result) }
    {
        let Job {
            alloc: _alloc,
            state: _state,
            writer,
        } = self;
        writer.into_device()
    }
}
