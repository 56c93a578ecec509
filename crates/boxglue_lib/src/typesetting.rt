//! `typeset`: a script is run, and its pages go to a file.

ghost use Rattle.std.specs.Prelude.{◌≡◌, ◌+◌, ◌==◌, false, true, not, Err};
ghost use Rattle.boxglue_program.specs.Reports.{written_bytes};
ghost use Rattle.boxglue_words.specs.Hosts.{created_after, has_failed};
ghost use Rattle.boxglue_lib.specs.Ends.{EndsTask};
ghost use Rattle.boxglue_lib.specs.Typesets.{IsLeftToFile, IsUsed, OutFile, script_rules};

use crate::inputs::Inputs;
use crate::task_fault::TaskFault;
use boxglue_program::{Device, RunFault, run_script};
use boxglue_words::{FileDevice, FileHost};
use std::alloc::Global;
use std::io::Write;

/// How a script or a session was typeset: the end of its answers, whether its file was created, whether the file took all that was written to it, and
/// the host.
#[derive(Debug, Drop)]
pub struct TypesetEnd<'a, H> {
    pub end: Result<bool, TaskFault<'a>>,
    pub is_created: bool,
    pub written: bool,
    pub host: H,
}

/// Runs a script with these font files on a device that writes the file `out`, and then writes the texts of the answers, or the one line of a bad
/// script. The file is created at its first write, once, and no other; if it is not created, the host reports of its file what it reported before,
/// and is returned as it was unless it failed. `written` is false if and only if the host failed in this call.
pub fn typeset_file<'a, H: FileHost, W: Write>(
    alloc: Global,
    host: H,
    out: &str,
    inputs: &Inputs,
    writer: &mut W,
) -> TypesetEnd<'a, H>
    ensures task_ended { let file : OutFile = record { is_created = result.is_created; done = result.written; written = H.written result.host } in
        EndsTask (script_rules written_bytes inputs.now.bytes.items inputs.now.files.items (result.host ≡ host) file)
        result.end (W.contents writer.old) (W.contents writer.new) }
    ensures left { let file : OutFile = record { is_created = result.is_created; done = result.written; written = H.written result.host } in
        result.end ≡ Err TaskFault.OutOfMemory → IsLeftToFile written_bytes inputs.now.bytes.items inputs.now.files.items file }
    ensures placed { H.created result.host ≡ created_after result.is_created out.now (H.created host) }
    ensures untouched { result.is_created ≡ false → H.written result.host ≡ H.written host }
    ensures unchanged { result.is_created ≡ false → result.written ≡ true → result.host ≡ host }
    ensures blamed { has_failed (H.failures host) (H.failures result.host) ≡ not result.written }
{
    let device = FileDevice::new(host, out);
    match run_script(alloc, &inputs.bytes, &inputs.files, device, writer) {
        Ok((accepted, device)) => end_with(Ok(accepted), device),
        Err(RunFault::Memory(device)) => end_with(Err(TaskFault::OutOfMemory), device),
        Err(RunFault::Answers(device)) => end_with(Err(TaskFault::Unwritten), device),
    }
}

/// The end of a call, with the state of the file.
pub(crate) fn end_with<'a, H: FileHost>(
    end: Result<bool, TaskFault<'a>>,
    device: FileDevice<'_, H>,
) -> TypesetEnd<'a, H>
    ensures end { result.end ≡ end.entry }
    ensures created { result.is_created ≡ device.entry.is_created }
    ensures written { result.written ≡ (device.entry.failures == 0) }
    ensures host { result.host ≡ device.entry.host }
    ensures used { IsUsed (record { is_created = result.is_created; done = result.written; written = H.written result.host }) }
    ensures counted { H.failures result.host ≡ H.failures device.entry.start.seen + device.entry.failures }
    ensures placed { H.created result.host ≡ created_after result.is_created device.entry.path.now (H.created device.entry.start.seen) }
    ensures untouched { result.is_created ≡ false → H.written result.host ≡ H.written device.entry.start.seen }
    ensures unchanged { result.is_created ≡ false → result.written ≡ true → result.host ≡ device.entry.start.seen }
{
    let is_created = device.is_created();
    let written = device.failures() == 0;
    TypesetEnd {
        end,
        is_created,
        written,
        host: device.into_host(),
    }
}
