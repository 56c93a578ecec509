//! Running a script on a device in memory.

ghost use Rattle.std.specs.Prelude.{◌≡◌, ◌++◌, ℕ, List, IfOk, IfErr};
ghost use Rattle.std.specs.Io.KnownBytes.{Appends};
ghost use Rattle.boxglue_program.specs.Reports.{any_bytes, written_bytes};
ghost use Rattle.boxglue_program.specs.Runs.{IsAnswerInMemory, IsLeftInMemory};

use crate::hexadecimal::push_hexadecimal;
use crate::run::{AnsweredScript, RunFault, answer_script};
use crate::writing::{UnwrittenText, write_text};
use job_core::{FontFile, Memory};
use std::alloc::Global;
use std::io::Write;

/// Runs a script's text with these font files on a device in memory, and writes the texts of its answers and then the bytes that the device took, in
/// lines of sixteen. A bad script writes only its one line. The truth value is true if nothing was refused.
///
/// All texts are made before the first of them is written. The error is as for `run_script`, with the device in memory.
pub fn run_memory<W: Write>(
    alloc: Global,
    text: &[u8],
    files: &[FontFile],
    writer: &mut W,
) -> Result<bool, RunFault<Memory>>
    ensures answers { IfOk result (λ fine. (answer : List ℕ) × IsAnswerInMemory any_bytes text.now files.now answer fine
        × Appends (W.contents writer.old) (W.contents writer.new) answer) }
    ensures left { IfErr result (λ fault. IsLeftInMemory any_bytes text.now files.now fault (W.contents writer.old) (W.contents writer.new)) }
    ensures sent { IfOk result (λ fine. (answer : List ℕ) × IsAnswerInMemory written_bytes text.now files.now answer fine
        × Appends (W.contents writer.old) (W.contents writer.new) answer) }
    ensures left_sent { IfErr result (λ fault.
        IsLeftInMemory written_bytes text.now files.now fault (W.contents writer.old) (W.contents writer.new)) }
{
    let done = match answer_script(alloc, text, files, Memory::new(alloc)) {
        Ok(done) => done,
        Err(memory) => return Err(RunFault::Memory(memory)),
    };
    let AnsweredScript {
        text: mut answer,
        accepted,
        device: memory,
    } = done;
    if push_hexadecimal(memory.bytes(), &mut answer).is_err() {
        return Err(RunFault::Memory(memory));
    }
    match write_text(writer, &answer) {
        Ok(()) => Ok(accepted),
        Err(UnwrittenText) => Err(RunFault::Answers(memory)),
    }
}
