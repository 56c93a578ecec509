//! A script is run on a device in memory.

use boxglue_program::{FontFile, Memory, RunFault, run_script};
use std::alloc::Global;

/// The answers of a script, and the device in memory that took its file.
pub fn answers_of(
    alloc: Global,
    text: &[u8],
    files: &[FontFile],
) -> Result<(Vec<u8>, Memory), RunFault<Memory>> {
    let mut answers = Vec::new(alloc); // or any other writer
    let (_accepted, memory) = run_script(alloc, text, files, Memory::new(alloc), &mut answers)?;
    Ok((answers, memory)) // memory.bytes() are the DVI file; empty if no page was shipped
}
