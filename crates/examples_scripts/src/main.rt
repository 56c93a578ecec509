//! The examples of docs/LIBRARY.md, section 7.1: the program runs each and prints its result.
//!
//! The text of an example is that of docs/LIBRARY.md, word for word, in a file of its own; `tests/run library` compares them.
#![tactic(auto)]

mod command_lines;
mod printing;
mod running;
mod scripts;
mod values;

use anyhow::Result;
use running::{run_answered, run_program};

/// Runs the examples in the order of the document.
fn main(rt: HostRuntime) -> Result<()> {
    let alloc = rt.alloc();
    let mut output = rt.stdout();
    run_answered(alloc, &mut output)?;
    run_program(alloc, &mut output)
}
