//! Damaged files: the program reads good files from its standard input, and prints the answer to each file that differs from one of them in one byte,
//! and to each beginning of it.
//!
//! The form of the input and of the output is in tests/CASES.md.
#![tactic(auto)]

mod answers;
mod checksum;
mod reading;
mod samples;

use anyhow::Result;
use reading::take_lines;
use std::io::Read;
use std::str;

/// Follows each line of standard input. The error names the first line that breaks the form.
fn main(rt: HostRuntime) -> Result<()> {
    let mut text = Vec::new(rt.alloc());
    rt.reader().read_to_end(&mut text)?;
    take_lines(rt.alloc(), str::from_utf8(&text)?, &mut rt.stdout())
}
