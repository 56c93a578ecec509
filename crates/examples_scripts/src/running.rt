//! Each example is run and its output printed.

use crate::command_lines::run;
use crate::printing::{print_answers, print_end};
use crate::scripts::answers_of;
use crate::values::{ONE_GLYPH, ONE_RULE, tiny};
use anyhow::{Context, Result};
use std::alloc::Global;
use std::io::Write;

/// Runs the script of the page with one rule.
pub fn run_answered<W: Write>(alloc: Global, output: &mut W) -> Result<()> {
    let done = answers_of(alloc, ONE_RULE.as_bytes(), &[]).ok();
    let (answers, memory) = done.context("memory was refused")?;
    print_answers(output, &answers, memory.bytes().len())?;
    Ok(())
}

/// Runs the program on the script of a page with one glyph.
pub fn run_program<W: Write>(alloc: Global, output: &mut W) -> Result<()> {
    let words = ["typeset", "out.dvi", "tiny=tiny.tfm"];
    let script = Vec::from_slice(alloc, ONE_GLYPH.as_bytes())?;
    let (status, answers, errors, files) = run(alloc, &words, script, tiny(alloc)?)?;
    print_end(output, &answers, status, errors.len(), &files)?;
    Ok(())
}
