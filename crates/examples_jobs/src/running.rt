//! Each example is run and its output printed.

use crate::pages::one_rule_page;
use crate::paragraphs::count_breaks;
use crate::printing::{print_breaks, print_listing, print_page};
use crate::reading::listing_and_pbm;
use crate::resuming::complete_file;
use crate::texts::{text_commands, text_page};
use crate::values::{box_of_a_rule, one_rule, tiny, tiny_name, two_rules};
use crate::writing::same_pages;
use anyhow::{Context, Result};
use dvi_write::{Fonts, Memory, Offsets};
use job_core::FontFile;
use node_core::Params;
use scaled_core::Dimen;
use std::alloc::Global;
use std::io::Write;

/// Makes the page with one rule. The answer is to the end of its box.
pub fn run_one_rule_page<W: Write>(alloc: Global, output: &mut W) -> Result<()> {
    let (memory, packed) = one_rule_page(alloc, Dimen::points(1))?;
    print_page(output, "one_rule_page", &packed, memory.bytes().len())?;
    Ok(())
}

/// Makes a page of the paragraph `c c`. The answer is to the end of the paragraph.
pub fn run_text_page<W: Write>(alloc: Global, output: &mut W) -> Result<()> {
    let files = [FontFile::new(tiny_name(alloc)?, tiny(alloc)?)];
    let commands = text_commands(alloc, tiny_name(alloc)?, Vec::from_slice(alloc, b"c c")?)?;
    let (memory, replies) = text_page(alloc, &files, &commands)?;
    if let Some(Ok(paragraph)) = replies.get(5) {
        print_page(output, "text_page", paragraph, memory.bytes().len())?;
    }
    Ok(())
}

/// Makes the page with one rule on a device that fails at this call.
fn complete<W: Write>(alloc: Global, output: &mut W, fails_at: u64) -> Result<()> {
    let done = complete_file(alloc, &one_rule(), fails_at);
    let (is_whole, device) = done.context("memory was refused")?;
    let length = device.bytes().len();
    writeln!(output, "{fails_at}: {is_whole}, {length} bytes")?;
    Ok(())
}

/// Makes the page with one rule on a device that fails at no call, at the first and at the second.
pub fn run_completed<W: Write>(alloc: Global, output: &mut W) -> Result<()> {
    writeln!(output, "== completed")?;
    complete(alloc, output, 0)?;
    complete(alloc, output, 1)?;
    complete(alloc, output, 2)
}

/// The file of pages with one rule, one for each of these counts.
fn rule_pages(alloc: Global, counts: &[[i32; 10]]) -> Result<Memory> {
    let shown = box_of_a_rule(alloc)?;
    let fonts = Fonts::new(alloc)?;
    let at = Offsets {
        h: Dimen::ZERO,
        v: Dimen::ZERO,
    };
    Ok(same_pages(alloc, &shown, &at, counts, &fonts)?)
}

/// Writes two pages with one rule.
pub fn run_same_pages<W: Write>(alloc: Global, output: &mut W) -> Result<()> {
    let memory = rule_pages(alloc, &[[0; 10], [7; 10]])?;
    writeln!(output, "== same_pages\n{} bytes", memory.bytes().len())?;
    Ok(())
}

/// Lists and paints a page with one rule.
pub fn run_shown<W: Write>(alloc: Global, output: &mut W) -> Result<()> {
    let memory = rule_pages(alloc, &[[0; 10]])?;
    let shown = listing_and_pbm(alloc, memory.bytes(), &[]).ok();
    let (listing, pbm) = shown.context("the file was not read")?;
    print_listing(output, &listing, &pbm)?;
    Ok(())
}

/// Breaks two rules as wide as a line.
pub fn run_counted<W: Write>(alloc: Global, output: &mut W) -> Result<()> {
    let params = Params::first();
    let nodes = two_rules(alloc, &params)?;
    let done = count_breaks(alloc, &nodes, &params);
    let (breaks, tried) = done.context("the list was not broken")?;
    print_breaks(output, &breaks, tried)?;
    Ok(())
}
