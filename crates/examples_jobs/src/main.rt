//! The examples of docs/LIBRARY.md, sections 7.2 to 7.5: the program runs each and prints its result.
//!
//! The text of an example is that of docs/LIBRARY.md, word for word, in a file of its own; `tests/run library` compares them.
#![tactic(auto)]

mod pages;
mod paragraphs;
mod printing;
mod reading;
mod resuming;
mod running;
mod texts;
mod values;
mod writing;

use anyhow::Result;
use running::{
    run_completed, run_counted, run_one_rule_page, run_same_pages, run_shown, run_text_page,
};

/// Runs the examples in the order of the document.
fn main(rt: HostRuntime) -> Result<()> {
    let alloc = rt.alloc();
    let mut output = rt.stdout();
    run_one_rule_page(alloc, &mut output)?;
    run_text_page(alloc, &mut output)?;
    run_completed(alloc, &mut output)?;
    run_same_pages(alloc, &mut output)?;
    run_shown(alloc, &mut output)?;
    run_counted(alloc, &mut output)
}
