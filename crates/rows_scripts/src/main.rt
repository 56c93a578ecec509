//! Named cases of scripts: the program reads a file of cases from its standard input, runs each, and prints its output.
//!
//! The form of the file is in tests/CASES.md. In short: `file` and `bytes` give a font file, `case` begins a case, `font`, `device`,
//! `resume`, `each` and `last` set how its script is run and shown, and `|` or `\` comes before a line of the script.
//!
//! Whole scripts are data here, since a test function is proved like other code: twenty of them cost seven minutes.
#![tactic(auto)]

mod cases;
mod change;
mod devices;
mod reading;
mod runs;

use anyhow::Result;
use reading::read_cases;
use std::io::Read;

/// Prints the output of each case of the file on standard input. The error names the first line that breaks the form.
fn main(rt: HostRuntime) -> Result<()> {
    let mut text = Vec::new(rt.alloc());
    rt.reader().read_to_end(&mut text)?;
    let cases = read_cases(rt.alloc(), &text)?;
    let mut output = rt.stdout();
    for case in &cases {
        case.run(rt.alloc(), &mut output)?;
    }
    Ok(())
}
