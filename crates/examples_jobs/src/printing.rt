//! The output of each example, as text.

use break_core::{Breaks, LineEnd};
use job_core::Answer;
use std::io;
use std::io::Write;

/// The name of an example, the answer that it returned, and the length of the file.
pub fn print_page<W: Write>(
    output: &mut W,
    name: &str,
    answer: &Answer,
    length: usize,
) -> io::Result<()> {
    writeln!(output, "== {name}\n{answer:?}\n{length} bytes")
}

/// A listing, the length of a bitmap's text, and how many digits 1 there are in it.
pub fn print_listing<W: Write>(output: &mut W, listing: &[u8], pbm: &[u8]) -> io::Result<()> {
    let ones = pbm.iter().filter(|byte| **byte == b'1').count();
    writeln!(output, "== shown")?;
    output.write_all(listing)?;
    writeln!(output, "{} bytes, {ones} digits 1", pbm.len())
}

/// The ends of lines, one a line.
fn print_lines<W: Write>(output: &mut W, lines: &[LineEnd]) -> io::Result<()> {
    for line in lines {
        writeln!(output, "line to {}", line.place)?;
    }
    Ok(())
}

/// The breaks of a paragraph, and how many lines were tried.
pub fn print_breaks<W: Write>(output: &mut W, breaks: &Breaks, tried: u128) -> io::Result<()> {
    writeln!(output, "== counted")?;
    print_lines(output, &breaks.lines)?;
    writeln!(output, "demerits {}, lines tried {tried}", breaks.demerits)
}
