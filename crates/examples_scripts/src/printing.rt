//! The output of each example, as text.

use boxglue_lib::MemoryFiles;
use std::io;
use std::io::Write;

/// The answers to a script, and the length of the file.
pub fn print_answers<W: Write>(output: &mut W, answers: &[u8], length: usize) -> io::Result<()> {
    writeln!(output, "== answered")?;
    output.write_all(answers)?;
    writeln!(output, "{length} bytes")
}

/// The answers of the program, its status, the length of its errors, and the length and the path of the file.
pub fn print_end<W: Write>(
    output: &mut W,
    answers: &[u8],
    status: u8,
    errors: usize,
    files: &MemoryFiles,
) -> io::Result<()> {
    writeln!(output, "== run")?;
    output.write_all(answers)?;
    writeln!(output, "status {status}, {errors} bytes of errors")?;
    write!(output, "{} bytes in ", files.written_bytes().len())?;
    output.write_all(files.created_path())?;
    writeln!(output)
}
