//! The whole program is run over a host in memory.

use boxglue_lib::{HeldFile, MemoryFiles, MemoryHost, program};
use std::alloc::{AllocError, Global};

/// The words of a command line, as the program takes them.
fn owned_words(alloc: Global, words: &[&str]) -> Result<Vec<String>, AllocError> {
    let mut owned = Vec::new(alloc);
    for word in words {
        owned.push(String::from_str(alloc, word)?)?;
    }
    Ok(owned)
}

/// Runs the program with words, such as `typeset`, `out.dvi`, `tiny=tiny.tfm`, on a script and with this one file. Returns its status, its output,
/// its errors, and the files, whose `created_path()` and `written_bytes()` are the path and the bytes of the DVI file.
pub fn run(
    alloc: Global,
    words: &[&str],
    script: Vec<u8>,
    metrics: Vec<u8>,
) -> Result<(u8, Vec<u8>, Vec<u8>, MemoryFiles), AllocError> {
    let words = owned_words(alloc, words)?;
    let path = Vec::from_slice(alloc, b"tiny.tfm")?;
    let files = Vec::from_array(alloc, [HeldFile::new(path, metrics)])?;
    let host = MemoryHost::new(alloc, files, script);
    let mut output = Vec::new(alloc);
    let mut errors = Vec::new(alloc);
    let (status, files) = program(alloc, &words, host, &mut output, &mut errors);
    Ok((status, output, errors, files))
}
