//! Good files, and the answers to their damaged copies.

use crate::answers::FileKind;
use crate::checksum::checksum;
use anyhow::{Context, Result};
use boxglue_print::Output;
use boxglue_program::FontFile;
use std::alloc::Global;
use std::io::Write;
use std::slice;

/// A good file, and the metric files for its copies.
#[derive(Drop)]
pub struct Sample<'a> {
    pub kind: FileKind,
    pub name: &'a str,
    pub bytes: Vec<u8>,
    pub fonts: Vec<FontFile>,
}

impl<'a> Sample<'a> {
    /// A file without bytes.
    pub fn new(alloc: Global, kind: FileKind, name: &'a str) -> Sample<'a> {
        Sample {
            kind,
            name,
            bytes: Vec::new(alloc),
            fonts: Vec::new(alloc),
        }
    }

    /// Prints the answer to the file with this value at a place.
    pub fn change_byte<W: Write>(
        &self,
        alloc: Global,
        place: usize,
        value: u8,
        output: &mut W,
    ) -> Result<()> {
        let mut bytes = self.bytes.clone()?;
        *bytes.get_mut(place).context("there are fewer bytes")? = value;
        let answer = self.kind.answer(alloc, &bytes, &self.fonts)?;
        write!(output, "change {place} {value:02x} ")?;
        print_first_line(&answer, output)
    }

    /// Prints for each place the answers to the files with another byte there.
    pub fn change_each_byte<W: Write>(&self, alloc: Global, output: &mut W) -> Result<()> {
        for place in 0..self.bytes.len() {
            let answers = self.answers_at(alloc, place)?;
            let accepted = answers.iter().filter(|answer| answer.accepted).count();
            let sum = checksum(&answers);
            writeln!(output, "byte {place} {accepted} {sum:016x}")?;
        }
        Ok(())
    }

    /// The answers to the files with another byte at a place, in the order of that byte.
    fn answers_at(&self, alloc: Global, place: usize) -> Result<Vec<Output>> {
        let mut bytes = self.bytes.clone()?;
        let mut answers = Vec::new(alloc);
        for value in 0..=u8::MAX {
            let byte = bytes.get_mut(place).context("there are fewer bytes")?;
            if self.bytes.get(place) != Some(&value) {
                *byte = value;
                answers.push(self.kind.answer(alloc, &bytes, &self.fonts)?)?;
            }
        }
        Ok(answers)
    }

    /// Prints for each length the answer to the beginning of that length.
    pub fn cut_to_each_length<W: Write>(&self, alloc: Global, output: &mut W) -> Result<()> {
        for length in 0..=self.bytes.len() {
            let answer = self.kind.answer(alloc, &self.bytes[..length], &self.fonts)?;
            let sum = checksum(slice::from_ref(&answer));
            write!(output, "first {length} {sum:016x} ")?;
            print_first_line(&answer, output)?;
        }
        Ok(())
    }
}

/// Prints `accepted`, or the first line of an answer.
fn print_first_line<W: Write>(answer: &Output, output: &mut W) -> Result<()> {
    if answer.accepted {
        writeln!(output, "accepted")?;
        return Ok(());
    }
    if let Some(line) = answer.text.split_inclusive(|byte| *byte == b'\n').next() {
        output.write_all(line)?;
    }
    Ok(())
}
