//! The lines of the input.

use crate::answers::FileKind;
use crate::samples::Sample;
use anyhow::{Context, Result, bail};
use boxglue_program::{FontFile, FontName};
use std::alloc::Global;
use std::io::Write;

/// The good files that were read so far.
#[derive(Drop)]
struct Samples<'a> {
    alloc: Global,
    samples: Vec<Sample<'a>>,
}

/// Follows all lines of a text. The error names the first line that breaks the form.
pub fn take_lines<W: Write>(alloc: Global, text: &str, output: &mut W) -> Result<()> {
    let mut samples = Samples {
        alloc,
        samples: Vec::new(alloc),
    };
    for (number, line) in (1u64..).zip(text.lines()) {
        if let Err(fault) = samples.take(line, output) {
            bail!("line {number}: {fault}");
        }
    }
    Ok(())
}

impl<'a> Samples<'a> {
    /// Follows a line. Its first word is its kind.
    fn take<W: Write>(&mut self, line: &'a str, output: &mut W) -> Result<()> {
        let (word, rest) = line.split_once(' ').unwrap_or((line, ""));
        match word {
            "" | "%" => Ok(()),
            "dvi" => self.begin(FileKind::Dvi, rest, output),
            "metrics" => self.begin(FileKind::Metrics, rest, output),
            "script" => self.begin(FileKind::Script, rest, output),
            "bytes" => self.extend(rest),
            "line" => self.push_line(rest),
            "font" => self.hand_in(rest),
            "change" => self.change(rest, output),
            "each" => self.change_each(rest, output),
            _ => bail!("no line begins with {word}"),
        }
    }

    /// Begins a file without bytes, and prints its name.
    fn begin<W: Write>(&mut self, kind: FileKind, name: &'a str, output: &mut W) -> Result<()> {
        writeln!(output, "== {name}")?;
        self.samples.push(Sample::new(self.alloc, kind, name))?;
        Ok(())
    }

    /// Adds bytes to the file.
    fn extend(&mut self, digits: &str) -> Result<()> {
        let bytes = hex::decode(self.alloc, digits)?;
        self.last()?.bytes.extend_from_slice(&bytes)?;
        Ok(())
    }

    /// Adds a text and a line feed to the file.
    fn push_line(&mut self, text: &str) -> Result<()> {
        let sample = self.last()?;
        sample.bytes.extend_from_slice(text.as_bytes())?;
        sample.bytes.push(b'\n')?;
        Ok(())
    }

    /// Adds the first file with that name to the metric files of the last file.
    fn hand_in(&mut self, name: &str) -> Result<()> {
        let file = self.samples.iter().find(|sample| sample.name == name);
        let bytes = file.context("no file has this name")?.bytes.clone()?;
        let name = FontName::try_new(name.as_bytes().to_vec(self.alloc)?);
        let font = FontFile::new(name.context("no name of a font")?, bytes);
        self.last()?.fonts.push(font)?;
        Ok(())
    }

    /// Changes one byte of the file.
    fn change<W: Write>(&mut self, words: &str, output: &mut W) -> Result<()> {
        let alloc = self.alloc;
        let (place, value) = words.split_once(' ').context("no byte is given")?;
        let (place, value) = (place.parse()?, u8::from_str_radix(value, 16)?);
        self.last()?.change_byte(alloc, place, value, output)
    }

    /// Changes each byte of the file, or cuts it to each length.
    fn change_each<W: Write>(&mut self, what: &str, output: &mut W) -> Result<()> {
        let alloc = self.alloc;
        match what {
            "byte" => self.last()?.change_each_byte(alloc, output),
            "beginning" => self.last()?.cut_to_each_length(alloc, output),
            _ => bail!("neither each byte nor each beginning"),
        }
    }

    /// The file that was begun last.
    fn last(&mut self) -> Result<&mut Sample<'a>> {
        self.samples.last_mut().context("no file has begun")
    }
}
