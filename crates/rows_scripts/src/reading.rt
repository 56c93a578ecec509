//! Reading a case file.

use crate::cases::{Case, Piece};
use crate::change::Change;
use crate::devices::{DeviceKind, FuseKind, Rerun};
use anyhow::{Context, Result, bail, ensure};
use boxglue_program::{FontFile, FontName};
use std::alloc::Global;
use std::str;

/// A font file that cases may use.
#[derive(Drop)]
struct StoredFile<'a> {
    name: &'a str,
    bytes: Vec<u8>,
}

/// The parts of a case file that were read.
#[derive(Drop)]
struct Reading<'a> {
    alloc: Global,
    files: Vec<StoredFile<'a>>,
    cases: Vec<Case<'a>>,
}

/// The cases of a case file. The error names the first line that breaks its form.
pub fn read_cases(alloc: Global, text: &[u8]) -> Result<Vec<Case<'_>>> {
    let mut reading = Reading {
        alloc,
        files: Vec::new(alloc),
        cases: Vec::new(alloc),
    };
    for (number, line) in (1u64..).zip(text.split(|byte| *byte == b'\n')) {
        if let Err(fault) = reading.take(line) {
            bail!("line {number}: {fault}");
        }
    }
    ensure!(!reading.is_in_repeat(), "the end: a repeat is open");
    Ok(reading.cases)
}

impl<'a> Reading<'a> {
    /// Takes a line.
    fn take(&mut self, line: &'a [u8]) -> Result<()> {
        let piece = match line {
            [] | [b'%', ..] => return Ok(()),
            [b'|', text @ ..] => Piece { text, ends: true },
            [b'\\', text @ ..] => Piece { text, ends: false },
            _ => {
                let words: Vec<&str> = str::from_utf8(line)?.split(' ').collect(self.alloc)?;
                return self.take_words(&words);
            }
        };
        self.case()?.pieces.push(piece)?;
        Ok(())
    }

    /// Takes the words of a line.
    fn take_words(&mut self, words: &[&'a str]) -> Result<()> {
        match *words {
            ["file", name] => self.begin_file(name)?,
            ["bytes", digits] => self.extend_file(digits)?,
            ["case", name] => self.begin_case(name)?,
            ["font", name] => self.hand_in(name, None)?,
            ["font", name, place, byte] => self.hand_in(name, Some(change(place, byte)?))?,
            ["device", ..] => self.case()?.device = device(self.alloc, words)?,
            ["resume", ..] => self.case()?.resume(rerun(words)?)?,
            ["each"] => self.case()?.each = true,
            ["last", count] => self.case()?.last = Some(count.parse()?),
            ["repeat", count] => self.case()?.begin_repeat(count.parse()?)?,
            ["again"] => self.case()?.end_repeat()?,
            _ => bail!("the form has no such line"),
        }
        Ok(())
    }

    /// Begins a font file without bytes.
    fn begin_file(&mut self, name: &'a str) -> Result<()> {
        let bytes = Vec::new(self.alloc);
        self.files.push(StoredFile { name, bytes })?;
        Ok(())
    }

    /// Appends bytes to the last font file.
    fn extend_file(&mut self, digits: &str) -> Result<()> {
        let file = self.files.last_mut().context("no file has begun")?;
        file.bytes
            .extend_from_slice(&hex::decode(self.alloc, digits)?)?;
        Ok(())
    }

    /// Gives the case the first font file with that name, unchanged or with a changed byte.
    fn hand_in(&mut self, name: &str, change: Option<Change>) -> Result<()> {
        let file = self.files.iter().find(|file| file.name == name);
        let mut bytes = file.context("no file has this name")?.bytes.clone()?;
        if let Some(change) = change {
            change.make(&mut bytes)?;
        }
        let name = FontName::try_new(name.as_bytes().to_vec(self.alloc)?);
        let file = FontFile::new(name.context("no name of a font")?, bytes);
        self.case()?.fonts.push(file)?;
        Ok(())
    }

    /// Begins a case.
    fn begin_case(&mut self, name: &'a str) -> Result<()> {
        ensure!(!self.is_in_repeat(), "a repeat is open");
        self.cases.push(Case::new(self.alloc, name))?;
        Ok(())
    }

    /// Whether a repeat of the last case is open.
    fn is_in_repeat(&self) -> bool {
        self.cases.last().is_some_and(|case| case.repeat.is_some())
    }

    /// The case that is being read.
    fn case(&mut self) -> Result<&mut Case<'a>> {
        self.cases.last_mut().context("no case has begun")
    }
}

/// The device that the words of a line describe.
fn device(alloc: Global, words: &[&str]) -> Result<DeviceKind> {
    Ok(match *words {
        ["device", "memory"] => DeviceKind::Memory,
        ["device", "broken"] => DeviceKind::Broken,
        ["device", "fuse", most, at] => DeviceKind::Fuse(fuse(most, at)?, Vec::new(alloc)),
        ["device", "fuse", most, "each", calls] => DeviceKind::EachCall {
            most: most.parse()?,
            calls: calls.parse()?,
        },
        _ => bail!("the form has no such device"),
    })
}

/// The run over the rest of a file that the words of a line describe.
fn rerun(words: &[&str]) -> Result<Rerun> {
    Ok(match *words {
        ["resume"] => Rerun::Same,
        ["resume", place, byte] => Rerun::Changed(change(place, byte)?),
        ["resume", "fuse", most, at] => Rerun::New(fuse(most, at)?),
        _ => bail!("the form has no such run"),
    })
}

/// The change that two words describe: a place, and a byte in two hexadecimal digits.
fn change(place: &str, byte: &str) -> Result<Change> {
    Ok(Change {
        place: place.parse()?,
        byte: u8::from_str_radix(byte, 16)?,
    })
}

/// The device that two words describe: how many bytes it takes a call, and the call at which it fails.
fn fuse(most: &str, at: &str) -> Result<FuseKind> {
    Ok(FuseKind {
        most: most.parse()?,
        at: at.parse()?,
    })
}
