//! A case, and the output of its runs.

use crate::devices::{DeviceKind, FuseKind, Rerun};
use crate::runs::{Script, ScriptOutput};
use anyhow::{Context, Result, bail, ensure};
use boxglue_program::FontFile;
use std::alloc::{AllocError, Global};
use std::io::Write;
use std::num::NonZeroUsize;

/// A line of a script, or a piece of one.
#[derive(Clone, Copy)]
pub struct Piece<'a> {
    pub text: &'a [u8],
    /// Whether a line feed comes after it.
    pub ends: bool,
}

/// A script, with the fonts and the device that it is run with.
#[derive(Drop)]
pub struct Case<'a> {
    pub name: &'a str,
    pub fonts: Vec<FontFile>,
    pub device: DeviceKind,
    /// Whether each piece is a script of its own.
    pub each: bool,
    /// How many lines of the output are shown, from its end; all of them if there is no number.
    pub last: Option<usize>,
    pub pieces: Vec<Piece<'a>>,
    /// A repeat that is not ended yet.
    pub repeat: Option<Repeat>,
}

/// Pieces that are repeated: the place of the first of them, and how many times they come.
#[derive(Clone, Copy)]
pub struct Repeat {
    start: usize,
    count: usize,
}

impl<'a> Case<'a> {
    /// A case without a script, on a device in memory.
    pub fn new(alloc: Global, name: &'a str) -> Case<'a> {
        Case {
            name,
            fonts: Vec::new(alloc),
            device: DeviceKind::Memory,
            each: false,
            last: None,
            pieces: Vec::new(alloc),
            repeat: None,
        }
    }

    /// Begins pieces that come this many times.
    pub fn begin_repeat(&mut self, count: usize) -> Result<()> {
        ensure!(self.repeat.is_none(), "a repeat is open");
        let start = self.pieces.len();
        self.repeat = Some(Repeat { start, count });
        Ok(())
    }

    /// Ends these pieces, and repeats them.
    pub fn end_repeat(&mut self) -> Result<()> {
        let Repeat { start, count } = self.repeat.take().context("no repeat is open")?;
        let pieces = self.pieces.split_off(start.min(self.pieces.len()))?;
        for _ in 0..count {
            self.pieces.extend_from_slice(&pieces)?;
        }
        Ok(())
    }

    /// Adds a run over the rest of the file. Only a device that may fail at one call has one.
    pub fn resume(&mut self, rerun: Rerun) -> Result<()> {
        match &mut self.device {
            DeviceKind::Fuse(_, reruns) => reruns.push(rerun)?,
            _ => bail!("no device that may fail at one call"),
        }
        Ok(())
    }

    /// Runs the script, or each of the scripts, and prints the name and the output.
    pub fn run<W: Write>(&self, alloc: Global, output: &mut W) -> Result<()> {
        writeln!(output, "== {}", self.name)?;
        if !self.each {
            let script = script_of(alloc, &self.pieces)?;
            return self.run_one(alloc, &script, output);
        }
        for piece in &self.pieces {
            output.write_all(if piece.ends { b"|" } else { b"\\" })?;
            output.write_all(piece.text)?;
            output.write_all(b"\n")?;
            let script = script_of(alloc, &[*piece])?;
            self.run_one(alloc, &script, output)?;
        }
        Ok(())
    }

    /// Runs a script on the device, and prints the output and whether all was accepted.
    fn run_one<W: Write>(&self, alloc: Global, text: &[u8], output: &mut W) -> Result<()> {
        let script = Script {
            text,
            fonts: &self.fonts,
        };
        match &self.device {
            DeviceKind::Memory => self.print(alloc, &script.on_memory(alloc)?, output),
            DeviceKind::Broken => self.print(alloc, &script.on_broken(alloc)?, output),
            DeviceKind::Fuse(kind, reruns) => {
                self.run_on_fuse(alloc, &script, kind, reruns, output)
            }
            DeviceKind::EachCall { most, calls } => {
                self.run_for_each_call(alloc, &script, *most, *calls, output)
            }
        }
    }

    /// Runs a script on a device that may fail, and then again in each of these ways.
    fn run_on_fuse<W: Write>(
        &self,
        alloc: Global,
        script: &Script,
        kind: &FuseKind,
        reruns: &[Rerun],
        output: &mut W,
    ) -> Result<()> {
        let mut run = script.on_fuse(alloc, kind)?;
        self.print(alloc, &run.outcome_text(alloc)?, output)?;
        for rerun in reruns {
            run = script.run_again(alloc, run, rerun)?;
            self.print(alloc, &run.outcome_text(alloc)?, output)?;
        }
        Ok(())
    }

    /// Runs a script on a device that does not fail. Then, for each call, runs it on a device that fails at this call, and again over the rest of its
    /// file.
    fn run_for_each_call<W: Write>(
        &self,
        alloc: Global,
        script: &Script,
        most: NonZeroUsize,
        calls: u64,
        output: &mut W,
    ) -> Result<()> {
        let whole = script.on_fuse(alloc, &FuseKind { most, at: 0 })?;
        self.print(alloc, &whole.outcome_text(alloc)?, output)?;
        for at in 1..=calls {
            print_call(alloc, script, &FuseKind { most, at }, whole.bytes(), output)?;
        }
        Ok(())
    }

    /// Prints the shown part of a text, and whether all was accepted.
    fn print<W: Write>(&self, alloc: Global, written: &ScriptOutput, output: &mut W) -> Result<()> {
        self.print_last_lines(alloc, &written.text, output)?;
        writeln!(output, "{}", verdict(written.accepted))?;
        Ok(())
    }

    /// Prints the last lines of a text, and before them the number of lines that are left out.
    fn print_last_lines<W: Write>(&self, alloc: Global, text: &[u8], output: &mut W) -> Result<()> {
        let lines: Vec<&[u8]> = text.split_inclusive(|byte| *byte == b'\n').collect(alloc)?;
        let before = self
            .last
            .map_or(0, |count| lines.len().saturating_sub(count));
        if before > 0 {
            writeln!(output, ".. {before}")?;
        }
        for line in lines.iter().skip(before) {
            output.write_all(line)?;
        }
        Ok(())
    }
}

/// Runs a script on a device that fails at a call, and again over the rest of its file. Prints how many bytes were taken before the failure, and
/// whether the device then has the whole file.
fn print_call<W: Write>(
    alloc: Global,
    script: &Script,
    kind: &FuseKind,
    whole: &[u8],
    output: &mut W,
) -> Result<()> {
    let run = script.on_fuse(alloc, kind)?;
    write!(output, "call {}: ", kind.at)?;
    write!(
        output,
        "{} bytes, {}; ",
        run.bytes().len(),
        verdict(run.is_accepted())
    )?;
    let again = script.run_again(alloc, run, &Rerun::Same)?;
    let file = if again.bytes() == whole {
        "whole"
    } else {
        "not whole"
    };
    writeln!(output, "resumed: {file}, {}", verdict(again.is_accepted()))?;
    Ok(())
}

/// The word for a run that was accepted as a whole, or not.
fn verdict(accepted: bool) -> &'static str {
    if accepted { "accepted" } else { "refused" }
}

/// The script of some pieces.
fn script_of(alloc: Global, pieces: &[Piece]) -> Result<Vec<u8>, AllocError> {
    let mut script = Vec::new(alloc);
    for piece in pieces {
        script.extend_from_slice(piece.text)?;
        if piece.ends {
            script.push(b'\n')?;
        }
    }
    Ok(script)
}
