//! Runs of a script on a device, and runs of it again over the rest of its file.

use crate::devices::{BrokenDevice, FuseKind, Rerun};
use anyhow::{Context, Result, ensure};
use boxglue_program::{Device, FontFile, Fuse, run_memory, run_rest, run_script};
use dvi_device::write_all;
use std::alloc::Global;
use std::io::Write;

/// The output of a script, and whether all was accepted.
#[derive(Drop)]
pub struct ScriptOutput {
    pub text: Vec<u8>,
    pub accepted: bool,
}

/// The answers of a run on a device that may fail, and the device after it.
#[derive(Drop)]
pub struct FuseRun {
    answers: Vec<u8>,
    accepted: bool,
    device: Fuse,
}

impl FuseRun {
    /// Whether all was accepted.
    pub fn is_accepted(&self) -> bool {
        self.accepted
    }

    /// The bytes that the device took.
    pub fn bytes(&self) -> &[u8] {
        self.device.bytes()
    }

    /// The answers, the bytes in hexadecimal digits, sixteen a line, and the count of failures.
    pub fn outcome_text(&self, alloc: Global) -> Result<ScriptOutput> {
        let mut text = self.answers.clone()?;
        for line in self.bytes().chunks(16) {
            writeln!(text, "{}", hex::encode(alloc, line)?)?;
        }
        writeln!(text, "failures {}", self.device.failures())?;
        Ok(ScriptOutput {
            text,
            accepted: self.accepted,
        })
    }
}

/// A script, and the font files that it is run with.
#[derive(Clone, Copy)]
pub struct Script<'a> {
    pub text: &'a [u8],
    pub fonts: &'a [FontFile],
}

impl Script<'_> {
    /// The output of the script on a device in memory.
    pub fn on_memory(&self, alloc: Global) -> Result<ScriptOutput> {
        let mut text = Vec::new(alloc);
        let done = run_memory(alloc, self.text, self.fonts, &mut text).ok();
        let accepted = done.context("memory was refused")?;
        Ok(ScriptOutput { text, accepted })
    }

    /// The output of the script on a device that takes nothing.
    pub fn on_broken(&self, alloc: Global) -> Result<ScriptOutput> {
        let mut text = Vec::new(alloc);
        let done = run_script(alloc, self.text, self.fonts, BrokenDevice::new(), &mut text).ok();
        let (accepted, device) = done.context("memory was refused")?;
        writeln!(text, "failures {}", device.failures())?;
        Ok(ScriptOutput { text, accepted })
    }

    /// Runs the script on a new device that may fail.
    pub fn on_fuse(&self, alloc: Global, kind: &FuseKind) -> Result<FuseRun> {
        let mut answers = Vec::new(alloc);
        let device = kind.device(alloc);
        let done = run_script(alloc, self.text, self.fonts, device, &mut answers).ok();
        let (accepted, device) = done.context("memory was refused")?;
        Ok(FuseRun {
            answers,
            accepted,
            device,
        })
    }

    /// Runs the script again over the rest of its file, after a run.
    pub fn run_again(&self, alloc: Global, run: FuseRun, rerun: &Rerun) -> Result<FuseRun> {
        let mut sent = Vec::from_slice(alloc, run.bytes())?;
        match rerun {
            Rerun::Same => self.over_rest(alloc, run.device, sent),
            Rerun::Changed(change) => {
                change.make(&mut sent)?;
                self.over_rest(alloc, run.device, sent)
            }
            Rerun::New(kind) => {
                let mut device = kind.device(alloc);
                write_all(&mut device, &sent)?;
                self.over_rest(alloc, device, sent)
            }
        }
    }

    /// Runs the script over the rest of its file, on a device to which these bytes were sent before.
    fn over_rest(&self, alloc: Global, device: Fuse, sent: Vec<u8>) -> Result<FuseRun> {
        ensure!(
            device.failures() < u64::MAX,
            "no failure more can be counted"
        );
        let mut answers = Vec::new(alloc);
        let done = run_rest(alloc, self.text, self.fonts, device, sent, &mut answers).ok();
        let (accepted, device) = done.context("memory was refused")?;
        Ok(FuseRun {
            answers,
            accepted,
            device,
        })
    }
}
