//! The answer to a file.

use anyhow::{Context, Result, bail};
use boxglue_lib::list_file;
use boxglue_print::Output;
use boxglue_program::{FontFile, run_memory};
use std::alloc::Global;
use tfm_core::{Tfm, TfmFault};

/// The kind of a file.
#[derive(Clone, Copy)]
pub enum FileKind {
    /// A DVI file. The answer is its listing.
    Dvi,
    /// A metric file. It is read.
    Metrics,
    /// A script. It is run on a device in memory.
    Script,
}

impl FileKind {
    /// The answer to a file of this kind, with these metric files.
    pub fn answer(self, alloc: Global, bytes: &[u8], fonts: &[FontFile]) -> Result<Output> {
        match self {
            FileKind::Dvi => dvi_answer(alloc, bytes, fonts),
            FileKind::Metrics => metrics_answer(alloc, bytes),
            FileKind::Script => script_answer(alloc, bytes, fonts),
        }
    }
}

/// The listing of a DVI file, or the line of its refusal.
fn dvi_answer(alloc: Global, bytes: &[u8], fonts: &[FontFile]) -> Result<Output> {
    let mut text = Vec::new(alloc);
    let accepted = list_file(alloc, bytes, fonts, &mut text)?;
    Ok(Output { text, accepted })
}

/// The answer to a metric file: `accepted`, or the line of the refusal.
fn metrics_answer(alloc: Global, bytes: &[u8]) -> Result<Output> {
    let fault = Tfm::read(alloc, bytes).err();
    let text = match fault {
        None => format!(in alloc; "accepted\n")?,
        Some(TfmFault::Bad(cause)) => format!(in alloc; "refused 5 BadTfm {cause:?}\n")?,
        Some(TfmFault::OutOfMemory) => bail!("memory was refused"),
    };
    Ok(Output {
        text: text.into_bytes(),
        accepted: fault.is_none(),
    })
}

/// The answers to a script, and the bytes of its pages.
fn script_answer(alloc: Global, bytes: &[u8], fonts: &[FontFile]) -> Result<Output> {
    let mut text = Vec::new(alloc);
    let done = run_memory(alloc, bytes, fonts, &mut text).ok();
    let accepted = done.context("memory was refused")?;
    Ok(Output { text, accepted })
}
