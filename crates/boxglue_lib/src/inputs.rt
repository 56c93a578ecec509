//! Reading the input of a task.

ghost use Rattle.std.specs.Prelude.{◌≡◌, IfErr, IfOk};
ghost use Rattle.boxglue_words.specs.Hosts.{AreFilesOf};
ghost use Rattle.boxglue_words.specs.Readings.{IsFileReading, IsReading};
ghost use Rattle.boxglue_lib.specs.Inputs.{IsUnreadDvi, IsUnreadScript};

use boxglue_program::FontFile;
use boxglue_words::{FileHost, InputFault, NamedPath, StandardInput, read_fonts};
use std::alloc::Global;

/// The bytes of a script or a DVI file, and the files of the fonts.
#[derive(Drop)]
pub struct Inputs {
    pub bytes: Vec<u8>,
    pub files: Vec<FontFile>,
}

/// Reads the files of fonts, in the order of their words, and then the script of standard input.
///
/// Errors: Unreadable with the path that could not be read, `-` for standard input; OutOfMemory for a refused growth at one that can be. Nothing was
/// run or created then.
#[tactic(auto, using(crate::proofs::EndLemmas::unread_script))]
pub fn read_script_inputs<'a, H: FileHost, I: StandardInput + Drop>(
    alloc: Global,
    host: &H,
    input: I,
    fonts: &[NamedPath<'a>],
) -> Result<Inputs, InputFault<'a>>
    ensures script { IfOk result (λ read. IsReading (I.remaining input) read.bytes.items) }
    ensures files { IfOk result (λ read. AreFilesOf (H.file host.now) fonts.now read.files.items) }
    ensures err { IfErr result (IsUnreadScript (H.file host.now) (I.remaining input) fonts.now) }
{
    let files = read_fonts(alloc, host, fonts)?;
    let bytes = input.read_whole(alloc).map_err(|fault| fault.at("-"))?;
    Ok(Inputs { bytes, files })
}

/// Reads a DVI file, and then the files of fonts, in the order of their words.
///
/// Errors: Unreadable with the path that could not be read; OutOfMemory for a refused growth at one that can be.
#[tactic(auto, using(crate::proofs::EndLemmas::unread_dvi))]
pub fn read_dvi_inputs<'a, H: FileHost>(
    alloc: Global,
    host: &H,
    dvi: &'a str,
    fonts: &[NamedPath<'a>],
) -> Result<Inputs, InputFault<'a>>
    ensures dvi { IfOk result (λ read. IsFileReading (H.file host.now dvi.entry.now) read.bytes.items) }
    ensures files { IfOk result (λ read. AreFilesOf (H.file host.now) fonts.now read.files.items) }
    ensures err { IfErr result (IsUnreadDvi (H.file host.now) dvi.entry.now fonts.now) }
{
    let bytes = host.read_file(alloc, dvi).map_err(|fault| fault.at(dvi))?;
    let files = read_fonts(alloc, host, fonts)?;
    Ok(Inputs { bytes, files })
}
