//! The font files that a command line names.

ghost use Rattle.std.specs.Prelude.{◌≡◌, ◌++◌, ◌∷◌, [], List, IfOk, IfErr, OnOk};
ghost use Rattle.boxglue_words.specs.Hosts.{AreFilesOf, IsFileOf, IsUnread, IsUnreadOf};

use crate::NamedPath;
use crate::host::FileHost;
use crate::input_fault::InputFault;
use std::alloc::Global;
use tfm_core::FontFile;

/// The file of a font.
fn read_font<'a, H: FileHost>(
    alloc: Global,
    host: &H,
    font: &NamedPath<'a>,
) -> Result<FontFile, InputFault<'a>>
    ensures ok { IfOk result (IsFileOf (H.file host.now) font.now) }
    ensures err { IfErr result (IsUnreadOf (H.file host.now) font.now) }
{
    let path = font.path;
    let bytes = host.read_file(alloc, path).map_err(|fault| fault.at(path))?;
    let name = font.name.copy(alloc)?;
    Ok(FontFile::new(name, bytes))
}

/// Appends the file of a font.
fn push_font<'a, H: FileHost>(
    alloc: Global,
    host: &H,
    font: &NamedPath<'a>,
    files: &mut Vec<FontFile>,
) -> Result<(), InputFault<'a>>
    ensures ok { (before : List NamedPath) → AreFilesOf (H.file host.now) before files.old.items
        → OnOk result (AreFilesOf (H.file host.now) (before ++ font.now ∷ []) files.new.items) }
    ensures err { IfErr result (IsUnreadOf (H.file host.now) font.now) }
{
    let file = read_font(alloc, host, font)?;
    files.push(file)?;
    Ok(())
}

/// Reads the files of fonts, in order.
///
/// Errors: Unreadable with the path of the first one that cannot be read, OutOfMemory for a refused growth at one that can be. Those before it were
/// read, and those after it are not.
pub fn read_fonts<'a, H: FileHost>(
    alloc: Global,
    host: &H,
    fonts: &[NamedPath<'a>],
) -> Result<Vec<FontFile>, InputFault<'a>>
    ensures ok { IfOk result (λ files. AreFilesOf (H.file host.now) fonts.now files.items) }
    ensures err { IfErr result (IsUnread (H.file host.now) fonts.now) }
{
    let mut files = Vec::new(alloc);
    for font in fonts {
        push_font(alloc, host, font, &mut files)?;
    }
    Ok(files)
}
