//! Font files that a caller hands in.

ghost use Rattle.std.specs.Prelude.{◌≡◌, ◌≢◌, ◌++◌, ◌∷◌, [], true, OnErr, OnOk, IfOk};
ghost use Rattle.boxglue_calls.specs.Fonts.{are_named, file_of, files_of, is_name};

use std::alloc::{AllocError, Global};
use tfm_core::{FontFile, FontName};

/// The name by which scripts and DVI files mean a font, and the bytes of its metric file.
#[repr(C)]
#[derive(Clone, Copy)]
pub struct Font<'a> {
    pub name: &'a [u8],
    pub bytes: &'a [u8],
}

/// Whether these are the bytes of a font's name: 1 to 255 of them.
fn is_name(name: &[u8]) -> bool
    ensures { result ≡ is_name name.now }
{
    !name.is_empty() && name.len() <= 255
}

/// Whether each font has a name. It takes no memory.
pub fn are_named(fonts: &[Font<'_>]) -> bool
    ensures { result ≡ are_named fonts.now }
{
    fonts.iter().all(|font| is_name(font.name))
}

/// The file of a font, in memory of its own.
fn font_file(alloc: Global, font: &Font<'_>) -> Result<FontFile, AllocError>
    requires { is_name font.now.name.now ≡ true }
    ensures { IfOk result (λ file. file ≡ file_of font.now) }
{
    let name = font.name.to_vec(alloc)?;
    let bytes = font.bytes.to_vec(alloc)?;
    match FontName::try_new(name) {
        Some(name) => Ok(FontFile::new(name, bytes)),
        None => unreachable!(),
    }
}

/// Appends the file of a font to others.
fn push_font(alloc: Global, font: &Font<'_>, files: &mut Vec<FontFile>) -> Result<(), AllocError>
    requires { is_name font.now.name.now ≡ true }
    ensures { OnOk result (files.new.items ≡ files.old.items ++ file_of font.now ∷ []) }
{
    let file = font_file(alloc, font)?;
    files.push(file)?;
    Ok(())
}

/// The files of fonts that have names, in their order. It takes no memory where there are none.
pub fn font_files(alloc: Global, fonts: &[Font<'_>]) -> Result<Vec<FontFile>, AllocError>
    requires { are_named fonts.now ≡ true }
    ensures copied { IfOk result (λ files. files.items ≡ files_of fonts.now) }
    ensures memory { OnErr result (fonts.now ≢ []) }
{
    let mut files = Vec::new(alloc);
    for font in fonts {
        push_font(alloc, font, &mut files)?;
    }
    Ok(files)
}
