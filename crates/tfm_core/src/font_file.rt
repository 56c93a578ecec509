//! Font files, which the caller provides by name.

ghost use Rattle.std.specs.Prelude.{◌≡◌, option_copied, IfOk};
ghost use Rattle.std.specs.Option.{SomeIff};
ghost use Rattle.tfm_core.specs.NamedBytes.{NamedBytes, IsFontName, file_named};

use std::alloc::{AllocError, Global};
use std::marker::Model;

/// The name of a font: 1 to 255 bytes.
#[derive(Debug, Drop)]
pub struct FontName {
    bytes: Vec<u8>,
}

impl Model for FontName {
    ghost use Rattle.std.specs.Prelude.{ℕ, List};
    ghost use Rattle.tfm_core.specs.NamedBytes.{IsFontName};

    ghost Value = { List ℕ };

    ghost view = { λ name. name.bytes.items };

    ghost invariant = { λ name. IsFontName name.bytes.items };
}

impl FontName {
    /// The name with these bytes, or `None` exactly when there are not 1 to 255 of them.
    pub fn try_new(bytes: Vec<u8>) -> Option<FontName>
        ensures { SomeIff result (IsFontName bytes.items) bytes.items }
    {
        if bytes.is_empty() {
            return None;
        }
        if bytes.len() > 255 {
            return None;
        }
        Some(FontName { bytes })
    }

    /// The bytes of the name.
    pub fn as_bytes(&self) -> &[u8]
        ensures value { result.now ≡ self.now }
        ensures name { IsFontName self.now }
    {
        &self.bytes
    }

    /// A copy of the name. The error is that memory was refused.
    pub fn copy(&self, alloc: Global) -> Result<FontName, AllocError>
        ensures { IfOk result (λ copy. copy ≡ self.now) }
    {
        let bytes = self.bytes.to_vec(alloc)?;
        Ok(FontName { bytes })
    }
}

/// A font file: its name and its bytes.
#[derive(Debug, Drop)]
pub struct FontFile {
    name: FontName,
    bytes: Vec<u8>,
}

impl Model for FontFile {
    ghost use Rattle.tfm_core.specs.NamedBytes.{NamedBytes};

    ghost Value = { NamedBytes };

    ghost view = { λ file. record { name = file.name; bytes = file.bytes.items } };
}

impl FontFile {
    /// The file with this name and these bytes.
    pub fn new(name: FontName, bytes: Vec<u8>) -> FontFile
        ensures { result ≡ record { name = name; bytes = bytes.items } }
    {
        FontFile { name, bytes }
    }

    /// The name of the file.
    pub fn name(&self) -> &FontName
        ensures { result.now ≡ self.now.name }
    {
        &self.name
    }

    /// The bytes of the file.
    pub fn bytes(&self) -> &[u8]
        ensures { result.now ≡ self.now.bytes }
    {
        &self.bytes
    }

    /// A copy of the file. The error is that memory was refused.
    pub fn copy(&self, alloc: Global) -> Result<FontFile, AllocError>
        ensures { IfOk result (λ copy. copy ≡ self.now) }
    {
        let name = self.name.copy(alloc)?;
        let bytes = self.bytes.to_vec(alloc)?;
        Ok(FontFile { name, bytes })
    }
}

/// The first file with this name. Does not allocate.
pub fn file_named<'a>(files: &'a [FontFile], name: &[u8]) -> Option<&'a FontFile>
    ensures { option_copied result ≡ file_named name.now files.now }
{
    files.iter().find(|file| file.name().as_bytes() == name)
}
