//! Fonts by path, and faults of a command line.

ghost use Rattle.std.specs.Prelude.{◌≡◌};
ghost use Rattle.boxglue_words.specs.declared.fonts.WordFault.TheVariants.{Memory};

use std::alloc::{AllocError, AllocFailed};
use tfm_core::FontName;
use thiserror::Error;

/// A font of the command line, from a word NAME=TFM: its name, and the path of its metric file.
#[derive(Debug, Drop)]
pub struct NamedPath<'a> {
    pub name: FontName,
    pub path: &'a str,
}

/// Why a command line is refused.
#[derive(Debug, Drop, Error)]
pub enum WordFault<'a> {
    /// It has no valid form, or asks for help: the text is clap's. A word that begins with `-` ends here too, and not as NotPair, since clap reads
    /// the whole line first.
    #[error("{0}")]
    Line(String),
    /// A word is not NAME=TFM with a name of 1 to 255 bytes.
    #[error("not NAME=TFM: {0}")]
    NotPair(&'a str),
    /// A name is given twice.
    #[error("name given twice: {0}")]
    NameTwice(&'a str),
    /// A growth was refused.
    #[error("out of memory")]
    Memory,
}

impl From<AllocError> for WordFault<'_> {
    ghost from_gives = { λ _ fault. fault ≡ Memory };

    fn from(_error: AllocError) -> Self {
        WordFault::Memory
    }
}

impl<T: Drop> From<AllocFailed<T>> for WordFault<'_> {
    ghost from_gives = { λ _ fault. fault ≡ Memory };

    fn from(_failed: AllocFailed<T>) -> Self {
        WordFault::Memory
    }
}
