//! Why an input was not read.

ghost use Rattle.std.specs.Prelude.{◌≡◌};
ghost use Rattle.boxglue_words.specs.Hosts.{fault_at};
ghost use Rattle.boxglue_words.specs.declared.input_fault.InputFault.TheVariants.{OutOfMemory};

use crate::host::ReadFault;
use std::alloc::{AllocError, AllocFailed};

/// Why an input was not read: the file of a font, a DVI file or standard input.
#[derive(Debug, Drop)]
pub enum InputFault<'a> {
    /// A growth of memory was refused, for a file that can be read.
    OutOfMemory,
    /// The file at this path could not be read; `-` is standard input.
    Unreadable(&'a str),
}

impl From<AllocError> for InputFault<'_> {
    ghost from_gives = { λ _ fault. fault ≡ OutOfMemory };

    fn from(_error: AllocError) -> Self {
        InputFault::OutOfMemory
    }
}

impl<T: Drop> From<AllocFailed<T>> for InputFault<'_> {
    ghost from_gives = { λ _ fault. fault ≡ OutOfMemory };

    fn from(_failed: AllocFailed<T>) -> Self {
        InputFault::OutOfMemory
    }
}

impl ReadFault {
    /// The fault of a reading at a path; `-` is standard input.
    pub fn at(self, path: &str) -> InputFault<'_>
        ensures { result ≡ fault_at path.entry self }
    {
        match self {
            ReadFault::OutOfMemory => InputFault::OutOfMemory,
            ReadFault::Unreadable => InputFault::Unreadable(path),
        }
    }
}
