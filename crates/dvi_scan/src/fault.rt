//! Why bytes are no DVI file: the rule that they break, and its place.

ghost use Rattle.std.specs.Prelude.{◌≡◌};
ghost use Rattle.dvi_scan.specs.Ends.{cause_of};
ghost use Rattle.dvi_scan.specs.declared.fault.FrameFault.TheVariants.{OutOfMemory};

use dvi_ops::OpFault;
use std::alloc::AllocFailed;
use thiserror::Error;

/// A rule of a DVI file.
#[derive(Clone, Copy, Debug, PartialEq, Eq, Error)]
pub enum DviCause {
    /// The file does not end with four or more bytes 223 after six or more other bytes.
    #[error("the bytes 223 at the end are missing")]
    Trailer,
    /// The version before the bytes 223 is not 2.
    #[error("the version is not 2")]
    Version,
    /// A byte begins no instruction, or an instruction is not allowed at its place.
    #[error("no instruction may stand here that begins so")]
    Opcode,
    /// A pointer does not name what it has to name, or a page is not in the chain of pages.
    #[error("a pointer does not name what it has to name")]
    Pointer,
    /// The number of pages is not the one in the postamble.
    #[error("the number of pages is wrong")]
    Count,
    /// The file does not begin with a preamble of version 2 whose units are positive and equal to those of the postamble.
    #[error("the preamble is missing or wrong")]
    Preamble,
    /// An instruction extends past the end of its part of the file.
    #[error("an instruction is cut off")]
    Truncated,
    /// A pop without its push, a push without its pop, or too many open pushes.
    #[error("push and pop do not match, or too many are open")]
    Stack,
    /// A selected font has no definition, or two definitions of one number differ, or the size of a font is out of range.
    #[error("a font is not defined, or defined wrongly")]
    Font,
    /// A character is not in the font, or no font is selected.
    #[error("a character is not in the font")]
    Glyph,
    /// The value of h or v leaves signed 32 bits.
    #[error("a place is out of range")]
    Range,
}

/// A broken rule, and the place where it shows, in bytes from the start of the file.
#[derive(Clone, Copy, Debug, PartialEq, Eq, Error)]
#[error("{cause} (at byte {place})")]
pub struct BadDvi {
    pub place: usize,
    pub cause: DviCause,
}

/// Why the end of a file, its chain of pages or the definitions after post are not accepted.
#[derive(Clone, Copy, Debug, PartialEq, Eq, Error)]
pub enum FrameFault {
    /// A growth of memory was refused.
    #[error("out of memory")]
    OutOfMemory,
    /// The bytes break this rule.
    #[error("{0}")]
    Bad(BadDvi),
}

impl From<OpFault> for DviCause {
    ghost from_gives = { λ fault cause. cause ≡ cause_of fault };

    fn from(fault: OpFault) -> DviCause {
        match fault {
            OpFault::Opcode => DviCause::Opcode,
            OpFault::Truncated => DviCause::Truncated,
        }
    }
}

impl<T: Drop> From<AllocFailed<T>> for FrameFault {
    ghost from_gives = { λ _ fault. fault ≡ OutOfMemory };

    fn from(_error: AllocFailed<T>) -> FrameFault {
        FrameFault::OutOfMemory
    }
}
