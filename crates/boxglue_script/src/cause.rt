//! The causes that make a line of a script bad.

ghost use Rattle.std.specs.Prelude.{◌≡◌};
ghost use Rattle.boxglue_script.specs.declared.cause.Cause.TheVariants.{Dimension};

use scaled_core::DimenFault;

/// Why a line gives no command. At the first bad field from the left, this is the cause.
#[derive(Clone, Copy, Debug, PartialEq, Eq)]
pub enum Cause {
    /// A byte of the line is not printable ASCII.
    Byte,
    /// A field is not one of the words of commands that can be there. A missing keyword is this cause too, if another field is in its place.
    Word,
    /// A field is missing: the line ends before its command does.
    Missing,
    /// A field comes after the whole command.
    Extra,
    /// A field is not a number, or is out of its range.
    Number,
    /// A field is not a dimension, or does not fit.
    Dimension,
    /// A field is not the name of a font.
    Name,
}

impl From<DimenFault> for Cause {
    ghost from_gives = { λ _ cause. cause ≡ Dimension };

    fn from(_fault: DimenFault) -> Cause {
        Cause::Dimension
    }
}
