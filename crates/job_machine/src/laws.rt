//! A law of the values.

ghost use Rattle.std.specs.Prelude.{◌≡◌};

use crate::command::Register;

/// The first register has the number 0.
pub fn first_register() -> Register
    ensures { result ≡ 0 }
{
    Register::FIRST
}
