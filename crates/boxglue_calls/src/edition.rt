//! The version of the library, and whether it is proved.

ghost use Rattle.std.specs.Prelude.{◌≡◌, true};

/// The version of the library: 10,000 times the first of its three numbers, 100 times the second, and the third.
pub fn version() -> u32
    ensures { result ≡ 10200 }
{
    10_200
}

/// Whether the library is proved. A build without proofs has a body in place of this one that returns false.
pub fn is_proved() -> bool
    ensures { result ≡ true }
{
    true
}
