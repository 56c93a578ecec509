//! The count of a host's failures, for contracts alone.

ghost use Rattle.std.specs.Prelude.{◌≡◌, ◌+◌, ℕ};
ghost use Rattle.std.specs.Borrow.{ftrue};

use std::marker::Model;

/// How often a host has failed. It takes no bytes, and only contracts read it. A number in the code would need space for one more at each call, and a
/// truth value would let a device fail by itself once its host had failed.
#[derive(Debug, Drop)]
pub struct FailureCount {
    pub ghost count: { ℕ },
}

impl Model for FailureCount {
    ghost also_owns = { λ _. ftrue };
}

impl FailureCount {
    /// The count of a host that has not failed.
    pub fn zero() -> FailureCount
        ensures { result.count ≡ 0 }
    {
        FailureCount {}
    }

    /// The count after one more failure.
    fn next(&self) -> FailureCount
        ensures { result.count ≡ self.now.count + 1 }
    {
        FailureCount {}
    }

    /// Counts a failure.
    pub fn raise(&mut self)
        ensures { self.new.count ≡ self.old.count + 1 }
    {
        *self = self.next();
    }
}
