//! An earlier value, for contracts alone.

ghost use Rattle.std.specs.Prelude.{◌≡◌};
ghost use Rattle.std.specs.Borrow.{ftrue};

use std::marker::{Model, PhantomData};

/// A value as it was when the snapshot was made. It has no size, and only contracts read it.
#[derive(Drop)]
pub struct Snapshot<T> {
    of: PhantomData<T>,
    pub ghost seen: { T },
}

impl<T> Model for Snapshot<T> {
    ghost also_owns = { λ _. ftrue };
}

impl<T> Snapshot<T> {
    /// A snapshot of the value as it is now.
    pub fn of(_value: &T) -> Snapshot<T>
        ensures { result.seen ≡ _value.now }
    {
        Snapshot { of: PhantomData }
    }
}
