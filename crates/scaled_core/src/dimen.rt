//! A dimension: a whole number of scaled points that fits.

ghost use Rattle.std.specs.Prelude.{◌≡◌, ◌*◌, ◌^◌, ◌+ℤ◌, ◌-ℤ◌, pos};
ghost use Rattle.std.specs.Option.{SomeIff};
ghost use Rattle.scaled_core.specs.Dimensions.{Fits, Within, dimension_of};

use std::marker::Model;

/// A number of scaled points, of absolute value at most 2^30 - 1 (TeX: The Program, part 7).
#[derive(Clone, Copy, Debug, PartialEq, Eq, PartialOrd, Ord)]
pub struct Dimen {
    value: i32,
}

impl Model for Dimen {
    ghost use Rattle.std.specs.Prelude.{ℤ};
    ghost use Rattle.scaled_core.specs.Dimensions.{Fits};

    ghost Value = { ℤ };

    ghost view = { λ d. d.value };

    ghost invariant = { λ d. Fits d.value };

    ghost inverse = { λ z. record { value = z } };
}

impl Dimen {
    /// The length 0 sp.
    pub const ZERO: Dimen = Dimen { value: 0 };

    /// The greatest length: 1073741823 sp (TeX: The Program, part 26, §421, `max_dimen`).
    pub const MAX: Dimen = Dimen {
        value: 1_073_741_823,
    };

    /// -1000pt: a previous depth with this value suppresses interline glue (TeX: The Program, part 16, §212, `ignore_depth`).
    pub const IGNORE_DEPTH: Dimen = Dimen { value: -65_536_000 };

    /// The dimension of `number` points, of 65,536 sp each.
    pub fn points(number: u8) -> Dimen
        ensures { result ≡ pos (65536 * number) }
    {
        Dimen {
            value: 65_536 * i32::from(number),
        }
    }

    /// The dimension of `value` scaled points, or `None` exactly when the number does not fit.
    pub fn try_new(value: i64) -> Option<Dimen>
        ensures fits { SomeIff result (Fits value) value }
        ensures value { result ≡ dimension_of value }
    {
        Dimen::from_wide(i128::from(value))
    }

    /// The dimension of `value` scaled points, where `value` is a wide sum, or `None` exactly when it does not fit.
    #[tactic(auto, using(crate::proofs::Fitting::dimensions))]
    pub fn from_wide(value: i128) -> Option<Dimen>
        ensures fits { SomeIff result (Fits value) value }
        ensures value { result ≡ dimension_of value }
    {
        if value < -1_073_741_823 {
            return None;
        }
        if value > 1_073_741_823 {
            return None;
        }
        Some(Dimen {
            value: value as i32,
        })
    }

    /// The dimension of `value` scaled points, which fit.
    pub fn new(value: i64) -> Dimen
        requires { Fits value }
        ensures { result ≡ value }
    {
        Dimen {
            value: value as i32,
        }
    }

    /// The number of scaled points, from -(2^30 - 1) to 2^30 - 1.
    pub fn get(self) -> i32
        ensures value { result ≡ self }
        ensures fits { Fits result }
    {
        self.value
    }

    /// The same dimension, with the fact that it fits. A contract sees only the number of scaled points; call this where a proof needs its range.
    pub fn known_to_fit(self) -> Dimen
        ensures value { result ≡ self }
        ensures fits { Fits result }
    {
        Dimen { value: self.value }
    }

    /// The sum of two dimensions, in scaled points; the sum may be no dimension.
    pub fn exact_add(self, other: Dimen) -> i64
        ensures value { result ≡ self +ℤ other }
        ensures value_bounded { Within (2 ^ 31) result }
    {
        i64::from(self.get()) + i64::from(other.get())
    }

    /// This dimension minus another, in scaled points; the difference may be no dimension.
    pub fn exact_sub(self, other: Dimen) -> i64
        ensures value { result ≡ self -ℤ other }
        ensures value_bounded { Within (2 ^ 31) result }
    {
        i64::from(self.get()) - i64::from(other.get())
    }

    /// The sum of two dimensions, or `None` exactly when it does not fit.
    pub fn checked_add(self, other: Dimen) -> Option<Dimen>
        ensures { result ≡ dimension_of (self +ℤ other) }
    {
        Dimen::try_new(self.exact_add(other))
    }
}
