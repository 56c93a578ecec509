//! Exact fractions, used as glue ratios.

ghost use Rattle.std.specs.Prelude.{◌≡◌, ◌*ℤ◌, ◌<ℤ◌, ◌≤◌, ◌^◌, pos, unsigned_abs, IfSome, IsSome};
ghost use Rattle.scaled_core.specs.Dimensions.{Within};
ghost use Rattle.scaled_core.specs.Rounding.{IsRounded};
ghost use Rattle.scaled_core.specs.Fractions.{round_times};

use crate::rounding::{rounded, rounded_small};
use std::marker::Model;

/// A product of two numbers of at most this size can be doubled in 64 bits, with space for a denominator added to it.
const SMALL: u64 = 1 << 31;

/// The exact fraction `num / den`, with `den` above 0, which need not be in lowest terms (own: TeX keeps glue ratios in floating point). `==`
/// compares numerators and denominators, so 1/2 and 2/4 differ.
#[derive(Clone, Copy, Debug, PartialEq, Eq)]
pub struct Ratio {
    /// The numerator, of either sign.
    pub num: i64,
    /// The denominator, above 0.
    pub den: i64,
}

impl Model for Ratio {
    ghost use Rattle.std.specs.Prelude.{pos, ◌<ℤ◌};
    ghost use Rattle.scaled_core.specs.Fractions.{Fraction};

    ghost Value = { Fraction };

    ghost view = { λ r. record { num = r.num; den = r.den } };

    ghost invariant = { λ r. pos 0 <ℤ r.den };

    ghost inverse = { λ f. record { num = f.num; den = f.den } };
}

impl Ratio {
    /// The fraction `num / den`, for a `den` above 0.
    pub fn new(num: i64, den: i64) -> Ratio
        requires { pos 0 <ℤ den }
        ensures { result ≡ record { num = num; den = den } }
    {
        Ratio { num, den }
    }

    /// `num * amount / den`, rounded to the nearest whole number, halves away from zero. The product is exact for every amount, and the result is at
    /// most 2^126 in absolute value. Does not allocate.
    #[tactic(auto, unfolding(crate::specs::Fractions::round_times))]
    pub fn round_times(&self, amount: i64) -> i128
        ensures nearest { IsRounded (self.now.num *ℤ amount) (unsigned_abs self.now.den) result }
        ensures value { result ≡ round_times self.now amount }
        ensures value_bounded { Within (2 ^ 126) result }
    {
        match self.round_small(amount) {
            Some(rounded) => i128::from(rounded),
            None => rounded(product(self.num, amount), self.den as u64),
        }
    }

    /// The same in 64 bits, or `None` if the numerator or the amount is too large for that. Nearly all numerators and amounts on pages are small
    /// enough. Does not allocate.
    #[inline(always)]
    #[tactic(auto, unfolding(crate::specs::Fractions::round_times))]
    pub fn round_small(&self, amount: i64) -> Option<i64>
        ensures nearest { IfSome result (λ rounded. IsRounded (self.now.num *ℤ amount) (unsigned_abs self.now.den) rounded) }
        ensures value { IfSome result (λ rounded. rounded ≡ round_times self.now amount) }
        ensures value_bounded { IfSome result (Within (2 ^ 62)) }
        ensures small { unsigned_abs self.now.num ≤ 2 ^ 31 → unsigned_abs amount ≤ 2 ^ 31 → IsSome result }
    {
        let product = small_product(self.num, amount)?;
        Some(rounded_small(product, self.den as u64))
    }
}

/// The product of two numbers in 64 bits, or `None` if one of them is above 2^31 in absolute value. 64-bit division is much faster than that in 128.
#[inline(always)]
fn small_product(a: i64, b: i64) -> Option<i64>
    ensures value { IfSome result (λ product. product ≡ a *ℤ b) }
    ensures value_bounded { IfSome result (λ product. unsigned_abs product ≤ 2 ^ 62) }
    ensures small { unsigned_abs a ≤ 2 ^ 31 → unsigned_abs b ≤ 2 ^ 31 → IsSome result }
{
    if a.unsigned_abs() <= SMALL && b.unsigned_abs() <= SMALL {
        return Some(a * b);
    }
    None
}

/// The product of two numbers in 128 bits.
fn product(a: i64, b: i64) -> i128
    ensures value { result ≡ a *ℤ b }
    ensures value_bounded { unsigned_abs result ≤ 2 ^ 126 }
{
    i128::from(a) * i128::from(b)
}
