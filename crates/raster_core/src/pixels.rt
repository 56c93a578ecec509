//! Places and lengths in pixels.

ghost use Rattle.std.specs.Prelude.{◌≡◌, ◌+◌, ◌*◌, ◌^◌, ◌*ℤ◌, ◌<◌, ◌≤◌, ◌&&◌, ℕ, pos, nat_lt, int_le, int_lt, unsigned_abs};
ghost use Rattle.scaled_core.specs.Dimensions.{Within};
ghost use Rattle.dvi_ops.specs.File.{AreUnits};
ghost use Rattle.dvi_ops.specs.View.{units as units_of};
ghost use Rattle.raster_core.specs.Words.{is_between};
ghost use Rattle.raster_core.specs.Pixels.{in_columns, in_rows, pixels, place, scale_of, spans};

use dvi_ops::Units;
use scaled_core::rounded;
use std::marker::Model;
use std::ops::Range;

/// The number of pixels of a DVI unit, as the fraction `num / den`.
#[derive(Clone, Copy, Debug)]
pub struct Scale {
    num: u128,
    den: u64,
}

impl Model for Scale {
    ghost use Rattle.std.specs.Prelude.{◌<◌, ◌≤◌, ◌^◌};
    ghost use Rattle.raster_core.specs.Pixels.{Scale as Fraction};

    ghost Value = { Fraction };

    ghost view = { λ s. record { num = s.num; den = s.den } };

    ghost invariant = { λ s. (s.num ≤ 2 ^ 76) × (0 < s.den) };

    ghost inverse = { λ f. record { num = f.num; den = f.den } };
}

impl Scale {
    /// The scale for positive units and at most 10,000 pixels an inch. A scale of 0 pixels an inch is allowed.
    pub fn new(units: Units, dpi: u32) -> Scale
        requires units { AreUnits (units_of units) }
        requires dpi { dpi ≤ 10000 }
        ensures { result ≡ scale_of (units_of units) dpi }
    {
        Scale {
            num: u128::from(units.num.unsigned_abs())
                * u128::from(units.mag.unsigned_abs())
                * u128::from(dpi),
            den: 254_000 * u64::from(units.den.unsigned_abs()) * 1000,
        }
    }

    /// A place in pixels, rounded to the nearest, halves away from zero.
    #[tactic(auto, unfolding(crate::specs::Pixels::place))]
    pub fn place(&self, at: i32) -> i128
        ensures value { result ≡ place self.now at }
        ensures value_bounded { Within (2 ^ 126) result }
    {
        rounded(times(at, self.num), self.den)
    }

    /// A length of a rule in pixels, rounded up. A length below 0 covers nothing, so painting is defined for every `Page`.
    #[tactic(auto, unfolding(crate::specs::Pixels::pixels))]
    pub fn pixels(&self, length: i32) -> u128
        ensures value { result ≡ pixels self.now length }
        ensures value_bounded { result ≤ 2 ^ 107 }
    {
        if length < 0 {
            return 0;
        }
        (length as u128 * self.num).div_ceil(u128::from(self.den))
    }

    /// The columns of a rule with its corner at `h`, cut to those from 0 and below `limit`.
    #[tactic(auto, unfolding(crate::specs::Pixels::in_columns))]
    pub fn columns(&self, h: i32, width: i32, limit: usize) -> Range<usize>
        ensures end_bounded { result.end ≤ limit }
        ensures exact { (x : ℕ) → x < limit → is_between result.start result.end x ≡ in_columns self.now h width x }
    {
        let first = self.place(h);
        cut(first, first + self.pixels(width) as i128 - 1, limit)
    }

    /// The rows of a rule with its corner at `v`, cut to those from 0 and below `limit`.
    #[tactic(auto, unfolding(crate::specs::Pixels::in_rows))]
    pub fn rows(&self, v: i32, height: i32, limit: usize) -> Range<usize>
        ensures end_bounded { result.end ≤ limit }
        ensures exact { (y : ℕ) → y < limit → is_between result.start result.end y ≡ in_rows self.now v height y }
    {
        let last = self.place(v);
        cut(last - self.pixels(height) as i128 + 1, last, limit)
    }
}

/// A place times the numerator of a scale.
fn times(at: i32, num: u128) -> i128
    requires { num ≤ 2 ^ 76 }
    ensures value { result ≡ at *ℤ pos num }
    ensures value_bounded { unsigned_abs result ≤ 2 ^ 126 }
{
    i128::from(at) * num as i128
}

/// The count of the numbers from 0 and below `limit` that are below `place`.
fn count_below(place: i128, limit: usize) -> usize
    ensures value_bounded { result ≤ limit }
    ensures exact { (x : ℕ) → x < limit → nat_lt x result ≡ int_lt (pos x) place }
{
    if place < 0 {
        0
    } else if place < limit as i128 {
        place as usize
    } else {
        limit
    }
}

/// The count of the numbers from 0 and below `limit` that are at most `place`.
fn count_up_to(place: i128, limit: usize) -> usize
    ensures value_bounded { result ≤ limit }
    ensures exact { (x : ℕ) → x < limit → nat_lt x result ≡ int_le (pos x) place }
{
    if place < 0 {
        0
    } else if place < limit as i128 {
        place as usize + 1
    } else {
        limit
    }
}

/// The numbers from `first` to `last` (included), cut to those from 0 and below `limit`.
fn cut(first: i128, last: i128, limit: usize) -> Range<usize>
    ensures end_bounded { result.end ≤ limit }
    ensures exact { (x : ℕ) → x < limit → is_between result.start result.end x ≡ spans first last x }
{
    count_below(first, limit)..count_up_to(last, limit)
}
