//! Sizes of fonts, and the scaling of words of a metric file (TeX: The Program, part 30, §571 and §572).

ghost use Rattle.std.specs.Prelude.{◌≡◌, ◌↔◌, ◌^◌, ◌*ℤ◌, ◌<◌, false, pos, IsTrue, IsSome, IfSome, FitsSigned, unsigned_abs};
ghost use Rattle.std.specs.Int.{w64, int_div_euclid};
ghost use Rattle.std.specs.Option.{SomeIff};
ghost use Rattle.tfm_core.specs.Rules.{breaks_design_size};
ghost use Rattle.tfm_core.specs.Scaling.{design_size_of, IsFontSize, IsCleared, IsScaled, is_fix_word, cleared_bits, kept_size, scaled_word};
ghost use Rattle.tfm_core.specs.Scaling.{scaled as scaled_by};

use std::marker::Model;

/// The size of a font in scaled points: 1 to 2^27 - 1.
#[derive(Clone, Copy, Debug, PartialEq, Eq, PartialOrd, Ord)]
pub struct FontSize {
    size: i32,
}

impl Model for FontSize {
    ghost use Rattle.std.specs.Prelude.{ℤ};
    ghost use Rattle.tfm_core.specs.Scaling.{IsFontSize};

    ghost Value = { ℤ };

    ghost view = { λ z. z.size };

    ghost invariant = { λ z. IsFontSize z.size };

    ghost inverse = { λ z. record { size = z } };
}

impl FontSize {
    /// The size of this number of scaled points, or `None` exactly when the number is not 1 to 2^27 - 1.
    pub fn try_new(size: i64) -> Option<FontSize>
        ensures { SomeIff result (IsFontSize size) size }
    {
        if size < 1 {
            return None;
        }
        if size > 134_217_727 {
            return None;
        }
        Some(FontSize { size: size as i32 })
    }

    /// The design size in the header of a metric file (TFtoPL, 10).
    pub(crate) fn from_design_word(word: i32) -> FontSize
        requires { breaks_design_size word ≡ false }
        ensures { result ≡ design_size_of word }
    {
        FontSize { size: word / 16 }
    }

    /// The number of scaled points.
    pub fn get(self) -> i32
        ensures value { result ≡ self }
        ensures size { IsFontSize result }
    {
        self.size
    }
}

/// The number of low bits of a size that are cleared before scaling: TeX keeps at most 23 bits.
#[tactic(auto, unfolding(crate::specs::Scaling::cleared_bits))]
fn cleared_bits(size: u32) -> u32
    ensures value { result ≡ cleared_bits size }
    ensures value_bounded { result < 5 }
{
    if size < 1 << 23 {
        return 0;
    }
    if size < 1 << 24 {
        return 1;
    }
    if size < 1 << 25 {
        return 2;
    }
    if size < 1 << 26 {
        return 3;
    }
    4
}

/// A size with its low bits cleared.
#[tactic(auto, using(crate::proofs::ScalingLemmas::scaling), unfolding(crate::specs::Scaling::kept_size))]
fn kept_size(size: FontSize) -> u32
    ensures value { result ≡ kept_size size }
    ensures value_bounded { result < 2 ^ 27 }
    ensures cleared { IsCleared (unsigned_abs size) (cleared_bits (unsigned_abs size)) }
{
    let size = size.get() as u32;
    size - size % (1 << cleared_bits(size))
}

/// Whether the first byte of a word is 0 or 255: then the number is within 16 design sizes.
#[tactic(auto, unfolding(crate::specs::Scaling::is_fix_word))]
pub fn is_fix_word(word: i32) -> bool
    ensures value { result ≡ is_fix_word word }
{
    matches!(word.cast_unsigned() / (1 << 24), 0 | 255)
}

/// The floor of `fix * kept / 2^20`.
fn floor(fix: i32, kept: u32) -> i64
    requires { kept < 2 ^ 27 }
    ensures value { result ≡ int_div_euclid (fix *ℤ pos kept) (pos (2 ^ 20)) }
    ensures fits { FitsSigned w64 result }
{
    (i64::from(fix) * i64::from(kept)).div_euclid(1 << 20)
}

/// The size of a fix word, in scaled points.
#[tactic(auto, using(crate::proofs::ScalingLemmas::scaling))]
pub fn scaled_fix(fix: i32, size: FontSize) -> i64
    ensures floor { IsScaled fix size result }
    ensures value { result ≡ scaled_by size fix }
{
    floor(fix, kept_size(size))
}

/// The size of a word of a metric file, in scaled points: the floor of fix * kept / 2^20, where `kept` is the font's size with its lowest j bits
/// cleared, and j is the least number with size < 2^(23 + j) (TeX: The Program, part 30, §571 and §572). `None` exactly when the word's first byte is
/// neither 0 nor 255. Does not allocate.
#[tactic(auto, unfolding(crate::specs::Scaling::scaled_word))]
pub fn scaled(fix: i32, size: FontSize) -> Option<i64>
    ensures fits { IsSome result ↔ IsTrue (is_fix_word fix) }
    ensures floor { IfSome result (λ q. IsScaled fix size q) }
    ensures value { result ≡ scaled_word size fix }
{
    if is_fix_word(fix) {
        return Some(scaled_fix(fix, size));
    }
    None
}
