//! The badness of glue: how badly it is stretched or shrunk.

ghost use Rattle.std.specs.Prelude.{◌≡◌, ◌<◌, ◌≤◌, ◌≤ℤ◌, pos};
ghost use Rattle.scaled_core.specs.Badness.{IsBadness, IsRatioBadness, badness_of, badness_ratio, ratio_badness};

use crate::rounding::nearest;

/// The badness of stretching or shrinking glue by `t`, where `s` is the amount that it can stretch or shrink. Both are in scaled points, and `t` is
/// not below 0.
/// The badness is 0 if `t` is 0, 10000 if `s` is 0 or below, and otherwise about 100 (t / s)^3, at most 10000 (TeX: The Program, part 7, §108,
/// badness). Does not allocate.
#[tactic(auto, unfolding(crate::specs::Badness::badness_of))]
pub fn badness(t: i64, s: i64) -> u32
    requires { pos 0 ≤ℤ t }
    ensures badness { IsBadness t s result }
    ensures value { result ≡ badness_of t s }
    ensures most { result ≤ 10000 }
{
    if t == 0 {
        return 0;
    }
    if s <= 0 {
        return 10_000;
    }
    ratio_badness(badness_ratio(t as u64, s as u64))
}

/// About `297 * t / s`, or `t` if that ratio is above 1290. The bound on `t` keeps the product within TeX's 31 bits (TeX: The Program, part 7, §108,
/// badness).
#[tactic(auto, unfolding(crate::specs::Badness::badness_ratio))]
fn badness_ratio(t: u64, s: u64) -> u64
    requires { 0 < s }
    ensures { result ≡ badness_ratio t s }
{
    if t <= 7_230_584 {
        return t * 297 / s;
    }
    if s >= 1_663_497 {
        return t / (s / 297);
    }
    t
}

/// The badness of a ratio: the whole number nearest to `ratio^3 / 2^18`, halves upward.
#[tactic(auto, unfolding(crate::specs::Badness::ratio_badness))]
fn ratio_badness(ratio: u64) -> u32
    ensures badness { IsRatioBadness ratio result }
    ensures value { result ≡ ratio_badness ratio }
    ensures most { result ≤ 10000 }
{
    if ratio > 1290 {
        return 10_000;
    }
    nearest(u128::from(ratio * ratio * ratio), 262_144) as u32
}
