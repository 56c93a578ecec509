//! Rounding.

ghost use Rattle.std.specs.Prelude.{◌≡◌, ◌^◌, ◌<◌, ◌≤◌, unsigned_abs};
ghost use Rattle.scaled_core.specs.Dimensions.{Within};
ghost use Rattle.scaled_core.specs.Rounding.{IsNearest, IsRounded, nearest, rounded};

/// The whole number nearest to `n / d`, halves upward.
#[tactic(auto, unfolding(crate::specs::Rounding::nearest))]
pub fn nearest(n: u128, d: u128) -> u128
    requires n { n ≤ 2 ^ 126 }
    requires d { d < 2 ^ 126 }
    requires not_zero { 0 < d }
    ensures nearest { IsNearest n d result }
    ensures value { result ≡ nearest n d }
    ensures value_bounded { result ≤ n }
{
    (2 * n + d) / (2 * d)
}

/// The whole number nearest to `x / d`, halves away from zero.
#[tactic(auto, unfolding(crate::specs::Rounding::rounded))]
pub fn rounded(x: i128, d: u64) -> i128
    requires x { unsigned_abs x ≤ 2 ^ 126 }
    requires d { 0 < d }
    ensures nearest { IsRounded x d result }
    ensures value { result ≡ rounded x d }
    ensures value_bounded { Within (2 ^ 126) result }
{
    let size = nearest(x.unsigned_abs(), u128::from(d)) as i128;
    if x < 0 {
        return -size;
    }
    size
}

/// The whole number nearest to `n / d`, halves upward, in 64 bits.
#[tactic(auto, unfolding(crate::specs::Rounding::nearest))]
pub fn nearest_small(n: u64, d: u64) -> u64
    requires n { n ≤ 2 ^ 62 }
    requires d { d < 2 ^ 63 }
    requires not_zero { 0 < d }
    ensures nearest { IsNearest n d result }
    ensures value { result ≡ nearest n d }
    ensures value_bounded { result ≤ n }
{
    let twice = 2 * n + d;
    twice / (2 * d)
}

/// The whole number nearest to `x / d`, halves away from zero, in 64 bits.
#[inline(always)]
#[tactic(auto, unfolding(crate::specs::Rounding::rounded))]
pub fn rounded_small(x: i64, d: u64) -> i64
    requires x { unsigned_abs x ≤ 2 ^ 62 }
    requires d { d < 2 ^ 63 }
    requires not_zero { 0 < d }
    ensures nearest { IsRounded x d result }
    ensures value { result ≡ rounded x d }
    ensures value_bounded { Within (2 ^ 62) result }
{
    let size = nearest_small(x.unsigned_abs(), d) as i64;
    if x < 0 { -size } else { size }
}
