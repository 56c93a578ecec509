//! Reading dimensions.

ghost use Rattle.std.specs.Prelude.{◌≡◌, ◌↔◌, ◌++◌, [], Ok, Err, ◌*◌, ◌^◌, ◌<◌, ◌≤◌, IsTrue, IfOk, codes, length, min};
ghost use Rattle.std.specs.Option.{IfSome};
ghost use Rattle.std.specs.List.{prefix_len};
ghost use Rattle.std.specs.Char.{is_ascii_digit};
ghost use Rattle.std.specs.Str.{all_ascii_digits};
ghost use Rattle.std.specs.Str.Parse.{digits_value};
ghost use Rattle.scaled_core.specs.Dimensions.{Fits};
ghost use Rattle.scaled_core.specs.DimensionTexts.{IsDimensionText, IsNoDimension, IsTooLargeText, decimal_fraction};
ghost use Rattle.scaled_core.specs.Rounding.{nearest};
ghost use Rattle.scaled_core.specs.ParsedTexts.{parsed_value, written_value, text_after_digits, text_after_fraction, text_after_sign, front_digits};
ghost use Rattle.scaled_core.specs.ParsedTexts.{is_negative, point_digits, read_dimension, unit_named, with_minus};

use crate::dimen::Dimen;
use crate::fault::DimenFault;
use crate::rounding::{nearest, nearest_small};
use crate::units::LengthUnit;

/// The dimension that a text writes: an optional sign, at least one digit with at most one `.` among the digits, and a unit with no space before it,
/// one of pt, in, pc, cm, mm, bp, dd, cc, sp (TeX: The Program, part 26, §448, scan_dimen). Does not allocate.
///
/// `NotADimension` is returned exactly when the text has another form, and `TooLarge` exactly when its value does not fit.
pub fn parse_dimen(text: &[u8]) -> Result<Dimen, DimenFault>
    ensures ok { IfOk result (λ d. IsDimensionText text.now d) }
    ensures fits { IfOk result (λ d. Fits d) }
    ensures too_large { (result ≡ Err DimenFault.TooLarge) ↔ IsTooLargeText text.now }
    ensures not_a_dimension { (result ≡ Err DimenFault.NotADimension) ↔ IsNoDimension text.now }
    ensures value { result ≡ read_dimension text.now }
{
    if let Some(points) = short_points(text) {
        return Ok(points);
    }
    let (negative, number) = after_sign(text);
    let (whole, after) = digits_first(number);
    let (fraction, name) = fraction_first(after);
    written_value(negative, whole, fraction, LengthUnit::from_name(name))
}

/// The dimension in points that a text without a unit writes: as `parse_dimen` reads the text with `pt` after it, with the same errors. Does not
/// allocate.
pub fn parse_points(text: &[u8]) -> Result<Dimen, DimenFault>
    ensures ok { IfOk result (λ d. IsDimensionText (text.now ++ codes "pt") d) }
    ensures fits { IfOk result (λ d. Fits d) }
    ensures too_large { (result ≡ Err DimenFault.TooLarge) ↔ IsTooLargeText (text.now ++ codes "pt") }
    ensures not_a_dimension { (result ≡ Err DimenFault.NotADimension) ↔ IsNoDimension (text.now ++ codes "pt") }
    ensures value { result ≡ read_dimension (text.now ++ codes "pt") }
{
    let (negative, number) = after_sign(text);
    let (whole, after) = digits_first(number);
    let (fraction, name) = fraction_first(after);
    written_value(negative, whole, fraction, unit_of_points(name))
}

/// A number that digits at the beginning of a text write, 10 to the power of their count, and the text after them.
#[derive(Clone, Copy)]
struct FrontNumber<'a> {
    value: u64,
    scale: u64,
    after: &'a [u8],
}

/// The number that the digits at the beginning of a text of at most nine bytes write.
fn front_number(text: &[u8]) -> FrontNumber<'_>
    requires { length text.now ≤ 9 }
    ensures value { result.value ≡ digits_value 10 (front_digits text.now) }
    ensures scale { result.scale ≡ 10 ^ length (front_digits text.now) }
    ensures after { result.after.now ≡ text_after_digits text.now }
    ensures value_bounded { result.value < result.scale }
    ensures scale_bounded { result.scale ≤ 10 ^ 9 }
{
    let (digits, after) = digits_first(text);
    let mut value: u64 = 0;
    let mut scale: u64 = 1;
    for digit in digits {
        value = 10 * value + u64::from(*digit - b'0');
        scale *= 10;
    }
    FrontNumber {
        value,
        scale,
        after,
    }
}

/// The fraction with which a number ends, in 65536ths, if the text is empty, or a point and digits alone.
fn ending_fraction(text: &[u8]) -> Option<u64>
    requires { length text.now ≤ 9 }
    ensures value { IfSome result (λ fraction. fraction ≡ decimal_fraction (point_digits text.now)) }
    ensures all { IfSome result (λ _. text_after_fraction text.now ≡ []) }
    ensures value_bounded { IfSome result (λ fraction. fraction ≤ 65536) }
{
    match text {
        [] => Some(0),
        [b'.', digits @ ..] => {
            let number = front_number(digits);
            if !number.after.is_empty() {
                return None;
            }
            Some(nearest_small(number.value * 65536, number.scale))
        }
        _ => None,
    }
}

/// The dimension of a text such as `12.5pt`, without a sign and with at most nine bytes before the unit, or `None` if the text has another form or
/// its value does not fit. Nearly all dimensions of scripts are such texts, for which 64 bits are enough.
fn short_points(text: &[u8]) -> Option<Dimen>
    ensures { IfSome result (λ d. read_dimension text.now ≡ Ok d) }
{
    let [number @ .., b'p', b't'] = text else {
        return None;
    };
    if number.len() > 9 {
        return None;
    }
    let whole = front_number(number);
    if whole.scale == 1 {
        return None;
    }
    let fraction = ending_fraction(whole.after)?;
    Dimen::try_new((65536 * whole.value + fraction) as i64)
}

/// The unit of a number of points without a unit: points if nothing follows the number, and otherwise none.
#[tactic(auto, using(crate::proofs::PointTexts::points))]
fn unit_of_points(name: &[u8]) -> Option<LengthUnit>
    ensures { result ≡ unit_named (name.now ++ codes "pt") }
{
    if name.is_empty() {
        return Some(LengthUnit::Point);
    }
    None
}

/// The dimension of a number with this sign, these digits before and after the point, and this unit.
#[tactic(auto, using(crate::proofs::ReadingLemmas::measuring), unfolding(crate::specs::ParsedTexts::written_value))]
fn written_value(
    negative: bool,
    whole: &[u8],
    fraction: &[u8],
    unit: Option<LengthUnit>,
) -> Result<Dimen, DimenFault>
    requires whole { IsTrue (all_ascii_digits whole.now) }
    requires fraction { IsTrue (all_ascii_digits fraction.now) }
    ensures { result ≡ parsed_value (written_value negative whole.now fraction.now unit) }
{
    if whole.is_empty() && fraction.is_empty() {
        return Err(DimenFault::NotADimension);
    }
    match unit {
        Some(unit) => fitting(
            negative,
            unit.size(digits_number(whole, 1 << 30), fraction_value(fraction)),
        ),
        None => Err(DimenFault::NotADimension),
    }
}

/// Whether the text begins with a minus, and the text after the sign.
#[tactic(auto, unfolding(crate::specs::ParsedTexts::is_negative, crate::specs::ParsedTexts::text_after_sign))]
fn after_sign(text: &[u8]) -> (bool, &[u8])
    ensures sign { result.0 ≡ is_negative text.now }
    ensures after { result.1.now ≡ text_after_sign text.now }
{
    match text {
        [b'-', after @ ..] => (true, after),
        [b'+', after @ ..] => (false, after),
        _ => (false, text),
    }
}

/// The digits at the beginning of the text, and the text after them.
#[tactic(auto, using(crate::proofs::DigitLemmas::digits), unfolding(crate::specs::ParsedTexts::front_digits, crate::specs::ParsedTexts::text_after_digits))]
fn digits_first(text: &[u8]) -> (&[u8], &[u8])
    ensures digits { result.0.now ≡ front_digits text.now }
    ensures all { IsTrue (all_ascii_digits result.0.now) }
    ensures after { result.1.now ≡ text_after_digits text.now }
{
    text.split_at(digit_count(text))
}

/// The number of digits at the beginning of the text.
fn digit_count(text: &[u8]) -> usize
    ensures count { result ≡ prefix_len is_ascii_digit text.now }
    ensures count_bounded { result ≤ length text.now }
{
    text.iter().take_while(|c| c.is_ascii_digit()).count()
}

/// The digits after a point at the beginning of the text, if there is one, and the text after them.
#[tactic(auto, unfolding(crate::specs::ParsedTexts::point_digits, crate::specs::ParsedTexts::text_after_fraction))]
fn fraction_first(text: &[u8]) -> (&[u8], &[u8])
    ensures digits { result.0.now ≡ point_digits text.now }
    ensures all { IsTrue (all_ascii_digits result.0.now) }
    ensures after { result.1.now ≡ text_after_fraction text.now }
{
    match text {
        [b'.', after @ ..] => digits_first(after),
        _ => text.split_at(0),
    }
}

/// The number that the digits write, or `most` if it is greater. The cut keeps the loop within 64 bits.
#[tactic(auto, using(crate::proofs::DigitLemmas::digits))]
fn digits_number(digits: &[u8], most: u64) -> u64
    requires digits { IsTrue (all_ascii_digits digits.now) }
    requires most { most ≤ 10 ^ 17 }
    ensures { result ≡ min (digits_value 10 digits.now) most }
{
    let mut value: u64 = 0;
    for digit in digits {
        value = (10 * value + u64::from(*digit - b'0')).min(most);
    }
    value
}

/// The fraction that the digits after a point write, in 65536ths.
#[tactic(auto, using(crate::proofs::DigitLemmas::digits), unfolding(crate::specs::DimensionTexts::decimal_fraction))]
fn fraction_value(digits: &[u8]) -> u64
    requires { IsTrue (all_ascii_digits digits.now) }
    ensures value { result ≡ decimal_fraction digits.now }
    ensures value_bounded { result ≤ 65536 }
{
    short_fraction(&digits[..usize::min(17, digits.len())])
}

/// The fraction that at most 17 digits after a point write, in 65536ths.
#[tactic(auto, using(crate::proofs::DigitLemmas::fractions))]
fn short_fraction(digits: &[u8]) -> u64
    requires digits { IsTrue (all_ascii_digits digits.now) }
    requires length_bounded { length digits.now ≤ 17 }
    ensures value { result ≡ nearest (digits_value 10 digits.now * 65536) (10 ^ length digits.now) }
    ensures value_bounded { result ≤ 65536 }
{
    let value = u128::from(digits_number(digits, 100_000_000_000_000_000));
    nearest(value * 65536, 10u128.pow(digits.len() as u32)) as u64
}

/// The dimension of this size and sign, if it fits.
#[tactic(auto, using(crate::proofs::ReadingLemmas::fitting))]
fn fitting(negative: bool, size: u64) -> Result<Dimen, DimenFault>
    requires { size < 2 ^ 62 }
    ensures { result ≡ parsed_value (Some (with_minus negative size)) }
{
    let size = size as i64;
    Dimen::try_new(if negative { -size } else { size }).ok_or(DimenFault::TooLarge)
}
