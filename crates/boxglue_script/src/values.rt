//! The value of one field: a number in its range, the name of a font, a size.

ghost use Rattle.std.specs.Prelude.{◌≡◌, ◌≤◌, ℤ, Ok, Err, IfNone, IfSome, IsTrue, FitsSigned, length};
ghost use Rattle.std.specs.Int.{w64};
ghost use Rattle.std.specs.List.{list_all};
ghost use Rattle.std.specs.Option.{SomeIff};
ghost use Rattle.std.specs.Str.Parse.{IsNumeral, digits_value};
ghost use Rattle.tfm_core.specs.NamedBytes.{IsFontName};
ghost use Rattle.boxglue_script.specs.Grammar.{register_count, slot_count, counter_count, first_lines_count, IsInteger, is_name_byte};
ghost use Rattle.boxglue_script.specs.Private.Reading.{number_among, number_of, count_value, count_of, size_of_font, is_short, is_name, size_of};
ghost use Rattle.boxglue_script.specs.Private.Reading.{penalty_of};
ghost use Rattle.boxglue_script.specs.declared.values.TheConstants.{MAX_SHORT_DIGITS};

use crate::cause::Cause;
use job_machine::{CountNumber, FontSize, Register};
use node_core::{FirstLines, IntParameter, RuleSize};
use scaled_core::{Dimen, parse_dimen};

/// Whether a field is the name of a font: 1 to 255 letters, digits, `-`, `_` and `.`.
pub(crate) fn is_name(field: &[u8]) -> bool
    ensures value { result ≡ is_name field.now }
    ensures is_font_name { IsTrue result → IsFontName field.now }
{
    is_short(field) && has_name_bytes(field)
}

/// Whether each byte may be in the name of a font.
pub(crate) fn has_name_bytes(field: &[u8]) -> bool
    ensures { result ≡ list_all is_name_byte field.now }
{
    field.iter().all(|byte| is_name_byte(*byte))
}

/// Whether a field has 1 to 255 bytes.
pub(crate) fn is_short(field: &[u8]) -> bool
    ensures value { result ≡ is_short field.now }
    ensures is_font_name { IsTrue result → IsFontName field.now }
{
    !field.is_empty() && field.len() < 256
}

/// Whether a byte may be in the name of a font.
pub(crate) fn is_name_byte(byte: u8) -> bool
    ensures { result ≡ is_name_byte byte }
{
    matches!(byte, b'0'..=b'9' | b'A'..=b'Z' | b'a'..=b'z' | b'-' | b'_' | b'.')
}

/// The size of a font from a dimension: 1 sp to 2^27 - 1 sp. None if it is out of this range, and the cause is then Number; a field that is not a
/// dimension that fits has the cause Dimension.
pub(crate) fn size_of_font(dimen: Dimen) -> Option<FontSize>
    ensures { result ≡ size_of_font dimen }
{
    FontSize::try_new(i64::from(dimen.get()))
}

/// The size of a rule that a field gives: `*` for a running one, or a dimension.
#[tactic(auto, unfolding(crate::specs::Private::Reading::size_of))]
pub(crate) fn size_of(field: &[u8]) -> Result<RuleSize, Cause>
    ensures { result ≡ size_of field.now }
{
    match field {
        b"*" => Ok(RuleSize::Running),
        _ => Ok(RuleSize::Fixed(parse_dimen(field)?)),
    }
}

/// The box register whose number a field writes.
#[tactic(auto, using(crate::proofs::Numbers::numbers))]
pub(crate) fn register_of(field: &[u8]) -> Option<Register>
    ensures { result ≡ number_of register_count field.now }
{
    match integer_of(field) {
        Some(number) => register_numbered(number),
        None => None,
    }
}

/// The box register of that number.
pub(crate) fn register_numbered(number: i64) -> Option<Register>
    ensures { result ≡ number_among register_count number }
{
    if number < 0 {
        return None;
    }
    Register::try_new(number as u64)
}

/// The byte that a field writes: the number of a slot for a font, or the code of a character.
#[tactic(auto, using(crate::proofs::Numbers::numbers))]
pub(crate) fn byte_of(field: &[u8]) -> Option<u8>
    ensures { result ≡ number_of slot_count field.now }
{
    match integer_of(field) {
        Some(number) => byte_numbered(number),
        None => None,
    }
}

/// A number as a byte; None if it is out of range.
pub(crate) fn byte_numbered(number: i64) -> Option<u8>
    ensures { result ≡ number_among 256 number }
{
    u8::try_from(number).ok()
}

/// The count whose number a field writes.
#[tactic(auto, using(crate::proofs::Numbers::numbers))]
pub(crate) fn count_number_of(field: &[u8]) -> Option<CountNumber>
    ensures { result ≡ number_of counter_count field.now }
{
    match integer_of(field) {
        Some(number) => count_numbered(number),
        None => None,
    }
}

/// The count of that number.
pub(crate) fn count_numbered(number: i64) -> Option<CountNumber>
    ensures { result ≡ number_among counter_count number }
{
    if number < 0 {
        return None;
    }
    CountNumber::try_new(number as u64)
}

/// The number of first lines that a field writes.
#[tactic(auto, using(crate::proofs::Numbers::numbers))]
pub(crate) fn first_lines_of(field: &[u8]) -> Option<FirstLines>
    ensures { result ≡ number_of first_lines_count field.now }
{
    match integer_of(field) {
        Some(number) => first_lines_numbered(number),
        None => None,
    }
}

/// That number of first lines; None if there is no such number.
pub(crate) fn first_lines_numbered(number: i64) -> Option<FirstLines>
    ensures { result ≡ number_among first_lines_count number }
{
    if number < 0 {
        return None;
    }
    FirstLines::try_new(number as usize)
}

/// The count that a field writes.
#[tactic(auto, using(crate::proofs::CountNumbers::counts))]
pub(crate) fn count_of(field: &[u8]) -> Option<i32>
    ensures { result ≡ count_of field.now }
{
    match integer_of(field) {
        Some(number) => count_value(number),
        None => None,
    }
}

/// A number as a count, of signed 32 bits; None if it is out of range.
pub(crate) fn count_value(number: i64) -> Option<i32>
    ensures { result ≡ count_value number }
{
    if number < -2_147_483_648 {
        return None;
    }
    if number > 2_147_483_647 {
        return None;
    }
    Some(number as i32)
}

/// The number of a penalty that a field writes.
#[tactic(auto, using(crate::proofs::Numbers::penalties))]
pub(crate) fn penalty_of(field: &[u8]) -> Option<IntParameter>
    ensures { result ≡ penalty_of field.now }
{
    match integer_of(field) {
        Some(number) => IntParameter::try_new(number),
        None => None,
    }
}

/// How many digits `short_number` reads at most: their number is below 10^9, so that no sum overflows.
const MAX_SHORT_DIGITS: usize = 9;

/// The number that 1 to 9 digits write, tested and read in one walk. None of every other text, which may still write a number: with a sign, or a
/// longer one.
#[tactic(auto, using(crate::proofs::ShortNumbers::short_numbers))]
fn short_number(field: &[u8]) -> Option<u32>
    ensures { SomeIff result (IsNumeral 10 field.now × length field.now ≤ MAX_SHORT_DIGITS) (digits_value 10 field.now) }
{
    if field.is_empty() || field.len() > MAX_SHORT_DIGITS {
        return None;
    }
    let mut number = 0;
    for byte in field {
        if !byte.is_ascii_digit() {
            return None;
        }
        number = 10 * number + u32::from(*byte - b'0');
    }
    Some(number)
}

/// The whole number of signed 64 bits that a field writes, by the standard library.
#[tactic(auto, using(crate::proofs::Numbers::integers))]
fn parsed_integer(field: &[u8]) -> Option<i64>
    ensures integer_read { IfSome result (λ number. IsInteger field.now number) }
    ensures none { IfNone result ((number : ℤ) → IsInteger field.now number → FitsSigned w64 number → ⊥) }
{
    let Ok(text) = str::from_utf8(field) else {
        return None;
    };
    let Ok(number) = text.parse::<i64>() else {
        return None;
    };
    Some(number)
}

/// The whole number of signed 64 bits that a field writes with an optional sign and digits. All numbers of a script are read here.
#[tactic(auto, using(crate::proofs::ShortNumbers::unsigned_integer))]
pub(crate) fn integer_of(field: &[u8]) -> Option<i64>
    ensures integer_read { IfSome result (λ number. IsInteger field.now number) }
    ensures none { IfNone result ((number : ℤ) → IsInteger field.now number → FitsSigned w64 number → ⊥) }
{
    match short_number(field) {
        Some(number) => Some(i64::from(number)),
        None => parsed_integer(field),
    }
}
