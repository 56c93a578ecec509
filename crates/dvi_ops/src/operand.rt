//! The operands of instructions, read from the start of some bytes.

ghost use Rattle.std.specs.Prelude.{◌≡◌, ◌≤◌, ◌-◌, ◌+◌, length, option_map};
ghost use Rattle.dvi_ops.specs.Private.Reading.{code_at, comment_at, half_at, halves_at, names_at, signed_at, three_at, two_at, words};
ghost use Rattle.dvi_ops.specs.Table.{code, signed};

use byteorder::{BigEndian, ByteOrder};
use scaled_core::COUNTS;

/// The value of one to four bytes as a signed number.
fn signed_of(operand: &[u8]) -> i32
    requires low { 1 ≤ length operand.now }
    requires high { length operand.now ≤ 4 }
    ensures { result ≡ signed (length operand.now) operand.now }
{
    match operand.len() {
        1 => i32::from(operand[0].cast_signed()),
        2 => i32::from(BigEndian::read_i16(operand)),
        3 => BigEndian::read_i24(operand),
        _ => BigEndian::read_i32(operand),
    }
}

/// The number of a character or of a font: four bytes are signed, fewer are not.
fn code_of(operand: &[u8]) -> i32
    requires low { 1 ≤ length operand.now }
    requires high { length operand.now ≤ 4 }
    ensures { result ≡ code (length operand.now) operand.now }
{
    if operand.len() == 4 {
        return signed_of(operand);
    }
    BigEndian::read_uint(operand, operand.len()) as i32
}

/// A signed number of `size` bytes, and the rest of the bytes.
#[tactic(auto, unfolding(crate::specs::Private::Reading::signed_at))]
pub fn signed_number(bytes: &[u8], size: usize) -> Option<(i32, &[u8])>
    requires low { 1 ≤ size }
    requires high { size ≤ 4 }
    ensures { option_map (λ found. (found.0, found.1.now)) result ≡ signed_at size bytes.now }
{
    let (operand, rest) = bytes.split_at_checked(size)?;
    Some((signed_of(operand), rest))
}

/// The number of a character or of a font in `size` bytes, and the rest of the bytes.
#[tactic(auto, unfolding(crate::specs::Private::Reading::code_at))]
pub fn code_number(bytes: &[u8], size: usize) -> Option<(i32, &[u8])>
    requires low { 1 ≤ size }
    requires high { size ≤ 4 }
    ensures { option_map (λ found. (found.0, found.1.now)) result ≡ code_at size bytes.now }
{
    let (operand, rest) = bytes.split_at_checked(size)?;
    Some((code_of(operand), rest))
}

/// A number of two bytes, and the rest of the bytes.
#[tactic(auto, unfolding(crate::specs::Private::Reading::half_at))]
pub fn half(bytes: &[u8]) -> Option<(u16, &[u8])>
    ensures { option_map (λ found. (found.0, found.1.now)) result ≡ half_at bytes.now }
{
    let (operand, rest) = bytes.split_at_checked(2)?;
    Some((BigEndian::read_u16(operand), rest))
}

/// The length of the operand of an instruction with four codes, in bytes. `first` is the code for an operand of one byte.
pub fn operand_size(operation: u8, first: u8) -> usize
    requires code { 1 ≤ first }
    requires low { first ≤ operation }
    requires high { operation ≤ first + 3 }
    ensures size { result ≡ operation - (first - 1) }
    ensures size_positive { 1 ≤ result }
    ensures size_bounded { result ≤ 4 }
{
    usize::from(operation - first) + 1
}

/// Two numbers of four bytes, and the rest of the bytes.
#[tactic(auto, unfolding(crate::specs::Private::Reading::two_at))]
pub fn two(bytes: &[u8]) -> Option<((i32, i32), &[u8])>
    ensures { option_map (λ found. ((found.0.0, found.0.1), found.1.now)) result ≡ two_at bytes.now }
{
    let (first, rest) = signed_number(bytes, 4)?;
    let (second, rest) = signed_number(rest, 4)?;
    Some(((first, second), rest))
}

/// Three numbers of four bytes, and the rest of the bytes.
#[tactic(auto, unfolding(crate::specs::Private::Reading::three_at))]
pub fn three(bytes: &[u8]) -> Option<((i32, i32, i32), &[u8])>
    ensures { option_map (λ found. ((found.0.0, found.0.1, found.0.2), found.1.now)) result ≡ three_at bytes.now }
{
    let (first, rest) = signed_number(bytes, 4)?;
    let ((second, third), rest) = two(rest)?;
    Some(((first, second, third), rest))
}

/// Two numbers of two bytes, and the rest of the bytes.
#[tactic(auto, unfolding(crate::specs::Private::Reading::halves_at))]
pub fn halves(bytes: &[u8]) -> Option<((u16, u16), &[u8])>
    ensures { option_map (λ found. ((found.0.0, found.0.1), found.1.now)) result ≡ halves_at bytes.now }
{
    let (first, rest) = half(bytes)?;
    let (second, rest) = half(rest)?;
    Some(((first, second), rest))
}

/// The ten counts of a page.
pub fn counts_of(operand: &[u8]) -> [i32; COUNTS]
    requires { length operand.now ≡ 40 }
    ensures { result ≡ words 10 operand.now }
{
    let mut counts = [0; COUNTS];
    BigEndian::read_i32_into(operand, &mut counts);
    counts
}

/// The two lengths of a font's name, and then its two parts.
#[tactic(auto, unfolding(crate::specs::Private::Reading::names_at))]
pub fn names(bytes: &[u8]) -> Option<((&[u8], &[u8]), &[u8])>
    ensures { option_map (λ found. ((found.0.0.now, found.0.1.now), found.1.now)) result ≡ names_at bytes.now }
{
    let (area_length, rest) = bytes.split_first()?;
    let (name_length, rest) = rest.split_first()?;
    let (area, rest) = rest.split_at_checked(usize::from(*area_length))?;
    let (name, rest) = rest.split_at_checked(usize::from(*name_length))?;
    Some(((area, name), rest))
}

/// A length of one byte, and a text of that length.
#[tactic(auto, unfolding(crate::specs::Private::Reading::comment_at))]
pub fn comment(bytes: &[u8]) -> Option<(&[u8], &[u8])>
    ensures { option_map (λ found. (found.0.now, found.1.now)) result ≡ comment_at bytes.now }
{
    let (count, rest) = bytes.split_first()?;
    rest.split_at_checked(usize::from(*count))
}
