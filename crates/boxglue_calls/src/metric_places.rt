//! The places of tables in the bytes of a metric file, and the numbers there (TFtoPL, 8 to 11).

ghost use Rattle.std.specs.Prelude.{◌≡◌, ◌+◌, ◌*◌, ◌<◌, ◌≤◌, FitsSigned, length};
ghost use Rattle.std.specs.Int.{w32};
ghost use Rattle.tfm_core.specs.MetricFile.{char_info, counts_in};
ghost use Rattle.tfm_core.specs.Words.{from_word, halfword, signed_word};
ghost use Rattle.boxglue_calls.specs.Private.MetricPlaces.{places_of};

use byteorder::{BigEndian, ByteOrder};

/// Where the tables stand that a font does not keep: each the number of the word at which it begins.
#[derive(Clone, Copy, Debug)]
pub(crate) struct MetricPlaces {
    /// The code of the first character.
    pub first: u32,
    pub characters: u32,
    pub italics: u32,
    pub parameters: u32,
    /// How many parameters there are.
    pub parameter_count: u32,
}

/// Halfword k, which counts from 0.
fn halfword(bytes: &[u8], k: usize) -> u32
    requires number { k < 12 }
    requires space { 24 ≤ length bytes.now }
    ensures value { result ≡ halfword bytes.now k }
    ensures value_bounded { result < 65536 }
{
    u32::from(BigEndian::read_u16(&bytes[2 * k..]))
}

/// The places of the tables: the characters come after the header, then widths, heights and depths, italic corrections, steps, kerns and recipes, and
/// parameters.
#[tactic(auto, unfolding(tfm_core::specs::MetricFile::counts_in))]
pub(crate) fn places_of(bytes: &[u8]) -> MetricPlaces
    requires { 24 ≤ length bytes.now }
    ensures { result ≡ places_of (counts_in bytes.now) }
{
    let first = halfword(bytes, 2);
    let characters = 6 + halfword(bytes, 1);
    let widths = characters + (halfword(bytes, 3) + 1).saturating_sub(first);
    let italics = widths + halfword(bytes, 4) + halfword(bytes, 5) + halfword(bytes, 6);
    let kerns = italics + halfword(bytes, 7) + halfword(bytes, 8);
    MetricPlaces {
        first,
        characters,
        italics,
        parameters: kerns + halfword(bytes, 9) + halfword(bytes, 10),
        parameter_count: halfword(bytes, 11),
    }
}

/// The signed number in word k.
pub(crate) fn word(bytes: &[u8], k: usize) -> i32
    requires { 4 * (k + 1) ≤ length bytes.now }
    ensures value { result ≡ signed_word (from_word bytes.now k) }
    ensures fits { FitsSigned w32 result }
{
    BigEndian::read_i32(&bytes[4 * k..])
}

/// The index of the italic correction in word k, which is that of a character.
pub(crate) fn italic_index(bytes: &[u8], k: usize) -> usize
    requires { 4 * (k + 1) ≤ length bytes.now }
    ensures value { result ≡ (char_info (from_word bytes.now k)).italic }
    ensures value_bounded { result < 64 }
{
    usize::from(bytes[4 * k + 2] / 4)
}
