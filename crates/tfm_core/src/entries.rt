//! The entries of a metric file, read at their places.

ghost use Rattle.std.specs.Prelude.{◌≡◌, ◌+◌, ◌*◌, ◌≤◌, FitsSigned, IfOk, length};
ghost use Rattle.std.specs.Int.{w32};
ghost use Rattle.tfm_core.specs.Words.{from_word, signed_word, table};
ghost use Rattle.tfm_core.specs.MetricFile.{char_info, counts_in, end_place, lig_kern_step, record_with, tag_of};

use crate::places::{character_count, places_of};
use crate::record::{CharInfo, Counts, LigKernStep, Tag};
use byteorder::{BigEndian, ByteOrder};
use std::alloc::{AllocError, Global};
use std::marker::Model;

/// An entry of a table of a metric file, of four bytes.
trait TableEntry: Drop {
    ghost use Rattle.std.specs.Prelude.{◌≡◌, ◌≤◌, List, ℕ, length};

    /// The entry that four bytes encode.
    ghost says: { List ℕ → Self };

    /// The entry of the first four bytes.
    fn from_bytes(bytes: &[u8]) -> Self
        requires { 4 ≤ length bytes.now }
        ensures { result ≡ says bytes.now };
}

impl TableEntry for i32 {
    ghost use Rattle.tfm_core.specs.Words.{signed_word};

    ghost says = { signed_word };

    fn from_bytes(bytes: &[u8]) -> i32 {
        BigEndian::read_i32(bytes)
    }
}

impl TableEntry for CharInfo {
    ghost use Rattle.tfm_core.specs.MetricFile.{char_info};

    ghost says = { char_info };

    fn from_bytes(bytes: &[u8]) -> CharInfo {
        CharInfo {
            width: bytes[0],
            height: bytes[1] / 16,
            depth: bytes[1] % 16,
            italic: bytes[2] / 4,
            tag: tag(bytes[2] % 4, bytes[3]),
        }
    }
}

/// The meaning of a tag with its remainder.
fn tag(tag: u8, remainder: u8) -> Tag
    ensures { result ≡ tag_of tag remainder }
{
    match tag {
        0 => Tag::Plain,
        1 => Tag::Program(remainder),
        2 => Tag::Larger(remainder),
        _ => Tag::Recipe(remainder),
    }
}

impl TableEntry for LigKernStep {
    ghost use Rattle.tfm_core.specs.MetricFile.{lig_kern_step};

    ghost says = { lig_kern_step };

    fn from_bytes(bytes: &[u8]) -> LigKernStep {
        LigKernStep {
            skip: bytes[0],
            next: bytes[1],
            op: bytes[2],
            remainder: bytes[3],
        }
    }
}

/// The entries of `count` words, starting at word `place`.
#[tactic(auto, using(crate::proofs::TableLemmas::tables))]
fn table<E: TableEntry>(
    alloc: Global,
    bytes: &[u8],
    place: usize,
    count: usize,
) -> Result<Vec<E>, AllocError>
    requires { 4 * (place + count) ≤ length bytes.now }
    ensures { IfOk result (λ entries. entries.items ≡ table E.says bytes.now place count) }
{
    let mut entries = Vec::with_capacity(alloc, count)?;
    for k in 0..count {
        entries.push(E::from_bytes(&bytes[4 * (place + k)..]))?;
    }
    Ok(entries)
}

/// The signed number in word k.
pub fn word(bytes: &[u8], k: usize) -> i32
    requires { 4 * (k + 1) ≤ length bytes.now }
    ensures value { result ≡ signed_word (from_word bytes.now k) }
    ensures fits { FitsSigned w32 result }
{
    BigEndian::read_i32(&bytes[4 * k..])
}

/// The record of a metric file, which may break the rules.
#[derive(Debug, Drop)]
pub struct Entries {
    pub counts: Counts,
    pub check_sum: i32,
    pub design_word: i32,
    pub characters: Vec<CharInfo>,
    pub widths: Vec<i32>,
    pub heights: Vec<i32>,
    pub depths: Vec<i32>,
    pub italics: Vec<i32>,
    pub steps: Vec<LigKernStep>,
    pub kerns: Vec<i32>,
    pub parameters: Vec<i32>,
}

impl Model for Entries {
    ghost use Rattle.tfm_core.specs.MetricFile.{MetricFile};

    ghost Value = { MetricFile };

    ghost view = { λ e. record {
      counts = e.counts;
      check_sum = e.check_sum;
      design_word = e.design_word;
      characters = e.characters.items;
      widths = e.widths.items;
      heights = e.heights.items;
      depths = e.depths.items;
      italics = e.italics.items;
      steps = e.steps.items;
      kerns = e.kerns.items;
      parameters = e.parameters.items;
    } };
}

impl Entries {
    /// The record in the bytes, for the counts at their front.
    #[tactic(auto, unfolding(crate::specs::Private::MetricFile::places_of, crate::specs::MetricFile::record_with))]
    pub fn read(alloc: Global, bytes: &[u8], counts: Counts) -> Result<Entries, AllocError>
        requires header { 2 ≤ counts.header }
        requires space { 4 * end_place counts ≤ length bytes.now }
        ensures { IfOk result (λ entries. entries ≡ record_with counts bytes.now) }
    {
        let at = places_of(counts);
        Ok(Entries {
            counts,
            check_sum: word(bytes, 6),
            design_word: word(bytes, 7),
            characters: table(alloc, bytes, at.characters, character_count(counts))?,
            widths: table(alloc, bytes, at.widths, usize::from(counts.widths))?,
            heights: table(alloc, bytes, at.heights, usize::from(counts.heights))?,
            depths: table(alloc, bytes, at.depths, usize::from(counts.depths))?,
            italics: table(alloc, bytes, at.italics, usize::from(counts.italics))?,
            steps: table(alloc, bytes, at.steps, usize::from(counts.steps))?,
            kerns: table(alloc, bytes, at.kerns, usize::from(counts.kerns))?,
            parameters: table(alloc, bytes, at.parameters, usize::from(counts.parameters))?,
        })
    }
}

/// The twelve numbers at the front of the bytes.
#[tactic(auto, unfolding(crate::specs::MetricFile::counts_in))]
pub fn counts(bytes: &[u8]) -> Counts
    requires { 24 ≤ length bytes.now }
    ensures { result ≡ counts_in bytes.now }
{
    Counts {
        file: BigEndian::read_u16(bytes),
        header: BigEndian::read_u16(&bytes[2..]),
        first: BigEndian::read_u16(&bytes[4..]),
        last: BigEndian::read_u16(&bytes[6..]),
        widths: BigEndian::read_u16(&bytes[8..]),
        heights: BigEndian::read_u16(&bytes[10..]),
        depths: BigEndian::read_u16(&bytes[12..]),
        italics: BigEndian::read_u16(&bytes[14..]),
        steps: BigEndian::read_u16(&bytes[16..]),
        kerns: BigEndian::read_u16(&bytes[18..]),
        recipes: BigEndian::read_u16(&bytes[20..]),
        parameters: BigEndian::read_u16(&bytes[22..]),
    }
}
