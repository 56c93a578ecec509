//! A font with the bytes of its metric file: a `Font` keeps no italic corrections, and of the parameters only the second to the fourth.

ghost use Rattle.std.specs.Prelude.{◌≡◌, ◌≤◌, Ok, Some, FitsSigned, IsSome};
ghost use Rattle.std.specs.Int.{w32};
ghost use Rattle.tfm_core.specs.Fonts.{font_at, parameter};
ghost use Rattle.tfm_core.specs.MetricFile.{record_in};
ghost use Rattle.tfm_core.specs.Rules.{metric_file};
ghost use Rattle.tfm_core.specs.declared.record.CharInfo.{CharInfo};
ghost use Rattle.boxglue_calls.specs.Metrics.{font_parameters, glyph_row, glyph_rows, italic_word};
ghost use Rattle.boxglue_calls.specs.Private.MetricPlaces.{character_in, places_of};

use crate::font_rows::{FontParameters, Glyph, GlyphTable, no_glyph, word_measure};
use crate::metric_places::{MetricPlaces, italic_index, places_of, word};
use tfm_core::Font;

/// A font, and the bytes from which it was read.
#[derive(Clone, Copy)]
pub(crate) struct FontBytes<'a> {
    font: &'a Font,
    bytes: &'a [u8],
    places: MetricPlaces,
    ghost read: { metric_file bytes.now ≡ Ok (record_in bytes.now) },
    ghost sized: { font.now ≡ font_at (record_in bytes.now) font.now.size },
    ghost placed: { places ≡ places_of (record_in bytes.now).counts },
}

impl<'a> FontBytes<'a> {
    /// The font that was read from these bytes.
    pub fn new(font: &'a Font, bytes: &'a [u8]) -> FontBytes<'a>
        requires read { metric_file bytes.now ≡ Ok (record_in bytes.now) }
        requires sized { font.now ≡ font_at (record_in bytes.now) font.now.size }
        ensures font { result.font.now ≡ font.now }
        ensures bytes { result.bytes.now ≡ bytes.now }
    {
        FontBytes {
            font,
            bytes,
            places: places_of(bytes),
        }
    }
}

impl FontBytes<'_> {
    /// The word of the italic correction of a character that the font has.
    fn italic(&self, code: u8) -> i32
        requires { IsSome (character_in self.now.bytes.now code) }
        ensures value { (character : CharInfo) → character_in self.now.bytes.now code ≡ Some character
            → result ≡ italic_word (record_in self.now.bytes.now) character }
        ensures fits { FitsSigned w32 result }
    {
        let character = self.places.characters as usize
            + (usize::from(code) - self.places.first as usize);
        let index = italic_index(self.bytes, character);
        word(self.bytes, self.places.italics as usize + index)
    }

    /// The row of a character.
    fn glyph(&self, code: u8) -> Glyph
        ensures { result ≡ glyph_row (record_in self.now.bytes.now) self.now.font.now.size (character_in self.now.bytes.now code) }
    {
        let Some(sizes) = self.font.glyph(code) else {
            return no_glyph();
        };
        Glyph {
            is_there: 1,
            width: sizes.width.get(),
            height: sizes.height.get(),
            depth: sizes.depth.get(),
            italic: word_measure(self.font.size(), self.italic(code)),
        }
    }

    /// The rows of all characters.
    pub fn glyphs(&self) -> GlyphTable
        ensures { result.rows ≡ glyph_rows (record_in self.now.bytes.now) self.now.font.now.size }
    {
        let mut rows = [no_glyph(); 256];
        for code in 0..256_usize {
            rows[code] = self.glyph(code as u8);
        }
        GlyphTable { rows }
    }

    /// Parameter n, which counts from 1, or 0 if the file does not have it.
    fn parameter(&self, n: usize) -> i32
        requires number { 1 ≤ n }
        requires number_bounded { n ≤ 7 }
        ensures value { result ≡ parameter n (record_in self.now.bytes.now).parameters }
        ensures fits { FitsSigned w32 result }
    {
        if n > self.places.parameter_count as usize {
            return 0;
        }
        word(self.bytes, self.places.parameters as usize + (n - 1))
    }

    /// The numbers of the font beside its characters.
    pub fn parameters(&self) -> FontParameters
        ensures { result ≡ font_parameters (record_in self.now.bytes.now) self.now.font.now.size }
    {
        let size = self.font.size();
        let space = self.font.space();
        FontParameters {
            size: size.get(),
            design_size: self.font.design_size().get(),
            check_sum: self.font.check_sum().cast_unsigned(),
            slant: self.parameter(1),
            space: space.width.get(),
            stretch: space.stretch.get(),
            shrink: space.shrink.get(),
            x_height: word_measure(size, self.parameter(5)),
            quad: word_measure(size, self.parameter(6)),
            extra_space: word_measure(size, self.parameter(7)),
        }
    }
}
