//! A part of a listing.

ghost use Rattle.std.specs.Prelude.{◌≡◌, ◌++◌, ◌+◌, ◌<◌, ◌≤◌, [], ◌∷◌, codes, decimal, length, take};
ghost use Rattle.std.specs.Fmt.{signed_decimal};
ghost use Rattle.dvi_read.specs.Private.GlyphHeads.{head_text};
ghost use Rattle.dvi_read.specs.Private.ListingParts.{decimal_line_end};
ghost use Rattle.dvi_read.specs.declared.listings.glyph_head.TheConstants.{HEAD};
ghost use Rattle.dvi_read.specs.declared.listings.part.TheConstants.{PART};

use crate::listings::glyph_head::{GlyphHead, HEAD};
use itoa::write_digits;
use std::marker::Model;

/// The greatest size of a part in bytes. The longest line is that of a page: its number, and ten counts, each with a space, a sign and at most 20
/// digits.
pub const PART: usize = 256;

/// The end of a line: its last number, and the place of the space before it.
#[derive(Clone, Copy, Debug)]
struct NumberEnd {
    number: i32,
    begin: usize,
}

/// A part of a listing. It is written from its end to its beginning, since the digits of a number come in this order. The end of the last line is
/// kept, since the next line mostly ends with the same number; and so are the beginnings of the lines of glyphs, one for each character modulo 256.
#[derive(Drop)]
pub struct ListingPart {
    bytes: [u8; PART],
    begin: usize,
    ended: Option<NumberEnd>,
    heads: [Option<GlyphHead>; 256],
}

/// The place of the beginning of a glyph's line: its code modulo 256, without a test for its sign.
fn head_place(code: i32) -> usize
    ensures { result < 256 }
{
    (code.cast_unsigned() % 256) as usize
}

impl Model for ListingPart {
    ghost use Rattle.std.specs.Prelude.{ℕ, List, drop};

    ghost Value = { List ℕ };

    ghost use Rattle.dvi_read.specs.Private.ListingParts.{IsListingPart};

    ghost view = { λ part. drop part.begin part.bytes };

    ghost invariant = { λ part. IsListingPart part.bytes part.begin part.ended };
}

impl ListingPart {
    /// A part without bytes.
    pub fn new() -> ListingPart
        ensures { result ≡ [] }
    {
        ListingPart {
            bytes: [0; PART],
            begin: PART,
            ended: None,
            heads: [None; 256],
        }
    }

    /// Removes all bytes.
    pub fn clear(&mut self)
        ensures { self.new ≡ [] }
    {
        self.begin = PART;
        self.ended = None;
    }

    /// Replaces the part by the end of a line: a space, a number in decimal, and a line feed.
    pub fn end_line(&mut self, number: i32)
        ensures text { self.new ≡ decimal_line_end number }
        ensures len { length self.new ≤ 23 }
    {
        if let Some(ended) = self.ended {
            if ended.number == number {
                self.begin = ended.begin;
                return;
            }
        }
        self.clear();
        self.put_byte(b'\n');
        self.put_number(number);
        self.ended = Some(NumberEnd {
            number,
            begin: self.begin,
        });
    }

    /// The bytes of the part.
    pub fn as_bytes(&self) -> &[u8]
        ensures value { result.now ≡ self.now }
        ensures length_bounded { length result.now ≤ PART }
    {
        &self.bytes[self.begin..]
    }

    /// Writes a byte before the others.
    pub fn put_byte(&mut self, byte: u8)
        requires { length self.old < PART }
        ensures { self.new ≡ byte ∷ self.old }
    {
        self.begin -= 1;
        self.bytes[self.begin] = byte;
    }

    /// Writes the decimal digits of a number before the others.
    pub fn put_digits(&mut self, number: u64)
        requires { length self.old + 20 ≤ PART }
        ensures text { self.new ≡ decimal number ++ self.old }
        ensures len { length self.new ≤ length self.old + 20 }
    {
        self.begin = write_digits(number, &mut self.bytes, self.begin);
    }

    /// Writes a space and a number in decimal before the others.
    pub fn put_number(&mut self, number: i32)
        requires { length self.old + 22 ≤ PART }
        ensures text { self.new ≡ (codes " " ++ signed_decimal number) ++ self.old }
        ensures len { length self.new ≤ length self.old + 22 }
    {
        self.put_digits(u64::from(number.unsigned_abs()));
        if number < 0 {
            self.put_byte(b'-');
        }
        self.put_byte(b' ');
    }

    /// Writes a word before the others.
    pub fn put_word(&mut self, word: &str)
        requires { length self.old + length word.now ≤ PART }
        ensures { self.new ≡ word.now ++ self.old }
    {
        self.put_bytes(word.as_bytes());
    }

    /// Writes bytes before the others.
    fn put_bytes(&mut self, bytes: &[u8])
        requires { length self.old + length bytes.now ≤ PART }
        ensures { self.new ≡ bytes.now ++ self.old }
    {
        let end = self.begin;
        self.begin -= bytes.len();
        self.bytes[self.begin..end].copy_from_slice(bytes);
    }

    /// Writes the beginning of the line of a glyph before the bytes of the part. All bytes of the array of `head` are copied, of which the last
    /// ones are this beginning, since a copy of a size that is known to the compiler is faster. The others come where the part does not begin yet.
    fn put_head(&mut self, head: &GlyphHead)
        requires { length self.old + HEAD ≤ PART }
        ensures { self.new ≡ head_text head.now.font head.now.code ++ self.old }
    {
        let end = self.begin;
        self.bytes[end - HEAD..end].copy_from_slice(&head.bytes);
        self.begin -= head.size;
    }

    /// The number of bytes.
    fn len(&self) -> usize
        ensures { result ≡ length self.now }
    {
        PART - self.begin
    }

    /// Keeps the first bytes, which are the beginning of the line of a glyph.
    fn keep_head(&mut self, font: i32, code: i32, size: usize)
        requires within { size ≤ length self.old }
        requires short { size ≤ HEAD }
        requires text { take size self.old ≡ head_text font code }
        ensures { self.new ≡ self.old }
    {
        let mut bytes = [0; HEAD];
        bytes[HEAD - size..].copy_from_slice(&self.bytes[self.begin..self.begin + size]);
        self.heads[head_place(code)] = Some(GlyphHead {
            font,
            code,
            size,
            bytes,
        });
    }

    /// Writes the beginning of the line of a glyph before the others. It is made once for each character of a font, since most lines of a listing
    /// begin so.
    pub(crate) fn put_glyph(&mut self, font: i32, code: i32)
        requires { length self.old + HEAD ≤ PART }
        ensures text { self.new ≡ head_text font code ++ self.old }
        ensures len { length self.old < length self.new }
    {
        if let Some(head) = self.heads[head_place(code)] {
            if head.font == font && head.code == code {
                self.put_head(&head);
                return;
            }
        }
        let before = self.len();
        self.put_number(code);
        self.put_number(font);
        self.put_word("glyph");
        let size = self.len() - before;
        self.keep_head(font, code, size);
    }
}
