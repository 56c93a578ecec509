//! The lines of a listing, each written into a part.

ghost use Rattle.std.specs.Prelude.{◌≡◌, ◌++◌, ◌+◌, ◌*◌, ◌^◌, ◌<◌, ◌≤◌, [], ◌∷◌, codes, decimal, length, IfSome};
ghost use Rattle.std.specs.Fmt.{signed_decimal};
ghost use Rattle.std.specs.List.{flat_map};
ghost use Rattle.dvi_read.specs.Listing.{hexadecimal_digit, is_shown_plainly, line, mark_line, shown_byte, rest_of_line, text_line};
ghost use Rattle.dvi_read.specs.declared.listings.part.TheConstants.{PART};
ghost use Rattle.dvi_scan.specs.View.{mark_of};

use crate::listings::part::ListingPart;
use dvi_scan::Mark;
use scaled_core::COUNTS;

/// Writes numbers in decimal before the bytes of the part, with a space before each.
fn put_numbers(numbers: &[i32], part: &mut ListingPart)
    requires { length part.old + 22 * length numbers.now ≤ PART }
    ensures text { part.new ≡ flat_map (λ number. codes " " ++ signed_decimal number) numbers.now ++ part.old }
    ensures len { length part.new ≤ length part.old + 22 * length numbers.now }
{
    for place in (0..numbers.len()).rev() {
        part.put_number(numbers[place]);
    }
}

/// The lower case hexadecimal digit of a number below 16.
pub fn hexadecimal_digit(number: u8) -> u8
    requires { number < 16 }
    ensures { result ≡ hexadecimal_digit number }
{
    if number < 10 {
        b'0' + number
    } else {
        b'a' + (number - 10)
    }
}

/// Whether a byte of a special is shown unchanged: it is printable and is no backslash.
fn is_shown_plainly(byte: u8) -> bool
    ensures { result ≡ is_shown_plainly byte }
{
    32 <= byte && byte <= 126 && byte != b'\\'
}

/// Writes a byte of a special into an empty part.
#[tactic(auto, unfolding(crate::specs::Listing::shown_byte))]
fn put_shown(byte: u8, part: &mut ListingPart)
    requires { part.old ≡ [] }
    ensures { part.new ≡ shown_byte byte }
{
    if is_shown_plainly(byte) {
        part.put_byte(byte);
        return;
    }
    part.put_byte(hexadecimal_digit(byte % 16));
    part.put_byte(hexadecimal_digit(byte / 16));
    part.put_byte(b'\\');
}

/// Replaces the part by the next byte of a special's text, or by the line feed after the text. Returns the rest of the text. The text is last on its
/// line, so its spaces need no mark and its length is not given.
#[tactic(auto, unfolding(crate::specs::Listing::text_line))]
pub(crate) fn put_text<'f>(text: &'f [u8], part: &mut ListingPart) -> Option<&'f [u8]>
    ensures all { text_line text.now ≡ part.new ++ rest_of_line result }
    ensures filled { 0 < length part.new }
    ensures shorter { IfSome result (λ rest. length rest.now < length text.now) }
    ensures short { length text.now < 2 ^ 64 }
{
    part.clear();
    let [byte, rest @ ..] = text else {
        part.put_byte(b'\n');
        return None;
    };
    put_shown(*byte, part);
    Some(rest)
}

/// Replaces the part by the line of a mark; for a special by the beginning of its line. Returns the text of a special, which is still to come.
#[tactic(auto, unfolding(crate::specs::Listing::line, crate::specs::Listing::special_line))]
pub(crate) fn put_mark<'f>(mark: &Mark<'f>, part: &mut ListingPart) -> Option<&'f [u8]>
    ensures all { mark_line (mark_of mark.now) ≡ part.new ++ rest_of_line result }
    ensures filled { 0 < length part.new }
{
    match *mark {
        Mark::Glyph { font, code, h, v } => {
            part.end_line(v);
            part.put_number(h);
            part.put_glyph(font, code);
            None
        }
        Mark::Rule {
            h,
            v,
            height,
            width,
        } => {
            part.end_line(width);
            part.put_number(height);
            part.put_number(v);
            part.put_number(h);
            part.put_word("rule");
            None
        }
        Mark::Special { h, v, text } => {
            part.clear();
            part.put_byte(b' ');
            part.put_number(v);
            part.put_number(h);
            part.put_word("special");
            Some(text)
        }
    }
}

/// Replaces the part by the first line of a page: its number and its counts.
#[tactic(auto, unfolding(crate::specs::Listing::line))]
pub(crate) fn put_counts(page: usize, counts: &[i32; COUNTS], part: &mut ListingPart)
    ensures { part.new ≡ line (codes "page " ++ (decimal page ++ codes " counts")) counts.now }
{
    part.clear();
    part.put_byte(b'\n');
    put_numbers(counts, part);
    part.put_word(" counts");
    part.put_digits(page as u64);
    part.put_word("page ");
}
