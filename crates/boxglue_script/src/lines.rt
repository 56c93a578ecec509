//! Lines of a text and fields of a line.

ghost use Rattle.std.specs.Prelude.{◌≡◌, ◌⊎◌, ◌∷◌, ◌++◌, ◌<◌, ◌≤◌, ℕ, List, [], drop, length};
ghost use Rattle.std.specs.List.{list_all, prefix_len};
ghost use Rattle.std.specs.Str.Lines.{lines, strip_carriage_return};
ghost use Rattle.boxglue_script.specs.ScriptLines.{is_passed_over, is_printable, is_space};
ghost use Rattle.boxglue_script.specs.LineContents.{IsWhole};
ghost use Rattle.boxglue_script.specs.Private.Reading.{in_line, is_plain, in_field, front_field, after_field};

use memchr::memchr;

/// The first line of a text that is not empty, without its end, and the text after it. A line ends with a line feed, which the last one need not
/// have. What follows begins right after that end.
#[tactic(auto, using(crate::proofs::LineLemmas::splitting))]
#[inline(always)]
pub fn first_line(text: &[u8]) -> (&[u8], &[u8])
    requires { 0 < length text.now }
    ensures lines { lines text.now ≡ result.0.now ∷ lines result.1.now }
    ensures shorter { length result.1.now < length text.now }
    ensures split { (front : List ℕ) × (text.now ≡ front ++ result.1.now) × (lines front ≡ result.0.now ∷ [])
        × (IsWhole front ⊎ (result.1.now ≡ [])) }
{
    let (line, after) = text.split_at(line_size(text));
    match after {
        [] => (line, after),
        [_feed, rest @ ..] => (without_return(line), rest),
    }
}

/// The number of bytes before the first line feed.
#[inline(always)]
fn line_size(text: &[u8]) -> usize
    ensures size { result ≡ prefix_len in_line text.now }
    ensures size_bounded { result ≤ length text.now }
{
    memchr(b'\n', text).unwrap_or(text.len())
}

/// The line without the one carriage return at its end, if there is one. Only one directly before a line feed is part of the line's end; any other
/// one is a byte that is not printable.
fn without_return(line: &[u8]) -> &[u8]
    ensures { result.now ≡ strip_carriage_return line.now }
{
    match line {
        [front @ .., b'\r'] => front,
        _ => line,
    }
}

/// Whether a line gives no command and is counted: it is empty, or it begins with `%`. Both hold of the raw line: in a line of spaces the command is
/// missing (Missing), and a space and `%` is a bad word (Word). The bytes of a comment are not checked.
pub fn is_passed_over(line: &[u8]) -> bool
    ensures { result ≡ is_passed_over line.now }
{
    match line {
        [] => true,
        [first, ..] => *first == b'%',
    }
}

/// Whether each byte of a line is printable ASCII, 32 to 126. The loop has no way out, since without one the compiler tests 32 bytes at once.
pub fn is_printable(line: &[u8]) -> bool
    ensures { result ≡ list_all is_printable line.now }
{
    let mut printable = true;
    for byte in line {
        printable &= is_printable_byte(*byte);
    }
    printable
}

/// Whether each byte of a text is printable ASCII or a line feed, so that each line of it is printable. This loop has no way out either.
pub fn is_plain(text: &[u8]) -> bool
    ensures { result ≡ list_all is_plain text.now }
{
    let mut plain = true;
    for byte in text {
        plain &= is_plain_byte(*byte);
    }
    plain
}

/// Whether a byte is printable ASCII or a line feed.
fn is_plain_byte(byte: u8) -> bool
    ensures { result ≡ is_plain byte }
{
    is_printable_byte(byte) || byte == b'\n'
}

/// Whether a byte is printable ASCII.
fn is_printable_byte(byte: u8) -> bool
    ensures { result ≡ is_printable byte }
{
    byte >= 32 && byte <= 126
}

/// The first field of a line, empty if there is none, and the rest after it.
#[tactic(auto, unfolding(crate::specs::Private::Reading::front_field, crate::specs::Private::Reading::after_field))]
pub fn first_field(line: &[u8]) -> (&[u8], &[u8])
    ensures field { result.0.now ≡ front_field line.now }
    ensures text_left { result.1.now ≡ after_field line.now }
{
    let line = &line[space_count(line)..];
    line.split_at(field_size(line))
}

/// The text after the first field of a line: all that follows one space, unchanged, so that a text can begin or end with a space.
/// The text is empty if the field ends the line.
pub fn text_after(rest: &[u8]) -> &[u8]
    ensures { result.now ≡ drop 1 rest.now }
{
    match rest {
        [] => rest,
        [_space, text @ ..] => text,
    }
}

/// The number of spaces at the beginning.
fn space_count(line: &[u8]) -> usize
    ensures count { result ≡ prefix_len is_space line.now }
    ensures size_bounded { result ≤ length line.now }
{
    line.iter().take_while(|byte| **byte == b' ').count()
}

/// The number of bytes before the first space.
fn field_size(line: &[u8]) -> usize
    ensures size { result ≡ prefix_len in_field line.now }
    ensures size_bounded { result ≤ length line.now }
{
    line.iter().take_while(|byte| **byte != b' ').count()
}
