//! The plain text of a bitmap.

ghost use Rattle.std.specs.Prelude.{◌≡◌, ◌+◌, ◌-◌, ◌*◌, ◌<◌, ◌≤◌, ◌++◌, ℕ, Bool, decimal, length, min, vec_capacity, vec_len, OnErr, OnOk};
ghost use Rattle.raster_core.specs.Words.{in_rows, is_set};
ghost use Rattle.raster_core.specs.PlainText.{header_text, row_text, rows_text};
ghost use Rattle.raster_core.specs.declared.printing.TheConstants.{MAX_DIGITS, MAX_HEADER};
ghost use Rattle.raster_core.specs.Private.RowPieces.{digit_of, digits, line_text, row_size};

use crate::rows::Rows;
use crate::word_rows::is_set;
use itoa::Buffer;
use std::alloc::AllocError;

/// The greatest size of a header in bytes.
const MAX_HEADER: usize = 16;

/// The greatest number of digits of a row: those of 157 words.
pub const MAX_DIGITS: usize = 10_048;

/// Appends bytes within the capacity of `out`. It takes no memory.
fn append_bytes(out: &mut Vec<u8>, bytes: &[u8])
    requires space { vec_len out.old + length bytes.now ≤ vec_capacity out.old }
    ensures text { out.new.items ≡ out.old.items ++ bytes.now }
    ensures len { vec_len out.new ≡ vec_len out.old + length bytes.now }
    ensures capacity { vec_capacity out.old ≤ vec_capacity out.new }
{
    let Ok(()) = out.extend_from_slice(bytes) else {
        unreachable!()
    };
}

/// Appends a number in decimal, within the capacity of `out`.
fn append_number(out: &mut Vec<u8>, number: usize)
    requires number_bounded { number ≤ 10000 }
    requires space { vec_len out.old + 5 ≤ vec_capacity out.old }
    ensures text { out.new.items ≡ out.old.items ++ decimal number }
    ensures len { vec_len out.new ≤ vec_len out.old + 5 }
    ensures capacity { vec_capacity out.old ≤ vec_capacity out.new }
{
    let mut buffer = Buffer::new();
    append_bytes(out, buffer.format(number).as_bytes());
}

/// Appends the header, within the capacity of `out`.
pub fn append_header(out: &mut Vec<u8>, width: usize, height: usize)
    requires width_bounded { width ≤ 10000 }
    requires height_bounded { height ≤ 10000 }
    requires space { vec_len out.old + MAX_HEADER ≤ vec_capacity out.old }
    ensures text { out.new.items ≡ out.old.items ++ header_text width height }
    ensures len { vec_len out.new ≤ vec_len out.old + MAX_HEADER }
    ensures capacity { vec_capacity out.old ≤ vec_capacity out.new }
{
    append_bytes(out, b"P1\n");
    append_number(out, width);
    append_bytes(out, b" ");
    append_number(out, height);
    append_bytes(out, b"\n");
}

/// The digit of a pixel.
fn digit(black: bool) -> u8
    ensures { result ≡ digit_of black }
{
    if black { b'1' } else { b'0' }
}

/// Writes the 64 digits of the pixels of a word. Most words are all white or all black, and need no loop.
fn put_word(word: u64, part: &mut [u8])
    requires { length part.old ≡ 64 }
    ensures { part.new ≡ digits (is_set word) 0 64 }
{
    if word == 0 {
        part.fill(b'0');
    } else if word == u64::MAX {
        part.fill(b'1');
    } else {
        for i in 0..64 {
            part[i] = digit(is_set(word, i));
        }
    }
}

/// Writes the digits of all words of a row; there may be more pixels than columns.
fn put_row(words: &[u64], stride: usize, y: usize, row: &mut [u8])
    requires space { length row.old ≡ 64 * stride }
    requires rows { y * stride + stride ≤ length words.now }
    ensures { row.new ≡ digits (λ x. in_rows words.now stride x y) 0 (64 * stride) }
{
    for k in 0..stride {
        put_word(words[y * stride + k], &mut row[64 * k..64 * k + 64]);
    }
}

/// Appends a line of a row, within the capacity of `out`: its digits and a line feed.
fn append_line(out: &mut Vec<u8>, row: &[u8], width: usize, line: usize)
    requires line { 70 * line < width }
    requires columns { width ≤ length row.now }
    requires space { vec_len out.old + (min (width - 70 * line) 70 + 1) ≤ vec_capacity out.old }
    ensures text { (black : ℕ → Bool) → row.now ≡ digits black 0 (length row.now) → out.new.items ≡ out.old.items ++ line_text width black line }
    ensures len { vec_len out.new ≡ vec_len out.old + (min (width - 70 * line) 70 + 1) }
    ensures capacity { vec_capacity out.old ≤ vec_capacity out.new }
{
    let from = 70 * line;
    append_bytes(out, &row[from..from + (width - from).min(70)]);
    append_bytes(out, b"\n");
}

/// Appends the text of a row with these digits, within the capacity of `out`.
fn append_lines(out: &mut Vec<u8>, row: &[u8], width: usize)
    requires columns { width ≤ length row.now }
    requires space { vec_len out.old + row_size width ≤ vec_capacity out.old }
    ensures text { (black : ℕ → Bool) → row.now ≡ digits black 0 (length row.now) → out.new.items ≡ out.old.items ++ row_text width black }
    ensures len { vec_len out.new ≡ vec_len out.old + row_size width }
    ensures capacity { vec_capacity out.old ≤ vec_capacity out.new }
{
    for line in 0..width.div_ceil(70) {
        append_line(out, row, width, line);
    }
}

/// Appends the text of a row, within the capacity of `out`. Its digits are collected in `digits`.
pub fn append_row(out: &mut Vec<u8>, rows: Rows<'_>, y: usize, digits: &mut [u8])
    requires row { y < rows.height }
    requires digits { MAX_DIGITS ≤ length digits.old }
    requires space { vec_len out.old + row_size rows.width ≤ vec_capacity out.old }
    ensures text { out.new.items ≡ out.old.items ++ row_text rows.entry.width (λ x. in_rows rows.entry.words.now rows.entry.stride x y) }
    ensures len { vec_len out.new ≡ vec_len out.old + row_size rows.entry.width }
    ensures capacity { vec_capacity out.old ≤ vec_capacity out.new }
{
    let row = &mut digits[..64 * rows.stride];
    put_row(rows.words, rows.stride, y, row);
    append_lines(out, row, rows.width);
}

/// Appends the text of all rows, within the capacity of `out`.
fn append_rows(out: &mut Vec<u8>, rows: Rows<'_>)
    requires space { vec_len out.old + rows.height * row_size rows.width ≤ vec_capacity out.old }
    ensures { out.new.items ≡ out.old.items ++ rows_text rows.entry.width rows.entry.height (in_rows rows.entry.words.now rows.entry.stride) }
{
    let mut digits = [0; MAX_DIGITS];
    for y in 0..rows.height {
        append_row(out, rows, y, &mut digits);
    }
}

/// Appends the header and the text of all rows. All memory is taken before the first byte, so that nothing is appended where it is refused.
pub fn append_text(out: &mut Vec<u8>, rows: Rows<'_>) -> Result<(), AllocError>
    ensures ok { OnOk result (out.new.items ≡ out.old.items ++ (header_text rows.entry.width rows.entry.height ++ rows_text rows.entry.width
        rows.entry.height (in_rows rows.entry.words.now rows.entry.stride))) }
    ensures err { OnErr result (out.new.items ≡ out.old.items) }
{
    out.reserve(MAX_HEADER + rows.height * rows.row_size())?;
    append_header(out, rows.width, rows.height);
    append_rows(out, rows);
    Ok(())
}
