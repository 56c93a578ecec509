//! The pixels of a bitmap as bytes, eight in each.

ghost use Rattle.std.specs.Prelude.{◌≡◌, ◌+◌, ◌*◌, ◌<◌, ◌≤◌, ◌&&◌, ◌++◌, nat_lt, IfOk, OnOk};
ghost use Rattle.raster_core.specs.PackedRows.{bit_value, packed_byte, packed_row, packed_rows};
ghost use Rattle.raster_core.specs.Private.PackedRows.{pixel};
ghost use Rattle.raster_core.specs.Words.{in_rows};

use crate::rows::Rows;
use crate::word_rows::is_set;
use std::alloc::{AllocError, Global};

/// Whether a pixel is black. After the last column none is, whatever the words have there.
#[tactic(auto, unfolding(crate::specs::Words::in_rows))]
fn is_black(rows: Rows<'_>, x: usize, y: usize) -> bool
    requires { y < rows.height }
    ensures { result ≡ pixel rows.entry.width (in_rows rows.entry.words.now rows.entry.stride) y x }
{
    x < rows.width && is_set(rows.words[y * rows.stride + x / 64], x % 64)
}

/// The value of a pixel's bit.
fn bit_value(black: bool, value: u8) -> u8
    ensures exact { result ≡ bit_value black value }
    ensures value_bounded { result ≤ value }
{
    if black { value } else { 0 }
}

/// The byte of the eight pixels from column x on.
#[tactic(auto, unfolding(crate::specs::PackedRows::packed_byte))]
fn packed_byte(rows: Rows<'_>, x: usize, y: usize) -> u8
    requires row { y < rows.height }
    requires column { x < 10000 }
    ensures { result ≡ packed_byte (pixel rows.entry.width (in_rows rows.entry.words.now rows.entry.stride) y) x }
{
    bit_value(is_black(rows, x, y), 128)
        + bit_value(is_black(rows, x + 1, y), 64)
        + bit_value(is_black(rows, x + 2, y), 32)
        + bit_value(is_black(rows, x + 3, y), 16)
        + bit_value(is_black(rows, x + 4, y), 8)
        + bit_value(is_black(rows, x + 5, y), 4)
        + bit_value(is_black(rows, x + 6, y), 2)
        + bit_value(is_black(rows, x + 7, y), 1)
}

/// Appends the bytes of a row.
fn push_row(rows: Rows<'_>, y: usize, out: &mut Vec<u8>) -> Result<(), AllocError>
    requires { y < rows.height }
    ensures { OnOk result (out.new.items ≡ out.old.items
        ++ packed_row rows.entry.width (pixel rows.entry.width (in_rows rows.entry.words.now rows.entry.stride) y)) }
{
    for k in 0..rows.width.div_ceil(8) {
        out.push(packed_byte(rows, 8 * k, y))?;
    }
    Ok(())
}

/// The bytes of all rows.
pub fn packed_rows(alloc: Global, rows: Rows<'_>) -> Result<Vec<u8>, AllocError>
    ensures { IfOk result (λ bytes. bytes.items
        ≡ packed_rows rows.entry.width rows.entry.height (λ x y. pixel rows.entry.width (in_rows rows.entry.words.now rows.entry.stride) y x)) }
{
    let mut bytes = Vec::with_capacity(alloc, rows.height * rows.width.div_ceil(8))?;
    for y in 0..rows.height {
        push_row(rows, y, &mut bytes)?;
    }
    Ok(bytes)
}
