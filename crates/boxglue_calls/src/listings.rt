//! The listing of a checked DVI file, counted and then written into the memory of a caller.

ghost use Rattle.std.specs.Prelude.{◌≡◌, ◌≤◌, ℕ, List, length, vec_capacity, IfOk, IfSome, OnErr};
ghost use Rattle.dvi_read.specs.Listing.{listing};
ghost use Rattle.dvi_read.specs.ItemsLeft.{AreLinesLeft, HasAllLines};
ghost use Rattle.dvi_read.specs.declared.listings.part.TheConstants.{PART};
ghost use Rattle.boxglue_calls.specs.Buffers.{HandsOver, Holds};

use crate::buffers::put_after;
use crate::status::{ACCEPTED, BUFFER_TOO_SMALL};
use dvi_read::{Dvi, Lines};
use std::alloc::{AllocError, Global};

/// The most bytes of a listing that are made at once. It must be at least PART, the longest line.
const PIECE: usize = 65_536;

/// The number of bytes of a listing, if it is below 2^64.
fn listing_size(lines: &mut Lines<'_, '_>, piece: &mut Vec<u8>) -> Option<usize>
    requires space { PART ≤ vec_capacity piece.old }
    requires remaining { (text : List ℕ) × AreLinesLeft lines.old text }
    ensures size { (text : List ℕ) → AreLinesLeft lines.old text → IfSome result (λ size. size ≡ length text) }
    ensures all_lines { (text : List ℕ) → HasAllLines lines.old text → HasAllLines lines.new text }
    ensures remaining { (text : List ℕ) × AreLinesLeft lines.new text }
    ensures space { PART ≤ vec_capacity piece.new }
{
    let mut size = 0_usize;
    while lines.next_piece(piece) {
        size = size.checked_add(piece.len())?;
    }
    Some(size)
}

/// Writes a listing to the front of a buffer that has space for it.
fn write_listing(lines: &mut Lines<'_, '_>, piece: &mut Vec<u8>, text: &mut [u8])
    requires space { PART ≤ vec_capacity piece.old }
    requires remaining { (whole : List ℕ) × AreLinesLeft lines.old whole × (length whole ≤ length text.old) }
    ensures { (whole : List ℕ) → AreLinesLeft lines.old whole → length whole ≤ length text.old → Holds text.old text.new whole }
{
    let mut count = 0;
    while lines.next_piece(piece) {
        put_after(count, piece, text);
        count += piece.len();
    }
}

/// Hands a listing over: its bytes are counted, and where the buffer has space for them they are made once more, and written into it. Where memory is
/// refused, or the number of bytes is not below 2^64, nothing is written.
fn hand_over_listing(
    lines: &mut Lines<'_, '_>,
    piece: &mut Vec<u8>,
    text: &mut [u8],
    size: &mut usize,
) -> Result<u32, AllocError>
    requires space { PART ≤ vec_capacity piece.old }
    requires lines { (whole : List ℕ) × AreLinesLeft lines.old whole × HasAllLines lines.old whole }
    ensures handed { (whole : List ℕ) → AreLinesLeft lines.old whole → HasAllLines lines.old whole
        → IfOk result (λ status. HandsOver text.old text.new whole 0 status × (size.new ≡ length whole)) }
    ensures text { OnErr result (text.new ≡ text.old) }
    ensures size { OnErr result (size.new ≡ size.old) }
{
    let Some(bytes) = listing_size(lines, piece) else {
        return Err(AllocError);
    };
    *size = bytes;
    if text.len() < bytes {
        return Ok(BUFFER_TOO_SMALL);
    }
    lines.rewind();
    write_listing(lines, piece, text);
    Ok(ACCEPTED)
}

/// Hands the listing of a file over. All memory is taken before.
pub(crate) fn list_opened(
    alloc: Global,
    dvi: &Dvi<'_>,
    text: &mut [u8],
    size: &mut usize,
) -> Result<u32, AllocError>
    ensures handed { IfOk result (λ status. HandsOver text.old text.new (listing dvi.now.pages) 0 status
        × (size.new ≡ length (listing dvi.now.pages))) }
    ensures text { OnErr result (text.new ≡ text.old) }
    ensures size { OnErr result (size.new ≡ size.old) }
{
    let mut lines = dvi.lines()?;
    let mut piece = Vec::with_capacity(alloc, PIECE)?;
    hand_over_listing(&mut lines, &mut piece, text, size)
}
