//! Pixels of many rows.

ghost use Rattle.std.specs.Prelude.{◌≡◌, ◌==◌, ◌+◌, ◌*◌, ◌/◌, ◌<◌, ◌≤◌, ◌&&◌, ◌||◌, ℕ, length};
ghost use Rattle.raster_core.specs.Words.{AreFull, is_between, in_rows, is_set};
ghost use Rattle.raster_core.specs.Private.Words.{IsRun};

use crate::lanes::{has_row, or_row};
use crate::masks::fill;
use std::ops::Range;

/// A run of black pixels in a row: the pixels `first` to `last` (excluded), a mask of these pixels, and the words that they fill.
#[derive(Clone, Copy, Debug)]
struct Run<'a> {
    first: usize,
    last: usize,
    mask: &'a [u64],
    inner: &'a [u64],
    ghost nonempty: { first < last },
    ghost columns: { last ≤ 64 * length mask.now },
    ghost mask_bounded: { length mask.now ≤ 192 },
    ghost inner_words: { length inner.now ≡ 3 },
    ghost run: { IsRun mask.now inner.now first last },
}

/// Makes a run of pixels of a row black. Where the words that it fills are known to be black, only the first and the last word of the run are
/// written.
fn blacken_row(words: &mut [u64], full: &mut [u64], run: Run<'_>, row: usize)
    requires space { row * length run.mask.now + length run.mask.now ≤ length words.old }
    requires full_space { row * 3 + 3 ≤ length full.old }
    requires full { AreFull full.old words.old (length run.mask.now) }
    ensures full { AreFull full.new words.new (length run.entry.mask.now) }
    ensures pixels { let stride = length run.entry.mask.now in
        (x y : ℕ) → x < 64 * stride → in_rows words.new stride x y
        ≡ (in_rows words.old stride x y || ((y == row) && is_between run.entry.first run.entry.last x)) }
{
    let at = row * run.mask.len();
    let from = run.first / 64;
    let to = run.last.div_ceil(64);
    if has_row(full, row * 3, run.inner, 0, 3) {
        or_row(words, at, run.mask, from, from + 1);
        or_row(words, at, run.mask, to - 1, to);
    } else {
        or_row(words, at, run.mask, from, to);
        or_row(full, row * 3, run.inner, 0, 3);
    }
}

/// Makes a run of pixels black in each of these rows.
fn blacken_rows(words: &mut [u64], full: &mut [u64], run: Run<'_>, rows: Range<usize>)
    requires rows { rows.start ≤ rows.end }
    requires space { rows.end * length run.mask.now ≤ length words.old }
    requires full_space { rows.end * 3 ≤ length full.old }
    requires full { AreFull full.old words.old (length run.mask.now) }
    ensures full { AreFull full.new words.new (length run.entry.mask.now) }
    ensures pixels { let stride = length run.entry.mask.now in
        (x y : ℕ) → x < 64 * stride → in_rows words.new stride x y
        ≡ (in_rows words.old stride x y || (is_between rows.start rows.end y && is_between run.entry.first run.entry.last x)) }
{
    for row in rows.start..rows.end {
        blacken_row(words, full, run, row);
    }
}

/// Makes the pixels of these columns black in each of these rows. A row has as many words as `mask`, which is used only inside this call, and three
/// words of `full`, in which a bit is 1 where a word of the row is known to be black. Where all words of a run are known to be black, only its ends
/// are written; so the time is that of the rows, and of the words that become black.
pub fn blacken(
    words: &mut [u64],
    mask: &mut [u64],
    full: &mut [u64],
    columns: Range<usize>,
    rows: Range<usize>,
)
    requires columns { columns.end ≤ 64 * length mask.old }
    requires mask_bounded { length mask.old ≤ 192 }
    requires rows { rows.end * length mask.old ≤ length words.old }
    requires full_rows { rows.end * 3 ≤ length full.old }
    requires full { AreFull full.old words.old (length mask.old) }
    ensures full { AreFull full.new words.new (length mask.old) }
    ensures pixels { let stride = length mask.old in
        (x y : ℕ) → x < 64 * stride → in_rows words.new stride x y
        ≡ (in_rows words.old stride x y || (is_between columns.start columns.end x && is_between rows.start rows.end y)) }
{
    if columns.start >= columns.end || rows.start >= rows.end {
        return;
    }
    let (first, last) = (columns.start, columns.end);
    fill(mask, first / 64, last.div_ceil(64), first, last);
    let mut inner = [0; 3];
    fill(&mut inner, 0, 3, first.div_ceil(64), last / 64);
    let run = Run {
        first,
        last,
        mask,
        inner: &inner,
    };
    blacken_rows(words, full, run, rows);
}

/// Whether the pixel of bit i in a word is black.
pub fn is_set(word: u64, i: usize) -> bool
    requires { i < 64 }
    ensures { result ≡ is_set word i }
{
    word >> i & 1 == 1
}
