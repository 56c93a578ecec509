//! A mask put into a row, eight words at a time.

ghost use Rattle.std.specs.Prelude.{◌≡◌, ◌+◌, ◌<◌, ◌≤◌, ℕ, true, length, bit_or, slice_index};
ghost use Rattle.raster_core.specs.Private.Words.{Ors};

use std::simd::prelude::*;

/// Puts eight words of a mask into words with "or".
fn or_eight(words: &mut [u64], at: usize, mask: &[u64], from: usize)
    requires words { at + from + 8 ≤ length words.old }
    requires mask { from + 8 ≤ length mask.now }
    ensures { Ors words.old words.new at mask.now from (from + 8) }
{
    let both = u64x8::from_slice(&words[at + from..]) | u64x8::from_slice(&mask[from..]);
    both.copy_to_slice(&mut words[at + from..]);
}

/// Puts the words `from` to `to` (excluded) of a mask into words with "or", where word 0 of the mask falls on the word `at`. It takes eight words at
/// a time, and the rest word by word.
pub fn or_row(words: &mut [u64], at: usize, mask: &[u64], from: usize, to: usize)
    requires order { from ≤ to }
    requires words { at + to ≤ length words.old }
    requires mask { to ≤ length mask.now }
    ensures { Ors words.old words.new at mask.now from to }
{
    let blocks = (to - from) / 8;
    'lanes: for block in 0..blocks {
        or_eight(words, at, mask, from + 8 * block);
    }
    'rest: for k in from + 8 * blocks..to {
        words[at + k] |= mask[k];
    }
}

/// Whether words have each bit of the words `from` to `to` (excluded) of a mask, where word 0 of the mask falls on the word `at`.
pub fn has_row(words: &[u64], at: usize, mask: &[u64], from: usize, to: usize) -> bool
    requires words { at + to ≤ length words.now }
    requires mask { to ≤ length mask.now }
    ensures { result ≡ true → (k : ℕ) → from ≤ k → k < to
        → bit_or (slice_index words.now (at + k)) (slice_index mask.now k) ≡ slice_index words.now (at + k) }
{
    for k in from..to {
        if words[at + k] | mask[k] != words[at + k] {
            return false;
        }
    }
    true
}
