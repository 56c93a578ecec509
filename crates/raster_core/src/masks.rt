//! The mask of a row: a run of black pixels as words.

ghost use Rattle.std.specs.Prelude.{◌≡◌, ◌*◌, ◌^◌, ◌<◌, ◌≤◌, ℕ, length, nat_lt, slice_index};
ghost use Rattle.raster_core.specs.Words.{is_between, is_set};
ghost use Rattle.raster_core.specs.Private.Words.{in_row};

/// The word whose lowest `count` bits are 1 and whose other bits are 0.
fn low_bits(count: usize) -> u64
    ensures { (i : ℕ) → i < 64 → is_set result i ≡ nat_lt i count }
{
    if count >= 64 {
        u64::MAX
    } else {
        (1 << count) - 1
    }
}

/// Sets the words `from` to `to` (excluded) of a mask to the run of black pixels `first` to `last` (excluded). The other words are unchanged.
pub fn fill(mask: &mut [u64], from: usize, to: usize, first: usize, last: usize)
    requires words { to ≤ length mask.old }
    requires length_bounded { 64 * to < 2 ^ 64 }
    ensures run { (x : ℕ) → 64 * from ≤ x → x < 64 * to → in_row mask.new x ≡ is_between first last x }
    ensures before { (k : ℕ) → k < from → slice_index mask.new k ≡ slice_index mask.old k }
    ensures after { (k : ℕ) → to ≤ k → slice_index mask.new k ≡ slice_index mask.old k }
{
    for k in from..to {
        mask[k] = low_bits(last.saturating_sub(64 * k)) & !low_bits(first.saturating_sub(64 * k));
    }
}
