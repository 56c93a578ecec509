//! Places of rows.

ghost use Rattle.std.specs.Prelude.{◌≡◌, ◌+◌, ℤ, min};
ghost use Rattle.std.specs.Int.{int_wrap, w128};
ghost use Rattle.box_items.specs.Rows.{ItemPlace, wide_of};
ghost use Rattle.box_items.specs.Private.Written.{IsPlace, moved_by};

/// A number of scaled points of 128 bits, in two's complement. A box that a script makes can have places beyond 64 bits.
#[repr(C)]
#[derive(Clone, Copy, Debug, PartialEq, Eq)]
pub struct WideDimen {
    /// The low 64 bits.
    pub low: u64,
    /// The high 64 bits, with the sign.
    pub high: i64,
}

/// Where an item is, from the reference point of the outermost box: its level, its place to the right and downward, and how many bytes of text are
/// before it. Nothing proves how deep boxes nest, so the level stops at the greatest number, and places wrap around at 128 bits.
#[derive(Clone, Copy, Debug)]
pub(crate) struct RowPlace {
    pub level: u32,
    pub h: i128,
    pub v: i128,
    pub text: u64,
}

impl RowPlace {
    /// The place at these distances to the right and down.
    #[inline(always)]
    pub(crate) fn at_offset(&self, right: i128, down: i128) -> RowPlace
        ensures { (exact : ItemPlace) → IsPlace self.now exact → IsPlace result (moved_by exact right down) }
    {
        RowPlace {
            level: self.level,
            h: self.h.wrapping_add(right),
            v: self.v.wrapping_add(down),
            text: self.text,
        }
    }

    /// The same place, one level deeper.
    pub(crate) fn deeper(&self) -> RowPlace
        ensures { (exact : ItemPlace) → IsPlace self.now exact → IsPlace result (record exact { level = exact.level + 1 }) }
    {
        RowPlace {
            level: self.level.saturating_add(1),
            h: self.h,
            v: self.v,
            text: self.text,
        }
    }

    /// The same place, after this many bytes of text.
    #[inline(always)]
    pub(crate) fn after_text(&self, text: u64) -> RowPlace
        ensures { (exact : ItemPlace) → IsPlace self.now exact → IsPlace result (record exact { text = text }) }
    {
        RowPlace {
            level: self.level,
            h: self.h,
            v: self.v,
            text,
        }
    }
}

/// A number of 128 bits as two words.
#[tactic(auto, unfolding(crate::specs::Rows::wide_of))]
#[inline(always)]
pub(crate) fn wide_of(distance: i128) -> WideDimen
    ensures { (exact : ℤ) → distance ≡ int_wrap w128 exact → result ≡ wide_of exact }
{
    let bits = distance.cast_unsigned();
    let low = (bits % 18_446_744_073_709_551_616) as u64;
    let high = (bits / 18_446_744_073_709_551_616) as u64;
    WideDimen {
        low,
        high: high.cast_signed(),
    }
}
