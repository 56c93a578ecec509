//! Random lists and parameters.

use crate::items::{Amounts, Item, Setting};
use std::alloc::Global;
use std::process::Abort;

/// Random numbers: a linear congruential generator.
#[derive(Drop)]
pub(crate) struct Random(pub(crate) u64);

impl Random {
    /// One of these numbers.
    pub(crate) fn one_of(&mut self, numbers: &[i64]) -> i64 {
        self.0 = self
            .0
            .wrapping_mul(6_364_136_223_846_793_005)
            .wrapping_add(1_442_695_040_888_963_407);
        let index = (self.0 / 8_589_934_592)
            .checked_rem(numbers.len() as u64)
            .unwrap_or(0);
        match numbers.get(index as usize) {
            Some(number) => *number,
            None => 0,
        }
    }

    /// Glue whose stretch is of one order.
    fn glue(&mut self) -> Amounts {
        let fil = self.one_of(&[0, 0, 0, 0, 0, 0, 0, 1, -1]);
        let stretch = self.one_of(&[0, 5, 10, 15]);
        Amounts {
            width: self.one_of(&[-5, 0, 5, 5]),
            stretch: if fil == 0 { stretch } else { 0 },
            fil,
            shrink: self.one_of(&[0, 0, 2, 5, -1]),
        }
    }

    pub(crate) fn item(&mut self) -> Item {
        match self.one_of(&[0, 0, 1, 1, 1, 1, 2, 3, 4, 5, 6, 7]) {
            0 => Item::Rule(self.one_of(&[5, 10, 15, 20, 30])),
            1 => Item::Glue(self.glue()),
            2 => Item::Kern(self.one_of(&[-15, 5])),
            3 => Item::Glyph(self.one_of(&[5, 10, 15])),
            4 => Item::FontKern(self.one_of(&[-5, 5])),
            5 => Item::Box(self.one_of(&[10, 20])),
            6 => Item::Special,
            _ => { Item::Penalty(self.one_of(&[0, 50, -50, 9_999, 10_000, -9_999, -10_000])) }
        }
    }

    pub(crate) fn setting(&mut self) -> Setting {
        Setting {
            hsize: self.one_of(&[20, 30, 40]),
            first_lines: self.one_of(&[0, 0, 1, 2, 3, 32]),
            first_size: self.one_of(&[20, 30, 40, 60]),
            pretolerance: self.one_of(&[-1, 100, 10]),
            tolerance: self.one_of(&[200, 10_000, 12]),
            line_penalty: self.one_of(&[10, 0, -20, 9_990]),
            adj_demerits: self.one_of(&[10_000, 0, -500]),
        }
    }
}

/// A random finished list of up to 22 items.
pub(crate) fn random_items(rt: &impl Abort, alloc: Global, random: &mut Random) -> Vec<Item> {
    let mut items = Vec::new(alloc);
    for _ in 0..random.one_of(&[2, 4, 6, 8, 10, 12, 14, 16, 18, 20]) {
        items.push(random.item()).ok().expect(rt, "there is memory");
    }
    items
        .push(Item::Penalty(10_000))
        .ok()
        .expect(rt, "there is memory");
    let fill = Item::Glue(Amounts {
        width: 0,
        stretch: 0,
        fil: random.one_of(&[0, 1, 1, 1]),
        shrink: 0,
    });
    items.push(fill).ok().expect(rt, "there is memory");
    items
}
