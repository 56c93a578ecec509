//! The legal places of a list and the cost of a line, computed from their definitions, independently of the breaker.

use crate::items::{Amounts, Item, POINT, Setting};
use scaled_core::badness;
use std::alloc::Global;
use std::process::Abort;

/// How a line is set.
#[derive(Clone, Copy)]
pub(crate) struct Line {
    pub(crate) overfull: bool,
    pub(crate) badness: i64,
    pub(crate) class: i64,
    pub(crate) overhang: i64,
}

/// Whether an item stays at the beginning of a line. Glue after such an item is a legal place.
fn stays(item: &Item) -> bool {
    match item {
        Item::Glyph(_) | Item::FontKern(_) | Item::Box(_) | Item::Rule(_) | Item::Special => true,
        Item::Glue(_) | Item::Kern(_) | Item::Penalty(_) => false,
    }
}

/// The legal places of a list.
pub(crate) fn legal_places(rt: &impl Abort, alloc: Global, items: &[Item]) -> Vec<usize> {
    let mut places = Vec::new(alloc);
    let mut after = false;
    for (place, item) in items.iter().enumerate() {
        let legal = match *item {
            Item::Glue(_) => after,
            Item::Kern(_) => matches!(items.get(place.saturating_add(1)), Some(Item::Glue(_))),
            Item::Penalty(penalty) => penalty < 10_000,
            _ => false,
        };
        after = stays(item);
        if legal {
            places.push(place).ok().expect(rt, "there is memory");
        }
    }
    places.push(items.len()).ok().expect(rt, "there is memory");
    places
}

/// The penalty of a break at a place.
pub(crate) fn penalty_at(items: &[Item], place: usize) -> i64 {
    match items.get(place) {
        None => -10_000,
        Some(Item::Penalty(penalty)) => *penalty,
        Some(_) => 0,
    }
}

/// The amounts that an item adds to a line.
fn amounts_of(item: &Item) -> Amounts {
    let mut kept = Amounts {
        width: 0,
        stretch: 0,
        fil: 0,
        shrink: 0,
    };
    match item {
        Item::Glyph(width)
        | Item::FontKern(width)
        | Item::Box(width)
        | Item::Rule(width)
        | Item::Kern(width) => kept.width = *width,
        Item::Glue(glue) => kept = *glue,
        Item::Special | Item::Penalty(_) => {}
    }
    kept
}

/// The amounts of the line from a place, or from the start, to another place, in points. What the line keeps of the item at its end adds nothing.
pub(crate) fn line_amounts(items: &[Item], from: Option<usize>, to: usize) -> Amounts {
    let begin = match from {
        Some(place) => place.saturating_add(1),
        None => 0,
    };
    let mut sums = Amounts {
        width: 0,
        stretch: 0,
        fil: 0,
        shrink: 0,
    };
    let mut dropping = from.is_some();
    for (index, item) in items.iter().enumerate() {
        dropping = dropping && !(index >= begin && stays(item));
        if index >= begin && index < to && !dropping {
            let more = amounts_of(item);
            sums.width = sums.width.saturating_add(more.width);
            sums.stretch = sums.stretch.saturating_add(more.stretch);
            sums.fil = sums.fil.saturating_add(more.fil);
            sums.shrink = sums.shrink.saturating_add(more.shrink);
        }
    }
    sums
}

/// How a stretched line is set, by its badness, which is 0 if it has stretch of order fil.
fn stretched_line(badness: i64) -> Line {
    let class = if badness > 99 {
        0
    } else if badness > 12 {
        1
    } else {
        2
    };
    Line {
        overfull: false,
        badness,
        class,
        overhang: 0,
    }
}

/// The width of a line, by its number, which counts from 1.
pub(crate) fn size_of(setting: &Setting, line: i64) -> i64 {
    if line <= setting.first_lines {
        setting.first_size
    } else {
        setting.hsize
    }
}

/// How a line with these amounts is set to this width.
pub(crate) fn fit_line(sums: &Amounts, size: i64) -> Line {
    let shortfall = size.saturating_sub(sums.width);
    if shortfall > 0 {
        if sums.fil != 0 {
            return stretched_line(0);
        }
        let badness = badness(
            shortfall.saturating_mul(POINT),
            sums.stretch.saturating_mul(POINT),
        );
        return stretched_line(i64::from(badness));
    }
    let excess = sums.width.saturating_sub(size);
    if excess > sums.shrink {
        return Line {
            overfull: true,
            badness: 10_000,
            class: 3,
            overhang: excess.saturating_sub(sums.shrink).saturating_mul(POINT),
        };
    }
    let amount = if excess > 0 {
        excess.saturating_mul(POINT)
    } else {
        0
    };
    let badness = i64::from(badness(amount, sums.shrink.saturating_mul(POINT)));
    Line {
        overfull: false,
        badness,
        class: if badness > 12 { 3 } else { 2 },
        overhang: 0,
    }
}

/// The demerits of a line after a line of this class.
pub(crate) fn demerits(setting: &Setting, penalty: i64, before: i64, line: &Line) -> i64 {
    let cost = setting.line_penalty.saturating_add(line.badness);
    let base = if cost >= 10_000 || cost <= -10_000 {
        100_000_000
    } else {
        cost.saturating_mul(cost)
    };
    let square = penalty.saturating_mul(penalty);
    let broken = if penalty > 0 {
        square
    } else if penalty > -10_000 {
        0_i64.saturating_sub(square)
    } else {
        0
    };
    let apart = before.saturating_sub(line.class);
    let adjacent = if apart > 1 || apart < -1 {
        setting.adj_demerits
    } else {
        0
    };
    base.saturating_add(broken).saturating_add(adjacent)
}
