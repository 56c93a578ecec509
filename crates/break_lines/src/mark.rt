//! The places of a list, as its meter stores them.

ghost use Rattle.std.specs.Prelude.{◌≡◌};
ghost use Rattle.break_lines.specs.LineItems.{IsSmallSums};
ghost use Rattle.break_lines.specs.Private.SmallMarks.{IsSmallMark};
ghost use Rattle.break_lines.specs.Private.Marks.{line_between};

use crate::item_sums::{Sums, minus};

/// A legal place, or the start: its position, the position at which a line from it begins, the penalty of a break there, and the sums over the items
/// from each of the two positions to the end of the list. The sums of a line are the difference of two of these.
#[derive(Clone, Copy, Debug)]
pub struct MeasuredBreak {
    pub position: usize,
    pub begin: usize,
    pub from_position: Sums,
    pub from_begin: Sums,
    pub penalty: i32,
}

impl MeasuredBreak {
    /// The sums over the items of the line to a later place. A line to a place among the items that are dropped at its beginning is empty.
    #[inline]
    pub fn line_to(&self, end: &MeasuredBreak) -> Sums
        requires here { IsSmallMark self.now }
        requires there { IsSmallMark end.now }
        ensures value { result ≡ line_between self.now end.now }
        ensures sums_bounded { IsSmallSums result }
    {
        if self.begin >= end.position {
            return Sums::ZERO;
        }
        minus(&self.from_begin, &end.from_position)
    }
}
