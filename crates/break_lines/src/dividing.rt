//! How much wider a line gets when it is divided into two.

ghost use Rattle.std.specs.Prelude.{◌≡◌, ◌<ℤ◌, pos, true, List};
ghost use Rattle.node_core.specs.declared.tree.Node.{Node};
ghost use Rattle.break_lines.specs.Facts.{facts_of};
ghost use Rattle.break_lines.specs.Private.Marks.{marks_of, line_between};
ghost use Rattle.break_lines.specs.LineItems.{IsSmallSums};
ghost use Rattle.break_lines.specs.Private.SmallMarks.{AreSmallMarks, IsSmallMark};
ghost use Rattle.break_lines.specs.Steady.{IsSteady};
ghost use Rattle.break_lines.specs.Divided.{IsLess, IsDivided};

use crate::item_sums::Sums;
use crate::mark::MeasuredBreak;
use scaled_core::Dimen;

/// Whether two lines together are wider than one line by less than an amount. All three are shrunk as far as they can.
fn is_less(front: &Sums, back: &Sums, whole: &Sums, amount: Dimen) -> bool
    requires front { IsSmallSums front.now }
    requires greater_bounded { IsSmallSums back.now }
    requires whole { IsSmallSums whole.now }
    ensures { result ≡ true → IsLess front.now back.now whole.now amount }
{
    let parts = front.least_width() + back.least_width();
    if parts < whole.least_width() + i64::from(amount.get()) {
        return true;
    }
    false
}

/// Whether the line from a mark to a later one gets wider by less than an amount when it is divided at a mark between them. All lines are shrunk as
/// far as they can.
fn adds_less(from: &MeasuredBreak, place: &MeasuredBreak, to: &MeasuredBreak, amount: Dimen) -> bool
    requires from { IsSmallMark from.now }
    requires place { IsSmallMark place.now }
    requires to { IsSmallMark to.now }
    ensures { result ≡ true → IsLess (line_between from.now place.now) (line_between place.now to.now) (line_between from.now to.now) amount }
{
    is_less(
        &from.line_to(place),
        &place.line_to(to),
        &from.line_to(to),
        amount,
    )
}

/// Whether every line gets wider by less than an amount when it is divided at a place that it passes over, with all lines shrunk as far as they can.
/// Only the line from the start to the end needs to be tested: if it holds for that line, it holds for all.
pub fn is_divided(marks: &[MeasuredBreak], amount: Dimen) -> bool
    requires marks_bounded { AreSmallMarks marks.now }
    requires amount_positive { pos 0 <ℤ amount }
    ensures { (list : List Node) → marks.now ≡ marks_of list → IsSteady (facts_of list) → result ≡ true → IsDivided (facts_of list) amount }
{
    for next in 2..marks.len() {
        if !adds_less(&marks[0], &marks[next - 1], &marks[marks.len() - 1], amount) {
            return false;
        }
    }
    true
}
