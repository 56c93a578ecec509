//! Whether no line gets narrower when it goes on to the next place.

ghost use Rattle.std.specs.Prelude.{◌≡◌, true, List};
ghost use Rattle.node_core.specs.declared.tree.Node.{Node};
ghost use Rattle.break_lines.specs.Facts.{facts_of};
ghost use Rattle.break_lines.specs.Private.Marks.{marks_of, RisesOn};
ghost use Rattle.break_lines.specs.LineItems.{IsSmallSums};
ghost use Rattle.break_lines.specs.Private.SmallMarks.{AreSmallMarks, IsSmallMark};
ghost use Rattle.break_lines.specs.Steady.{IsNoNarrower, IsSteady};

use crate::item_sums::Sums;
use crate::mark::MeasuredBreak;

/// Whether a line is at least as wide as another one, both at their natural widths and when they shrink as far as they can.
fn is_no_narrower(line: &Sums, than: &Sums) -> bool
    requires sums_bounded { IsSmallSums line.now }
    requires than { IsSmallSums than.now }
    ensures yes { result ≡ true → IsNoNarrower line.now than.now }
    ensures no { IsNoNarrower line.now than.now → result ≡ true }
{
    if line.width < than.width {
        return false;
    }
    if line.width - line.shrink < than.width - than.shrink {
        return false;
    }
    true
}

/// Whether the line from the start to a place gets no narrower when it goes on to the next place, nor that from the place directly before. Each line
/// that has begun gets wider by the same items, so only an empty one needs a test of its own.
fn is_rising(from: &MeasuredBreak, to: &MeasuredBreak, next: &MeasuredBreak) -> bool
    requires from { IsSmallMark from.now }
    requires to { IsSmallMark to.now }
    requires next { IsSmallMark next.now }
    ensures yes { result ≡ true → RisesOn from.now to.now next.now }
    ensures no { RisesOn from.now to.now next.now → result ≡ true }
{
    if !is_no_narrower(&to.from_position, &next.from_position) {
        return false;
    }
    if from.begin < to.position {
        return true;
    }
    is_no_narrower(&from.line_to(next), &Sums::ZERO)
}

/// Whether no line gets narrower when it goes on to the next place. Only the lines from the start and from the place directly before need to be
/// tested: they decide for all others, so one walk over the marks is exact.
pub fn is_steady(marks: &[MeasuredBreak]) -> bool
    requires marks_bounded { AreSmallMarks marks.now }
    ensures yes { (list : List Node) → marks.now ≡ marks_of list → result ≡ true → IsSteady (facts_of list) }
    ensures no { (list : List Node) → marks.now ≡ marks_of list → IsSteady (facts_of list) → result ≡ true }
{
    for next in 2..marks.len() {
        if !is_rising(&marks[next - 2], &marks[next - 1], &marks[next]) {
            return false;
        }
    }
    true
}
