//! Whether a line gets no wider, and stretches no more, when it begins at a later place.

ghost use Rattle.std.specs.Prelude.{◌≡◌, true, false, List};
ghost use Rattle.std.specs.List.{list_any};
ghost use Rattle.node_core.specs.declared.tree.Node.{Node};
ghost use Rattle.break_lines.specs.Facts.{facts_of};
ghost use Rattle.break_lines.specs.Private.Marks.{marks_of, GoesOnEvenly, GoesOnInWidth, has_negative_stretch};
ghost use Rattle.break_lines.specs.Private.SmallMarks.{AreSmallMarks, IsPrefix, IsSmallMark};
ghost use Rattle.node_core.specs.Nodes.{max_nodes};
ghost use Rattle.break_lines.specs.Even.{Covers, IsEven};

use crate::item_sums::Sums;
use crate::mark::MeasuredBreak;

/// Whether some sums are at least as great as others, in the width and in the stretch of each order.
fn covers(whole: &Sums, part: &Sums) -> bool
    requires whole { IsPrefix max_nodes whole.now }
    requires part { IsPrefix max_nodes part.now }
    ensures { result ≡ true → Covers whole.now part.now }
{
    if whole.width < part.width {
        return false;
    }
    if whole.stretch < part.stretch {
        return false;
    }
    if whole.fil < part.fil {
        return false;
    }
    if whole.fill < part.fill {
        return false;
    }
    if whole.filll < part.filll {
        return false;
    }
    true
}

/// Whether the items from a place to the next one are not negative together, in their width and in their stretch of each order: those that are
/// dropped after the place, and those of the line to the next one.
fn goes_on_evenly(here: &MeasuredBreak, next: &MeasuredBreak) -> bool
    requires here { IsSmallMark here.now }
    requires next { IsSmallMark next.now }
    ensures { result ≡ true → GoesOnEvenly here.now next.now }
{
    if !covers(&here.from_position, &here.from_begin) {
        return false;
    }
    if here.begin <= next.position {
        return covers(&here.from_begin, &next.from_position);
    }
    covers(&here.from_position, &next.from_position)
}

/// Whether the items from a place to the next one are not negative together in their width, as in `goes_on_evenly`.
fn goes_on_in_width(here: &MeasuredBreak, next: &MeasuredBreak) -> bool
    ensures { result ≡ true → GoesOnInWidth here.now next.now }
{
    if here.from_position.width < here.from_begin.width {
        return false;
    }
    if here.begin <= next.position {
        return here.from_begin.width >= next.from_position.width;
    }
    here.from_position.width >= next.from_position.width
}

/// Whether the items from a place to the next one are not negative together. Where the stretch of all glue is known not to be negative, only widths
/// are compared.
fn goes_on(here: &MeasuredBreak, next: &MeasuredBreak, stretch_grows: bool) -> bool
    requires here { IsSmallMark here.now }
    requires next { IsSmallMark next.now }
    ensures all { result ≡ true → stretch_grows ≡ false → GoesOnEvenly here.now next.now }
    ensures width { result ≡ true → stretch_grows ≡ true → GoesOnInWidth here.now next.now }
{
    if stretch_grows {
        return goes_on_in_width(here, next);
    }
    goes_on_evenly(here, next)
}

/// Whether it is found that of two lines to a place the one that begins earlier is at least as wide as the other one and stretches at least as much.
/// The items from each place to the next one are tested, and they add up. Letters and kerns between two places count together, so kerns in a word
/// may be negative. `stretch_grows` says that no glue has negative stretch.
pub fn is_even(marks: &[MeasuredBreak], stretch_grows: bool) -> bool
    requires marks_bounded { AreSmallMarks marks.now }
    ensures { (list : List Node) → marks.now ≡ marks_of list → (stretch_grows ≡ true → list_any has_negative_stretch list ≡ false) →
        result ≡ true → IsEven (facts_of list) }
{
    for next in 1..marks.len() {
        if !goes_on(&marks[next - 1], &marks[next], stretch_grows) {
            return false;
        }
    }
    true
}
