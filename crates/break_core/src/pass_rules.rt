//! The rules of a pass: the lines that it admits, and when to stop trying lines from a place.

ghost use Rattle.std.specs.Prelude.{◌≡◌, true, false};
ghost use Rattle.break_lines.specs.Sizes.{least_width};
ghost use Rattle.break_lines.specs.SmallCosts.{IsSmallSums};
ghost use Rattle.break_core.specs.Private.LeftOut.{is_more};
ghost use Rattle.break_core.specs.Private.Active.{stops_after, leaves_out, most_admitted, wait_limit};

use crate::active_list::is_more;
use break_lines::{Bound, Sums};
use node_core::Params;

/// Which lines are tried in the passes over a paragraph: every line that passes over no forced break, or few. If few are tried, trying stops as early
/// as it can, and places wait.
#[derive(Clone, Copy, Debug, PartialEq, Eq)]
pub(crate) enum Trying {
    EveryLine,
    FewLines,
}

/// When to stop trying lines from a place, besides at forced breaks: never, after an overfull line, or after a long line. A long line passes over a
/// place to which it is overfull already, and has more overhang than there. It is in no chosen list, so it is left out.
#[derive(Clone, Copy, Debug, PartialEq, Eq)]
pub(crate) enum StopRule {
    Never,
    Overfull,
    Long,
}

/// The rules of a pass: the parameters, the lines that it admits, when to stop trying lines from a place, and whether places wait: no line is tried
/// from a place if it is known to cost what the loosest line costs, since the line from an earlier place is as loose already. Two numbers follow from
/// these, so that each trial reads a number only: `most` is the greatest badness of the lines that are admitted and not overfull, and places wait
/// after a stretched line with more badness than `loosest`.
#[derive(Drop)]
pub(crate) struct Rules<'a> {
    pub(crate) params: &'a Params,
    pub(crate) bound: Bound,
    pub(crate) stop_rule: StopRule,
    pub(crate) waits: bool,
    pub(crate) most: i64,
    pub(crate) loosest: i64,
    ghost admitted: { most ≡ most_admitted bound },
    ghost limited: { loosest ≡ wait_limit waits most },
}

/// The greatest badness of the lines that a bound admits and that are not overfull.
pub(crate) fn most_admitted(bound: &Bound) -> i64
    ensures { result ≡ most_admitted bound.now }
{
    match bound {
        Bound::Any => 10_000,
        Bound::AtMost(most) => i64::from(most.get()),
    }
}

/// The badness above which places wait after a stretched line, given the greatest badness that is admitted. No line has more than 10000.
pub(crate) fn wait_limit(waits: bool, most: i64) -> i64
    ensures { result ≡ wait_limit waits most }
{
    if !waits {
        return 10_000;
    }
    if most > 9_999 {
        return 9_999;
    }
    most
}

impl StopRule {
    /// Whether a line of this width, shrunk as far as possible, is left out.
    #[inline]
    pub(crate) fn leaves_out(self, over: Option<i64>, width: i64) -> bool
        ensures { result ≡ leaves_out self (is_more over width) }
    {
        match self {
            StopRule::Never | StopRule::Overfull => false,
            StopRule::Long => is_more(over, width),
        }
    }

    /// The same for a line with these sums, if only an overfull line is left out. The width is computed only for an overfull line.
    #[inline(always)]
    pub(crate) fn leaves_out_overfull(self, over: Option<i64>, overfull: bool, sums: &Sums) -> bool
        requires overfull { overfull ≡ false → leaves_out self (is_more over (least_width sums.now)) ≡ false }
        requires sums_bounded { IsSmallSums sums.now }
        ensures { result ≡ leaves_out self (is_more over (least_width sums.now)) }
    {
        if !overfull {
            return false;
        }
        self.leaves_out(over, sums.least_width())
    }

    /// Whether trying lines from a place stops after a line from there.
    #[inline]
    pub(crate) fn stops_after(self, overfull: bool, long: bool) -> bool
        ensures { result ≡ stops_after self overfull long }
    {
        match self {
            StopRule::Never => false,
            StopRule::Overfull => overfull,
            StopRule::Long => long,
        }
    }
    /// The same if only an overfull line is long.
    #[inline(always)]
    pub(crate) fn stops_after_overfull(self, overfull: bool, long: bool) -> bool
        requires { overfull ≡ false → long ≡ false }
        ensures { result ≡ stops_after self overfull long }
    {
        if !overfull {
            return false;
        }
        self.stops_after(overfull, long)
    }
}
