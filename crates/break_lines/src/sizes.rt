//! The widths of lines.

ghost use Rattle.std.specs.Prelude.{◌≡◌, ◌<ℤ◌, ◌&&◌, true, pos, nat_lt, IfSome, None, if◌then◌else◌};
ghost use Rattle.break_lines.specs.Tables.{IsSmallLine};
ghost use Rattle.break_lines.specs.Costs.{line_fit, line_alone, after_class};
ghost use Rattle.break_lines.specs.SmallCosts.{IsSmallSums, IsSmallAlone};
ghost use Rattle.break_lines.specs.Sizes.{line_size, greatest_size, fits_of_sums, IsSmallLineFits, IsSmallCosts};

use crate::cost::{Bound, LineFit, after_class, fit_line, line_alone};
use crate::sums::Sums;
use crate::{BreakState, LineCost};
use node_core::Params;
use scaled_core::Dimen;

/// How a line is set as one of the first lines of a paragraph, and as a line after them.
#[derive(Clone, Copy, Debug, PartialEq, Eq)]
pub struct LineFits {
    pub first: LineFit,
    pub rest: LineFit,
}

/// The width of a line after this number of lines.
#[tactic(auto, unfolding(crate::specs::Sizes::line_size))]
pub fn line_size(params: &Params, lines: usize) -> Dimen
    ensures { result ≡ line_size params.now lines }
{
    if lines < params.first_lines.get() {
        return params.first_size;
    }
    params.hsize
}

/// How a line is set whose items have these sums. If there are no first lines, it is judged only once.
#[tactic(auto, unfolding(crate::specs::Sizes::fits_of_sums, crate::specs::Sizes::line_size))]
pub fn fit_both(sums: &Sums, params: &Params) -> LineFits
    requires sums_bounded { IsSmallSums sums.now }
    ensures value { result ≡ fits_of_sums params.now sums.now }
    ensures fit_bounded { IsSmallLineFits result }
{
    let rest = fit_line(sums, params.hsize);
    if params.first_lines.get() == 0 {
        return LineFits { first: rest, rest };
    }
    LineFits {
        first: fit_line(sums, params.first_size),
        rest,
    }
}

impl LineFits {
    /// The cost of the line up to a break with this penalty, without the demerits for the class of the line before it. It is computed once for all
    /// numbers of lines and all classes before the line.
    pub fn alone(&self, params: &Params, bound: &Bound, penalty: i32) -> Alone
        requires penalty { penalty <ℤ pos 10000 }
        requires fit_bounded { IsSmallLineFits self.now }
        ensures first { result.first ≡ line_alone params.now bound.now penalty (if nat_lt 0 params.now.first_lines then self.now.first
            else self.now.rest) }
        ensures later_lines { result.rest ≡ line_alone params.now bound.now penalty self.now.rest }
        ensures costs_bounded { IsSmallCosts result }
    {
        let rest = line_alone(params, bound, penalty, &self.rest);
        if params.first_lines.get() == 0 {
            return Alone { first: rest, rest };
        }
        Alone {
            first: line_alone(params, bound, penalty, &self.first),
            rest,
        }
    }

    /// Whether the line is overfull after any number of lines.
    pub fn is_overfull(&self) -> bool
        ensures { result ≡ (self.now.first.overfull && self.now.rest.overfull) }
    {
        self.first.overfull && self.rest.overfull
    }
}

/// The cost of a line, if it is admitted, without the demerits for the class of the line before it: as one of the first lines of a paragraph, and as
/// a line after them.
#[derive(Clone, Copy, Debug, PartialEq, Eq)]
pub struct Alone {
    pub first: Option<LineCost>,
    pub rest: Option<LineCost>,
}

impl Alone {
    /// Whether the line is not admitted after any number of lines.
    pub fn is_none(&self) -> bool
        ensures never_admitted { result ≡ true → (self.now.first ≡ None) × (self.now.rest ≡ None) }
        ensures otherwise_admitted { self.now.first ≡ None → self.now.rest ≡ None → result ≡ true }
    {
        self.first.is_none() && self.rest.is_none()
    }

    /// The line after another one, if it is admitted.
    pub fn after(&self, params: &Params, before: BreakState) -> Option<LineCost>
        requires { IsSmallCosts self.now }
        ensures value { result ≡ after_class params.now before.class (if nat_lt before.lines params.now.first_lines then self.now.first
            else self.now.rest) }
        ensures line_bounded { IfSome result IsSmallLine }
    {
        if usize::from(before.lines) < params.first_lines.get() {
            return after_class(params, before.class, self.first);
        }
        after_class(params, before.class, self.rest)
    }
}
