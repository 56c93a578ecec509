//! The cost of a line.

ghost use Rattle.std.specs.Prelude.{◌≡◌, ◌≤◌, ◌<ℤ◌, ◌≤ℤ◌, ◌*ℤ◌, ◌+ℤ◌, ◌+◌, ◌^◌, pos, IfSome};
ghost use Rattle.scaled_core.specs.Dimensions.{Within};
ghost use Rattle.break_lines.specs.Tables.{IsSmallLine};
ghost use Rattle.break_lines.specs.Costs.{stretched_class, shrunk_class, stretches_forever, fit_short, fit_long, line_fit, is_loose, looseness_limit};
ghost use Rattle.break_lines.specs.Costs.{is_loosest, base_demerits, penalty_demerits, is_apart, adjacent_demerits, admits, line_alone, line_after};
ghost use Rattle.break_lines.specs.Costs.{after_class};
ghost use Rattle.break_lines.specs.SmallCosts.{IsSmallSums, IsSmallLineFit, IsSmallAlone};

use crate::sums::Sums;
use crate::{Fitness, LineCost};
use node_core::{IntParameter, Params};
use scaled_core::{Dimen, badness};

/// How a line is set: whether it is overfull, its badness, its fitness class, and its overhang in scaled points.
#[derive(Clone, Copy, Debug, PartialEq, Eq)]
pub struct LineFit {
    pub overfull: bool,
    pub badness: u32,
    pub class: Fitness,
    pub overhang: i64,
}

/// Which lines a pass admits.
#[derive(Clone, Copy, Debug, PartialEq, Eq)]
pub enum Bound {
    /// Every line.
    Any,
    /// Lines that are not overfull and whose badness is at most this number.
    AtMost(IntParameter),
}

impl LineFit {
    /// A line that is stretched as badly as can be.
    pub const LOOSEST: LineFit = LineFit {
        overfull: false,
        badness: 10_000,
        class: Fitness::VeryLoose,
        overhang: 0,
    };
}

/// The class of a stretched line, by its badness.
#[tactic(auto, unfolding(crate::specs::Costs::stretched_class))]
#[inline]
fn stretched_class(badness: u32) -> Fitness
    ensures { result ≡ stretched_class badness }
{
    if badness > 99 {
        return Fitness::VeryLoose;
    }
    if badness > 12 {
        return Fitness::Loose;
    }
    Fitness::Decent
}

/// The class of a shrunk line, by its badness.
#[tactic(auto, unfolding(crate::specs::Costs::shrunk_class))]
#[inline]
fn shrunk_class(badness: u32) -> Fitness
    ensures { result ≡ shrunk_class badness }
{
    if badness > 12 {
        return Fitness::Tight;
    }
    Fitness::Decent
}

/// Whether the total stretch of an infinite order is not 0.
#[tactic(auto, unfolding(crate::specs::Costs::stretches_forever))]
#[inline]
fn stretches_forever(sums: &Sums) -> bool
    ensures { result ≡ stretches_forever sums.now }
{
    if sums.fil != 0 {
        return true;
    }
    if sums.fill != 0 {
        return true;
    }
    sums.filll != 0
}

/// How a line is set that is too short by an amount.
#[tactic(auto, unfolding(crate::specs::Costs::fit_short))]
#[inline]
fn fit_short(sums: &Sums, amount: i64) -> LineFit
    requires amount_positive { pos 0 <ℤ amount }
    requires amount_bounded { Within (2 ^ 50) amount }
    requires sums { IsSmallSums sums.now }
    ensures value { result ≡ fit_short sums.now amount }
    ensures fit_bounded { IsSmallLineFit result }
{
    if stretches_forever(sums) {
        return LineFit {
            overfull: false,
            badness: 0,
            class: Fitness::Decent,
            overhang: 0,
        };
    }
    let badness = badness(amount, sums.stretch);
    LineFit {
        overfull: false,
        badness,
        class: stretched_class(badness),
        overhang: 0,
    }
}

/// How a line is set that is too long by an amount, or fits.
#[tactic(auto, unfolding(crate::specs::Costs::fit_long))]
#[inline]
fn fit_long(sums: &Sums, amount: i64) -> LineFit
    requires amount_not_negative { pos 0 ≤ℤ amount }
    requires amount_bounded { Within (2 ^ 49 + 2 ^ 31) amount }
    requires sums { IsSmallSums sums.now }
    ensures value { result ≡ fit_long sums.now amount }
    ensures fit_bounded { IsSmallLineFit result }
{
    if amount > sums.shrink {
        return LineFit {
            overfull: true,
            badness: 10_000,
            class: Fitness::Tight,
            overhang: amount - sums.shrink,
        };
    }
    let badness = badness(amount, sums.shrink);
    LineFit {
        overfull: false,
        badness,
        class: shrunk_class(badness),
        overhang: 0,
    }
}

/// How a line of this size is set whose items have these sums.
#[tactic(auto, unfolding(crate::specs::Costs::line_fit))]
#[inline(always)]
pub fn fit_line(sums: &Sums, size: Dimen) -> LineFit
    requires sums_bounded { IsSmallSums sums.now }
    ensures value { result ≡ line_fit sums.now size }
    ensures fit_bounded { IsSmallLineFit result }
{
    let shortfall = i64::from(size.get()) - sums.width;
    if shortfall > 0 {
        return fit_short(sums, shortfall);
    }
    fit_long(sums, -shortfall)
}

/// The demerits of a line for its badness. They are at most 100,000,000, as for badness 10000 with linepenalty 0.
#[tactic(auto, unfolding(crate::specs::Costs::base_demerits))]
#[inline]
fn base_demerits(params: &Params, badness: u32) -> i64
    requires { badness ≤ 10000 }
    ensures value { result ≡ base_demerits params.now badness }
    ensures value_bounded { Within 100000000 result }
{
    let cost = i64::from(params.line_penalty.get()) + i64::from(badness);
    if cost >= 10_000 {
        return 100_000_000;
    }
    if cost <= -10_000 {
        return 100_000_000;
    }
    cost * cost
}

/// The demerits of a break for its penalty, which is below 10000.
#[tactic(auto, unfolding(crate::specs::Costs::penalty_demerits))]
#[inline]
fn penalty_demerits(penalty: i32) -> i64
    requires { penalty <ℤ pos 10000 }
    ensures value { result ≡ penalty_demerits penalty }
    ensures value_bounded { Within 100000000 result }
{
    let penalty = i64::from(penalty);
    if penalty > 0 {
        return penalty * penalty;
    }
    if penalty > -10_000 {
        return -(penalty * penalty);
    }
    0
}

/// Whether two classes are visually incompatible.
#[tactic(auto, unfolding(crate::specs::Costs::is_apart))]
#[inline]
fn is_apart(before: Fitness, class: Fitness) -> bool
    ensures { result ≡ is_apart before class }
{
    if before.class_index() + 1 < class.class_index() {
        return true;
    }
    class.class_index() + 1 < before.class_index()
}

/// The demerits for a line whose class is visually incompatible with that of the line before.
#[tactic(auto, unfolding(crate::specs::Costs::adjacent_demerits))]
#[inline(always)]
pub(crate) fn adjacent_demerits(params: &Params, before: Fitness, class: Fitness) -> i64
    ensures value { result ≡ adjacent_demerits params.now before class }
    ensures value_bounded { Within 500000000 result }
{
    if is_apart(before, class) {
        return i64::from(params.adj_demerits.get());
    }
    0
}

/// Whether a bound admits a line.
#[tactic(auto, unfolding(crate::specs::Costs::admits))]
#[inline]
fn admits(bound: &Bound, line: &LineFit) -> bool
    requires { IsSmallLineFit line.now }
    ensures { result ≡ admits bound.now line.now }
{
    match bound {
        Bound::Any => true,
        Bound::AtMost(most) => {
            if line.overfull {
                return false;
            }
            i64::from(line.badness) <= i64::from(most.get())
        }
    }
}

/// Whether lines of a class are stretched by more than a badness of 12.
#[tactic(auto, unfolding(crate::specs::Costs::is_loose))]
#[inline]
fn is_loose(class: Fitness) -> bool
    ensures { result ≡ is_loose class }
{
    match class {
        Fitness::VeryLoose => true,
        Fitness::Loose => true,
        Fitness::Decent => false,
        Fitness::Tight => false,
    }
}

/// A badness above which all stretched lines cost the same in a pass with a bound: the bound, since none of them is admitted, and at most 9999, since
/// all of them have badness 10000.
#[tactic(auto, unfolding(crate::specs::Costs::looseness_limit))]
#[inline]
fn looseness_limit(bound: &Bound) -> i64
    ensures { result ≡ looseness_limit bound.now }
{
    match bound {
        Bound::Any => 9_999,
        Bound::AtMost(most) => {
            if i64::from(most.get()) > 9_999 {
                return 9_999;
            }
            i64::from(most.get())
        }
    }
}

/// Whether a line is stretched by so much that a line that is stretched by more costs the same in a pass with this bound. A line with badness up to
/// 12 never counts as one, since its class does not tell whether it is stretched.
#[tactic(auto, unfolding(crate::specs::Costs::is_loosest))]
#[inline(always)]
pub fn is_loosest(bound: &Bound, line: &LineFit) -> bool
    ensures { result ≡ is_loosest bound.now line.now }
{
    if !is_loose(line.class) {
        return false;
    }
    looseness_limit(bound) < i64::from(line.badness)
}

/// The demerits of a line that ends at a penalty, without those for the class of the line before it.
#[inline]
fn alone_demerits(params: &Params, penalty: i32, badness: u32) -> i64
    requires badness { badness ≤ 10000 }
    requires penalty { penalty <ℤ pos 10000 }
    ensures value { result ≡ base_demerits params.now badness +ℤ penalty_demerits penalty }
    ensures value_bounded { Within 200000000 result }
{
    let base = base_demerits(params, badness);
    base + penalty_demerits(penalty)
}

/// The line that ends at a penalty, if the bound admits it, without the demerits for the class of the line before it.
#[tactic(auto, unfolding(crate::specs::Costs::line_alone))]
#[inline]
pub fn line_alone(params: &Params, bound: &Bound, penalty: i32, line: &LineFit) -> Option<LineCost>
    requires penalty { penalty <ℤ pos 10000 }
    requires fit_bounded { IsSmallLineFit line.now }
    ensures value { result ≡ line_alone params.now bound.now penalty line.now }
    ensures costs_bounded { IfSome result IsSmallAlone }
{
    if !admits(bound, line) {
        return None;
    }
    Some(LineCost {
        class: line.class,
        overhang: line.overhang,
        demerits: alone_demerits(params, penalty, line.badness),
    })
}

/// The line after a line of this class, given the line without the demerits for that class.
#[inline]
pub fn line_after(params: &Params, before: Fitness, alone: &LineCost) -> LineCost
    requires { IsSmallAlone alone.now }
    ensures value { result ≡ line_after params.now before alone.now }
    ensures line_bounded { IsSmallLine result }
{
    LineCost {
        class: alone.class,
        overhang: alone.overhang,
        demerits: alone.demerits + adjacent_demerits(params, before, alone.class),
    }
}

/// The line after a line of this class, if it is admitted.
#[tactic(auto, unfolding(crate::specs::Costs::after_class))]
pub(crate) fn after_class(
    params: &Params,
    before: Fitness,
    line: Option<LineCost>,
) -> Option<LineCost>
    requires costs_bounded { IfSome line IsSmallAlone }
    ensures value { result ≡ after_class params.now before line }
    ensures line_bounded { IfSome result IsSmallLine }
{
    let Some(alone) = line else {
        return None;
    };
    Some(line_after(params, before, &alone))
}
