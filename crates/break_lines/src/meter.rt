//! Meters: what the breaker knows about a paragraph.

ghost use Rattle.std.specs.Prelude.{◌≡◌, ◌≢◌, ◌+◌, ◌<◌, ◌≤◌, ◌^◌, ◌<ℤ◌, pos, ℕ, true};
ghost use Rattle.break_lines.specs.Problems.{max_places};
ghost use Rattle.break_lines.specs.Legal.{is_forced};
ghost use Rattle.break_lines.specs.Facts.{Facts};
ghost use Rattle.break_lines.specs.LineItems.{IsSmallSums};
ghost use Rattle.break_lines.specs.Steady.{IsSteady};
ghost use Rattle.break_lines.specs.Even.{IsEven};
ghost use Rattle.break_lines.specs.Divided.{IsDivided};

use crate::item_sums::Sums;
use scaled_core::Dimen;

/// A legal place: its position in the list, and the penalty of a break there.
#[derive(Clone, Copy, Debug, PartialEq, Eq)]
pub struct Breakpoint {
    pub position: usize,
    pub penalty: i32,
}

impl Breakpoint {
    /// Whether a break at the place is forced.
    #[inline]
    pub fn is_forced(self) -> bool
        ensures { result ≡ is_forced self.penalty }
    {
        self.penalty <= -10_000
    }
}

/// A paragraph that is measured line by line: its legal places, numbered from 1, and the sums over the items of the line from a place, or from the
/// start, which is 0, to a later place. Each trial of a line is counted at the place where the line begins.
pub trait Meter {
    /// The facts about the paragraph.
    ghost facts: { Self → Facts };

    /// The number of lines that were tried from a place.
    ghost trials: { Self → ℕ → ℕ };

    /// The number of legal places.
    fn places(&self) -> usize
        ensures count { result ≡ (facts self.now).places }
        ensures places_bounded { result ≤ max_places };

    /// The legal place with this number.
    fn place(&self, number: usize) -> Breakpoint
        requires first { 0 < number }
        requires last { number ≤ (facts self.now).places }
        ensures position { result.position ≡ (facts self.now).position number }
        ensures penalty { result.penalty ≡ (facts self.now).penalty number }
        ensures penalty_bounded { result.penalty <ℤ pos 10000 };

    /// Whether the paragraph is steady: no line gets narrower when it goes on to the next place, neither at its natural width nor when it shrinks as
    /// far as it can.
    fn steady(&self) -> bool
        ensures steady { result ≡ true → IsSteady (facts self.now) }
        ensures unsteady { IsSteady (facts self.now) → result ≡ true };

    /// The sums over the items of a line. Counts the trial.
    fn try_line(&mut self, from: usize, to: usize) -> Sums
        requires later { from < to }
        requires last { to ≤ (facts self.old).places }
        requires trials_bounded { trials self.old from < 2 ^ 40 }
        ensures sums { result ≡ (facts self.old).sums from to }
        ensures sums_bounded { IsSmallSums result }
        ensures facts { facts self.new ≡ facts self.old }
        ensures counted { trials self.new from ≡ trials self.old from + 1 }
        ensures others { (other : ℕ) → other ≢ from → trials self.new other ≡ trials self.old other };

    /// Whether it is known that every line of a steady paragraph gets wider by less than an amount when it is divided at a place that it passes over,
    /// with all lines shrunk as far as they can. A meter that does not know returns false, as this default does; then `active_breaks` only tries more
    /// lines.
    fn is_divided(&self, _amount: Dimen) -> bool
        requires steady { IsSteady (facts self.now) }
        requires amount_positive { pos 0 <ℤ _amount }
        ensures divided { result ≡ true → IsDivided (facts self.now) _amount }
    {
        false
    }

    /// Whether it is known that the paragraph is even: of two lines to a place, the one that begins earlier is at least as wide as the other one,
    /// and stretches at least as much in each order; and in no line is the stretch of an infinite order negative. A meter that does not know returns
    /// false, as this default does; then `active_breaks` only tries more lines.
    fn even(&self) -> bool
        ensures even { result ≡ true → IsEven (facts self.now) }
    {
        false
    }

    /// There is at least one legal place, the end.
    ghost has_places: { (m : Self) → 0 < (facts m).places };
}
