//! The meter of a list of nodes.

ghost use Rattle.std.specs.Prelude.{◌≡◌, ◌+◌, ◌<◌, ◌≤◌, true, ℕ, None, get_or, length, IsSome, IfOk, IfErr, IfSome, OnOk, MatchOption};
ghost use Rattle.std.specs.Option.{unwrap_or};
ghost use Rattle.std.specs.Int.{sum_through};
ghost use Rattle.break_lines.specs.Facts.{facts_of, refusal};
ghost use Rattle.break_lines.specs.Steady.{IsSteady};
ghost use Rattle.break_lines.specs.Even.{IsEven};
ghost use Rattle.node_core.specs.Nodes.{max_nodes};
ghost use Rattle.break_lines.specs.Problems.{max_places};
ghost use Rattle.break_lines.specs.Legal.{legal_places};
ghost use Rattle.break_lines.specs.Spans.{AreSizesOf};
ghost use Rattle.break_lines.specs.LineItems.{IsSmallSums};
ghost use Rattle.break_lines.specs.Private.Marks.{marks_of};
ghost use Rattle.break_lines.specs.Private.SmallMarks.{AreSmallMarks};

use crate::dividing::is_divided;
use crate::even::is_even;
use crate::fault::BreakFault;
use crate::item_sums::Sums;
use crate::line_sizes::LineSizes;
use crate::list::{no_trials, refusal};
use crate::mark::MeasuredBreak;
use crate::meter::{Breakpoint, Meter};
use crate::steady::is_steady;
use crate::walk::{MarkedList, marks_of};
use node_core::Node;
use scaled_core::Dimen;
use std::alloc::{AllocError, Global};

/// The measures of a list of at most 131,072 nodes with at most 8,192 legal places: a mark for the start and for each place, whether the list is
/// steady, whether it is known to be even, and the number of lines that were tried from each place.
#[derive(Drop)]
pub struct ListMeter<'a> {
    pub(crate) nodes: &'a [Node],
    pub(crate) marks: Vec<MeasuredBreak>,
    pub(crate) steady: bool,
    pub(crate) even: bool,
    pub(crate) trials: Vec<u64>,
    ghost nodes_bounded: { length nodes.now ≤ max_nodes },
    ghost marked: { marks.items ≡ marks_of nodes.now },
    ghost has_legal_places: { 0 < length (legal_places nodes.now) },
    ghost marks_bounded: { length marks.items ≤ max_places + 1 },
    ghost mark_sums_bounded: { AreSmallMarks marks.items },
    ghost rises: { steady ≡ true → IsSteady (facts_of nodes.now) },
    ghost falls: { IsSteady (facts_of nodes.now) → steady ≡ true },
    ghost evens: { even ≡ true → IsEven (facts_of nodes.now) },
    ghost counted: { length trials.items ≡ length marks.items },
}

impl<'a> ListMeter<'a> {
    /// The meter of a list of nodes that is not too long, without trials, and what the sizes of its lines follow from; or `None` if the list is
    /// refused.
    fn of(
        alloc: Global,
        nodes: &'a [Node],
    ) -> Result<Option<(ListMeter<'a>, LineSizes)>, AllocError>
        requires list_bounded { length nodes.now ≤ max_nodes }
        ensures refused { IfOk result (λ found. MatchOption found (IsSome (refusal nodes.now)) (λ known. refusal nodes.now ≡ None)) }
        ensures nodes { IfOk result (λ found. IfSome found (λ known. known.0.nodes.now ≡ nodes.now)) }
        ensures trials { IfOk result (λ found. IfSome found (λ known. (place : ℕ) → get_or known.0.trials.items place 0 ≡ 0)) }
        ensures sizes { IfOk result (λ found. IfSome found (λ known. AreSizesOf nodes.now known.1)) }
    {
        let Some(marked) = marks_of(alloc, nodes)? else {
            return Ok(None);
        };
        let MarkedList {
            marks,
            stretch_grows,
            sizes,
            plain,
        } = marked;
        let trials = no_trials(alloc, marks.len())?;
        let steady = is_steady(&marks);
        let even = is_even(&marks, stretch_grows);
        let meter = ListMeter {
            nodes,
            marks,
            steady,
            even,
            trials,
        };
        let sizes = LineSizes {
            places: sizes,
            plain,
        };
        Ok(Some((meter, sizes)))
    }

    /// The meter of a finished list of at most 131,072 nodes, without trials. One walk measures it; the reason for a refusal is looked for only if
    /// there is one.
    ///
    /// `InfiniteShrink` is returned exactly when the list has glue that shrinks in an infinite order, `TooManyBreaks` exactly when it has no such
    /// glue but more than 8,192 legal places, and `OutOfMemory` only if an allocation is refused.
    pub fn new(alloc: Global, nodes: &'a [Node]) -> Result<ListMeter<'a>, BreakFault>
        requires list_bounded { length nodes.now ≤ max_nodes }
        ensures facts { IfOk result (λ meter. ⟦<ListMeter<'a> as Meter>⟧.facts meter ≡ facts_of nodes.now) }
        ensures trials { IfOk result (λ meter. (place : ℕ) → ⟦<ListMeter<'a> as Meter>⟧.trials meter place ≡ 0) }
        ensures fits { OnOk result (refusal nodes.now ≡ None) }
        ensures fault { IfErr result (λ fault. fault ≡ unwrap_or (refusal nodes.now) BreakFault.OutOfMemory) }
    {
        let (meter, _) = ListMeter::with_sizes(alloc, nodes)?;
        Ok(meter)
    }

    /// The meter of a finished list, as `new`, and what the sizes of its lines follow from: the walk that measures the list finds it too.
    pub fn with_sizes(
        alloc: Global,
        nodes: &'a [Node],
    ) -> Result<(ListMeter<'a>, LineSizes), BreakFault>
        requires list_bounded { length nodes.now ≤ max_nodes }
        ensures facts { IfOk result (λ known. ⟦<ListMeter<'a> as Meter>⟧.facts known.0 ≡ facts_of nodes.now) }
        ensures trials { IfOk result (λ known. (place : ℕ) → ⟦<ListMeter<'a> as Meter>⟧.trials known.0 place ≡ 0) }
        ensures sizes { IfOk result (λ known. AreSizesOf nodes.now known.1) }
        ensures fits { OnOk result (refusal nodes.now ≡ None) }
        ensures fault { IfErr result (λ fault. fault ≡ unwrap_or (refusal nodes.now) BreakFault.OutOfMemory) }
    {
        match ListMeter::of(alloc, nodes) {
            Ok(Some(known)) => Ok(known),
            _ => Err(refusal(nodes).unwrap_or(BreakFault::OutOfMemory)),
        }
    }

    /// The number of lines that were tried from a place, or from the start, which is 0.
    pub fn trials(&self, place: usize) -> u64
        ensures { result ≡ ⟦<ListMeter<'a> as Meter>⟧.trials self.now place }
    {
        match self.trials.get(place) {
            Some(trials) => *trials,
            None => 0,
        }
    }

    /// The sums over the items of a line, as `try_line`, but the line is not counted as a trial.
    pub fn sums_between(&self, from: usize, to: usize) -> Sums
        requires later { from < to }
        requires last { to ≤ (⟦<ListMeter<'a> as Meter>⟧.facts self.now).places }
        ensures sums { result ≡ (⟦<ListMeter<'a> as Meter>⟧.facts self.now).sums from to }
        ensures sums_bounded { IsSmallSums result }
    {
        self.marks[from].line_to(&self.marks[to])
    }

    /// The number of all lines that were tried.
    pub fn all_trials(&self) -> u128
        ensures { result ≡ sum_through (⟦<ListMeter<'a> as Meter>⟧.trials self.now) (⟦<ListMeter<'a> as Meter>⟧.facts self.now).places }
    {
        let mut all = u128::from(self.trials(0));
        for place in 0..self.marks.len() - 1 {
            all += u128::from(self.trials(place + 1));
        }
        all
    }
}

impl<'a> Meter for ListMeter<'a> {
    ghost facts = { λ m. facts_of m.nodes.now };

    ghost trials = { λ m from. get_or m.trials.items from 0 };

    #[inline]
    fn places(&self) -> usize {
        self.marks.len() - 1
    }

    #[inline]
    fn place(&self, number: usize) -> Breakpoint {
        let mark = &self.marks[number];
        Breakpoint {
            position: mark.position,
            penalty: mark.penalty,
        }
    }

    fn steady(&self) -> bool {
        self.steady
    }

    #[inline]
    fn try_line(&mut self, from: usize, to: usize) -> Sums {
        self.trials[from] += 1;
        self.marks[from].line_to(&self.marks[to])
    }

    fn even(&self) -> bool {
        self.even
    }

    fn is_divided(&self, amount: Dimen) -> bool {
        is_divided(&self.marks, amount)
    }

    ghost has_places = { λ m. m.has_legal_places };
}
