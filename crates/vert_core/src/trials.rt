//! The places where a vertical list can be split, and the one with the least cost (TeX: The Program, part 44, §970 to §976, vert_break).

ghost use Rattle.std.specs.Prelude.{◌≡◌, ◌≤◌, false, length, take};
ghost use Rattle.std.specs.List.{slice_get};
ghost use Rattle.std.specs.Option.{IfSome};
ghost use Rattle.node_core.specs.Nodes.{max_nodes};
ghost use Rattle.vert_core.specs.Places.{ends_before_break, is_box_or_rule, is_some_before_break, place_penalty, precedes_break};
ghost use Rattle.vert_core.specs.Costs.{cost, is_last};
ghost use Rattle.vert_core.specs.Split.{trial_at, split_place};
ghost use Rattle.vert_core.specs.Private.Steps.{cheaper_trial, IsOpen};
ghost use Rattle.pack_core.specs.ListTotals.{totals_of};

use crate::sums::{AWFUL, front_badness};
use node_core::{Kind, Node, SplitParams};
use pack_core::Totals;
use scaled_core::Dimen;

/// The penalty that forces a split (TeX: The Program, part 10, §157).
const EJECT: i32 = -10_000;

/// A place where a list can be split.
#[derive(Clone, Copy, Debug, PartialEq, Eq)]
pub struct Trial {
    /// The index of the item after the place, or the number of items for the end.
    pub place: usize,
    pub penalty: i32,
    /// How badly the items before it fill the height.
    pub badness: u32,
}

impl Trial {
    /// The cost of a split at this place.
    #[tactic(auto, unfolding(crate::specs::Costs::cost))]
    fn cost(&self) -> i64
        ensures { result ≡ cost self.now }
    {
        if self.badness == AWFUL {
            return i64::from(AWFUL);
        }
        if self.penalty <= EJECT {
            return i64::from(self.penalty);
        }
        if self.badness < 10_000 {
            return i64::from(self.badness) + i64::from(self.penalty);
        }
        100_000
    }

    /// Whether no later place is tried.
    #[tactic(auto, unfolding(crate::specs::Costs::is_last))]
    fn is_last(&self) -> bool
        ensures { result ≡ is_last self.now }
    {
        self.badness == AWFUL || self.penalty <= EJECT
    }
}

/// Whether an item is a box or a rule.
pub fn is_box_or_rule(node: &Node) -> bool
    ensures { result ≡ is_box_or_rule node.now }
{
    node.class().is_box_or_rule()
}

/// Whether glue after an item is a place where a split is allowed. Such items stay at the top of a rest.
pub fn precedes_break(node: &Node) -> bool
    ensures { result ≡ precedes_break node.now }
{
    node.class().precedes_break(Kind::Vertical)
}

/// Whether the last item precedes a break.
fn ends_before_break(nodes: &[Node]) -> bool
    ensures { result ≡ ends_before_break nodes.now }
{
    match nodes.last() {
        Some(node) => precedes_break(node),
        None => false,
    }
}

/// The penalty of the place between these items, if a split is allowed there.
#[tactic(auto, unfolding(crate::specs::Places::place_penalty))]
fn place_penalty(before: &[Node], after: &[Node]) -> Option<i32>
    ensures { result ≡ place_penalty before.now after.now }
{
    match after {
        [] => Some(EJECT),
        [Node::Glue(_), ..] if ends_before_break(before) => Some(0),
        [Node::Kern(_), Node::Glue(_), ..] => Some(0),
        [Node::Penalty(penalty), ..] if *penalty < 10_000 => Some(*penalty),
        _ => None,
    }
}

/// The trial of the place before item `place`, if a split is allowed there; the items before it have these totals.
fn trial_at(
    nodes: &[Node],
    place: usize,
    totals: &Totals,
    height: Dimen,
    params: &SplitParams,
) -> Option<Trial>
    requires place_bounded { place ≤ length nodes.now }
    requires list_bounded { length nodes.now ≤ max_nodes }
    requires passed { totals.now ≡ totals_of Kind.Vertical (take place nodes.now) }
    ensures value { result ≡ trial_at params.now height nodes.now place }
    ensures open { IfSome result (λ t. IsOpen nodes.now t.place) }
{
    match place_penalty(&nodes[..place], &nodes[place..]) {
        None => None,
        Some(penalty) => Some(Trial {
            place,
            penalty,
            badness: front_badness(height, totals, params),
        }),
    }
}

/// The trial to keep of the best one so far and a later one: the later one, unless the earlier one is cheaper.
fn cheaper(best: Option<Trial>, trial: Trial) -> Trial
    ensures { result ≡ cheaper_trial best trial }
{
    match best {
        Some(best) if best.cost() < trial.cost() => best,
        _ => trial,
    }
}

/// The place where a vertical list is split to this height: the index of the item after it, or the number of items for the end. Takes one walk over
/// the list. Does not allocate.
pub fn split_place(nodes: &[Node], height: Dimen, params: &SplitParams) -> usize
    requires list_bounded { length nodes.now ≤ max_nodes }
    ensures value { result ≡ split_place params.now height nodes.now }
    ensures place_bounded { result ≤ length nodes.now }
    // The item after the place, if there is one, is dropped.
    ensures dropped { is_some_before_break (slice_get nodes.now result) ≡ false }
{
    let mut totals = Totals::new(Kind::Vertical);
    let mut best = None;
    for place in 0..nodes.len() {
        if let Some(trial) = trial_at(nodes, place, &totals, height, params) {
            let kept = cheaper(best, trial);
            if trial.is_last() {
                return kept.place;
            }
            best = Some(kept);
        }
        totals.pass(&nodes[place]);
    }
    let end = Trial {
        place: nodes.len(),
        penalty: EJECT,
        badness: front_badness(height, &totals, params),
    };
    cheaper(best, end).place
}
