//! How badly the items that were passed fill a height.

ghost use Rattle.std.specs.Prelude.{◌≡◌, ◌≤◌, ◌^◌, ◌≤ℤ◌, List, pos};
ghost use Rattle.scaled_core.specs.Dimensions.{Within};
ghost use Rattle.node_core.specs.Nodes.{max_nodes};
ghost use Rattle.node_core.specs.declared.tree.Node.{Node};
ghost use Rattle.pack_core.specs.ListTotals.{totals_of};
ghost use Rattle.vert_core.specs.Costs.{stretching_badness, shrinking_badness, badness_to, front_badness};
ghost use Rattle.vert_core.specs.Private.Walks.{amounts_by, natural_at};

use node_core::{Kind, SplitParams};
use pack_core::{OrderAmounts, Totals};
use scaled_core::{Dimen, badness};

/// The badness of a front that is too high and cannot shrink enough (TeX: The Program, part 38, §833).
pub const AWFUL: u32 = 1_073_741_823;

/// The natural height of the items that were passed, in a vbox with a depth of at most the limit.
#[tactic(auto, unfolding(crate::specs::Private::Walks::natural_at))]
fn natural(limit: Dimen, totals: &Totals) -> i64
    requires { totals.now.passed ≤ max_nodes }
    ensures value { result ≡ natural_at limit totals.now }
    ensures value_bounded { Within (2 ^ 49) result }
{
    let hanging = totals.pending_depth().min(limit);
    totals.advance() as i64 - i64::from(hanging.get())
}

/// The badness of stretching glue with these totals by an amount.
#[tactic(auto, unfolding(crate::specs::Costs::stretching_badness))]
fn stretching_badness(amount: i64, stretch: &OrderAmounts) -> u32
    requires positive { pos 0 ≤ℤ amount }
    requires stretch_bounded { Within (2 ^ 48) stretch.now.normal }
    ensures { result ≡ stretching_badness amount (amounts_by stretch.now) }
{
    if stretch.fil != 0 {
        return 0;
    }
    if stretch.fill != 0 {
        return 0;
    }
    if stretch.filll != 0 {
        return 0;
    }
    badness(amount, stretch.normal as i64)
}

/// The badness of shrinking glue by an amount, if its total shrink is `shrink`.
#[tactic(auto, unfolding(crate::specs::Costs::shrinking_badness))]
fn shrinking_badness(amount: i64, shrink: i64) -> u32
    requires { pos 0 ≤ℤ amount }
    ensures { result ≡ shrinking_badness amount shrink }
{
    if shrink < amount {
        return AWFUL;
    }
    badness(amount, shrink)
}

/// The badness of setting items of this natural height, whose glue has these totals, to the height `goal`.
#[tactic(auto, unfolding(crate::specs::Costs::badness_to))]
fn badness_to(goal: Dimen, natural: i64, stretch: &OrderAmounts, shrink: i64) -> u32
    requires natural { Within (2 ^ 49) natural }
    requires stretch_bounded { Within (2 ^ 48) stretch.now.normal }
    ensures { result ≡ badness_to goal natural (amounts_by stretch.now) shrink }
{
    let goal = i64::from(goal.get());
    if natural < goal {
        return stretching_badness(goal - natural, stretch);
    }
    shrinking_badness(natural - goal, shrink)
}

/// The badness of the items that were passed as the front of a split.
pub fn front_badness(goal: Dimen, totals: &Totals, params: &SplitParams) -> u32
    requires { totals.now.passed ≤ max_nodes }
    ensures { (front : List Node) → totals.now ≡ totals_of Kind.Vertical front → result ≡ front_badness params.now goal front }
{
    let natural = natural(params.split_max_depth, totals);
    badness_to(
        goal,
        natural,
        &totals.stretch(),
        totals.shrink().normal as i64,
    )
}
