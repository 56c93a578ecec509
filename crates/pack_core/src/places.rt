//! The places of the items of a packed box (after TeX: The Program, part 32, §625 and §634; the ratio is exact).

ghost use Rattle.std.specs.Prelude.{◌≡◌, ◌≤◌, ◌<◌, ◌+◌, ◌+ℤ◌, ◌^◌, ◌++◌, ◌∷◌, [], List, pos, length};
ghost use Rattle.scaled_core.specs.Dimensions.{Within};
ghost use Rattle.scaled_core.specs.Fractions.{round_times};
ghost use Rattle.node_core.specs.Nodes.{max_nodes, nodes_of};
ghost use Rattle.node_core.specs.declared.tree.Kind.{Kind};
ghost use Rattle.node_core.specs.declared.tree.Node.{Node};
ghost use Rattle.node_core.specs.declared.tree.Setting.{Setting};
ghost use Rattle.pack_core.specs.Items.{advance};
ghost use Rattle.pack_core.specs.Places.{place, place_in, share, set_by};
ghost use Rattle.pack_core.specs.Cursors.{sums_after, one_more, moved_on, place_at};

use crate::sizes::{advance_of, share_of};
use node_core::{BoxNode, Kind, Node, Setting};
use scaled_core::Ratio;
use std::marker::Model;

/// The state of a walk over the items of a box: the sums of the advances of the items passed and of their shares in the setting of the glue.
#[derive(Clone, Copy, Debug, PartialEq, Eq)]
pub struct Cursor {
    natural: i64,
    shares: i64,
    passed: u32,
}

impl Model for Cursor {
    ghost use Rattle.pack_core.specs.Cursors.{WalkSums};
    ghost use Rattle.pack_core.specs.Private.Cursors.{IsReachable};

    ghost Value = { WalkSums };

    ghost view = { λ c. record { natural = c.natural; shares = c.shares; passed = c.passed } };

    ghost invariant = { λ c. IsReachable c.natural c.shares c.passed };

    ghost inverse = { λ r. record { natural = r.natural; shares = r.shares; passed = r.passed } };
}

impl Cursor {
    /// The state before all items.
    #[tactic(auto, unfolding(crate::specs::Cursors::sums_after))]
    pub fn new() -> Cursor
        ensures value { result ≡ record { natural = pos 0; shares = pos 0; passed = 0 } }
        ensures reached { (kind : Kind) → (setting : Setting) → result ≡ sums_after kind setting [] }
    {
        Cursor {
            natural: 0,
            shares: 0,
            passed: 0,
        }
    }

    /// Passes an item of a list of this kind and setting; at most `MAX_NODES` items are passed.
    #[tactic(auto, using(crate::proofs::Walks::walks))]
    #[inline(always)]
    pub fn pass(&mut self, kind: Kind, setting: &Setting, node: &Node)
        requires { self.old.passed < max_nodes }
        ensures value { self.new ≡ one_more kind setting.now self.old node.now }
        ensures reached { (before : List Node) → self.old ≡ sums_after kind setting.now before
            → self.new ≡ sums_after kind setting.now (before ++ node.now ∷ []) }
    {
        self.natural += advance_of(kind, node);
        self.shares += share_of(setting, node);
        self.passed += 1;
    }

    /// Passes an item that advances by `distance` scaled points and has no share in the setting of the list, which holds for every item that is not
    /// glue; at most `MAX_NODES` items are passed.
    pub fn move_on(&mut self, distance: i64)
        requires items_bounded { self.old.passed < max_nodes }
        requires distance_bounded { Within (2 ^ 31) distance }
        ensures value { self.new ≡ moved_on self.old distance }
        ensures reached { (kind : Kind) → (setting : Setting) → (before : List Node) → (node : Node) → distance ≡ advance kind node
            → share setting node ≡ pos 0 →
            self.old ≡ sums_after kind setting before → self.new ≡ sums_after kind setting (before ++ node ∷ []) }
    {
        self.natural += distance;
        self.passed += 1;
    }

    /// Passes some items that advance by `distance` scaled points together and have no share in the setting of the list, such as glyphs. At most
    /// `MAX_NODES` items are passed.
    pub fn move_over(&mut self, distance: i64, items: u32)
        requires some { 0 < items }
        requires items_bounded { self.old.passed + items ≤ max_nodes }
        requires distance_bounded { Within (2 ^ 31) distance }
        ensures { self.new ≡ record { natural = self.old.natural +ℤ distance; shares = self.old.shares; passed = self.old.passed + items } }
    {
        self.natural += distance;
        self.passed += items;
    }

    /// The current place in a list of this setting, in scaled points from the beginning of the list. Each place is rounded once, from the exact sums,
    /// so a box is filled exactly.
    #[tactic(auto, unfolding(crate::specs::Cursors::sums_after, crate::specs::Places::place))]
    #[inline(always)]
    pub fn place(&self, setting: &Setting) -> i128
        ensures value { result ≡ place_at setting.now self.now }
        ensures value_bounded { Within (2 ^ 126 + 2 ^ 63) result }
        ensures reached { (kind : Kind) → (before : List Node) → self.now ≡ sums_after kind setting.now before
            → result ≡ place kind setting.now before }
    {
        i128::from(self.natural) + set_by(setting, self.shares)
    }
}

/// A ratio times a sum of shares, rounded. Nearly all products fit 64 bits, and that way is short enough to stand in its caller.
#[inline(always)]
fn times_shares(ratio: &Ratio, shares: i64) -> i128
    ensures value { result ≡ round_times ratio.now shares }
    ensures value_bounded { Within (2 ^ 126) result }
{
    match ratio.round_small(shares) {
        Some(rounded) => i128::from(rounded),
        None => ratio.round_times(shares),
    }
}

/// How much a setting adds to items with this sum of shares.
#[inline(always)]
fn set_by(setting: &Setting, shares: i64) -> i128
    ensures value { result ≡ set_by setting.now shares }
    ensures value_bounded { Within (2 ^ 126) result }
{
    match setting {
        Setting::Natural => 0,
        Setting::Stretch { ratio, .. } => times_shares(ratio, shares),
        Setting::Shrink { ratio, .. } => times_shares(ratio, shares),
    }
}

/// The place where item `i` of a box begins, in scaled points: to the right of the left edge of an hbox, or below the top of a vbox. `i` is at most
/// the number of items, and then the result is the place after the last one. Does not allocate.
#[tactic(auto, using(crate::proofs::Walks::walks))]
pub fn offset(b: &BoxNode, i: usize) -> i128
    requires { i ≤ length (nodes_of b.now.list) }
    ensures { result ≡ place_in b.now i }
{
    let mut cursor = Cursor::new();
    for node in &b.list.as_slice()[..i] {
        cursor.pass(b.kind, &b.setting, node);
    }
    cursor.place(&b.setting)
}
