//! Sets of amounts. Most groups of a page have few amounts, so the first sixteen are in an array.

ghost use Rattle.std.specs.Prelude.{◌≡◌, ◌≤◌, ◌||◌, ℤ, false, not, take, IfOk, OnOk};

use std::alloc::{AllocError, Global};
use std::collections::BTreeSet;

/// A set of amounts of movements: the first `count` of the array, and those of the tree.
#[derive(Debug, Drop)]
pub struct AmountSet {
    pub first: [i32; 16],
    pub count: usize,
    pub others: BTreeSet<i32>,
    ghost count_bounded: { count ≤ 16 },
}

impl AmountSet {
    ghost use Rattle.std.specs.List.{list_any};
    ghost use Rattle.std.specs.Ordering.{int_eq};
    ghost use Rattle.move_core.specs.Private.Passes.{has_amount};

    /// An empty set.
    #[tactic(auto, unfolding(crate::specs::Private::Passes::has_amount))]
    pub fn new(alloc: Global) -> AmountSet
        ensures { (n : ℤ) → has_amount result n ≡ false }
    {
        AmountSet {
            first: [0; 16],
            count: 0,
            others: BTreeSet::new(alloc),
        }
    }

    /// Adds an amount that is not in the array, and returns whether it is new. This is rare, and apart it does not fill the pass over a page.
    #[tactic(auto, unfolding(crate::specs::Private::Passes::has_amount))]
    #[inline(never)]
    fn insert_after(&mut self, amount: i32) -> Result<bool, AllocError>
        requires { list_any (λ (m : ℤ). int_eq m amount) (take self.old.count self.old.first) ≡ false }
        ensures added { IfOk result (λ added. added ≡ not (has_amount self.old amount)) }
        ensures updates { OnOk result ((n : ℤ) → has_amount self.new n ≡ (int_eq amount n || has_amount self.old n)) }
    {
        if self.count < 16 {
            // The tree is empty while the array has space. A call that asks it is cheaper than an invariant that says so.
            let is_new = !self.others.contains(&amount);
            self.first[self.count] = amount;
            self.count += 1;
            return Ok(is_new);
        }
        Ok(self.others.insert(amount)?)
    }

    /// Whether an amount is in the array. Most amounts are among its first, so it is searched one by one.
    #[inline(always)]
    fn has_first(&self, amount: i32) -> bool
        ensures { result ≡ list_any (λ (m : ℤ). int_eq m amount) (take self.now.count self.now.first) }
    {
        self.first[..self.count]
            .iter()
            .any(|other| *other == amount)
    }

    /// Adds an amount, and returns whether it is new.
    #[tactic(auto, unfolding(crate::specs::Private::Passes::has_amount))]
    #[inline(always)]
    pub fn insert(&mut self, amount: i32) -> Result<bool, AllocError>
        ensures added { IfOk result (λ added. added ≡ not (has_amount self.old amount)) }
        ensures updates { OnOk result ((n : ℤ) → has_amount self.new n ≡ (int_eq amount n || has_amount self.old n)) }
    {
        if self.has_first(amount) {
            return Ok(false);
        }
        self.insert_after(amount)
    }
}
