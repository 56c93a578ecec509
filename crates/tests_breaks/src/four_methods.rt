//! A meter with the four methods that every meter has.

ghost use Rattle.std.specs.Prelude.{◌≡◌, ◌<◌, ◌≤◌, ℕ, length};
ghost use Rattle.node_core.specs.Nodes.{max_nodes};

use break_core::{Breakpoint, ListMeter, Meter, Sums};
use node_core::Node;
use std::alloc::Global;
use std::process::Abort;

/// The meter of a list without `is_divided` and `even`: it knows of the list what `place`, `steady` and single lines tell.
#[derive(Drop)]
pub(crate) struct FourMethods<'a> {
    pub(crate) inner: ListMeter<'a>,
    ghost has_legal_places: { 0 < (⟦<ListMeter<'static> as Meter>⟧.facts inner).places },
}

impl<'a> FourMethods<'a> {
    /// The meter of a finished list that can be broken, without trials.
    pub(crate) fn new(rt: &impl Abort, alloc: Global, nodes: &'a [Node]) -> FourMethods<'a>
        requires { length nodes.now ≤ max_nodes }
        ensures { (place : ℕ) → ⟦<FourMethods<'a> as Meter>⟧.trials result place ≡ 0 }
    {
        let inner = ListMeter::new(alloc, nodes).expect(rt, "not refused");
        assert!(rt; inner.places() > 0);
        FourMethods { inner }
    }
}

impl<'a> Meter for FourMethods<'a> {
    ghost facts = { λ m. ⟦<ListMeter<'a> as Meter>⟧.facts m.inner };

    ghost trials = { λ m from. ⟦<ListMeter<'a> as Meter>⟧.trials m.inner from };

    fn places(&self) -> usize {
        self.inner.places()
    }

    fn place(&self, number: usize) -> Breakpoint {
        self.inner.place(number)
    }

    fn steady(&self) -> bool {
        self.inner.steady()
    }

    fn try_line(&mut self, from: usize, to: usize) -> Sums {
        self.inner.try_line(from, to)
    }

    ghost has_places = { λ m. m.has_legal_places };
}
