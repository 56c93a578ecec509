//! The measures of the ends of a vertical list, which are found at its first split and serve all later splits of its rest.

ghost use Rattle.std.specs.Prelude.{◌≡◌, ◌≤◌, IfOk, List, drop, length};
ghost use Rattle.std.specs.Option.{IfSome};
ghost use Rattle.node_core.specs.Nodes.{max_nodes};
ghost use Rattle.node_core.specs.declared.tree.Node.{Node};
ghost use Rattle.pack_core.specs.Tails.{IsTail};
ghost use Rattle.vert_core.specs.Tails.{last_items, AreTails, MeasureEnds};

use node_core::Node;
use pack_core::Tail;
use std::alloc::{AllocError, Global};

/// The number of items from one end that is measured to the next. A split walks over fewer items of the rest than this.
const SPAN: usize = 32;

/// The measures of the ends of a vertical list, so that a split need not look at what stays below it.
#[derive(Debug, Drop)]
pub struct Tails {
    /// The measures of the last 32 items, of the last 64, and so on.
    pub(crate) entries: Vec<Tail>,
}

impl Tails {
    /// The tails of a list that has these nodes below its first one. There is one allocation.
    pub(crate) fn of(alloc: Global, nodes: &[Node]) -> Result<Tails, AllocError>
        requires { length nodes.now ≤ max_nodes }
        ensures { IfOk result (λ tails. MeasureEnds tails.entries.items nodes.now) }
    {
        let count = nodes.len() / SPAN;
        let mut entries = Vec::with_capacity(alloc, count)?;
        let mut tail = Tail::new();
        for span in 0..count {
            let end = nodes.len() - span * SPAN;
            tail = tail.preceded_by(&nodes[end - SPAN..end]);
            entries.push(tail)?;
        }
        Ok(Tails { entries })
    }
}

/// The entries of a list, if its tails are known, and otherwise none.
pub(crate) fn entries_of(tails: &Option<Tails>) -> &[Tail]
    ensures { (items : List Node) → IfSome tails.now (λ known. AreTails known items) → MeasureEnds result.now (drop 1 items) }
{
    match tails {
        Some(tails) => &tails.entries,
        None => &[],
    }
}

/// The last items of a list, whose measures are known.
#[derive(Clone, Copy, Debug, PartialEq, Eq)]
pub(crate) struct KnownEnd {
    /// The number of these items.
    pub(crate) count: usize,
    pub(crate) tail: Tail,
}

/// The longest end of these nodes whose measures are among the entries. Without such an entry it has no items.
pub(crate) fn known_end(entries: &[Tail], nodes: &[Node]) -> KnownEnd
    requires { MeasureEnds entries.now nodes.now }
    ensures within { result.count ≤ length nodes.now }
    ensures measures { IsTail (last_items result.count nodes.now) result.tail }
{
    let spans = (nodes.len() / SPAN).min(entries.len());
    if spans == 0 {
        return KnownEnd {
            count: 0,
            tail: Tail::new(),
        };
    }
    KnownEnd {
        count: spans * SPAN,
        tail: entries[spans - 1],
    }
}
