//! A paragraph is broken into lines.

use break_core::{Breaks, ListMeter, active_breaks};
use node_core::{Node, Params};
use std::alloc::Global;

/// The breaks of a finished list, and how many lines were tried for them. None if it is too long or cannot be broken, or if memory is refused.
pub fn count_breaks(alloc: Global, nodes: &[Node], params: &Params) -> Option<(Breaks, u128)> {
    if nodes.len() > 131_072 {
        return None;
    }
    let mut meter = ListMeter::new(alloc, nodes).ok()?;
    let breaks = active_breaks(alloc, &mut meter, params).ok()?;
    Some((breaks, meter.all_trials()))
}
