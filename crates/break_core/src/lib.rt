//! Line breaking, the half over `break_lines` (one idea, cut for the prover): the list of breaks with the least cost.
//!
//! There are up to three passes over a paragraph that a meter measures, and each fills the table of the best lists of breaks place by place. The
//! chosen list is the best one in the first pass that admits a list. Lines are tried from the places of an active list. For `breaks`, trying lines
//! from a place stops only at a forced break, so all pairs of places between forced breaks are tried. For `active_breaks`, in a steady paragraph it
//! also stops after an overfull line, if the pass does not admit overfull lines, and in the last pass after a long line. A long line passes over a
//! place to which it is overfull and has more overhang than there; it is in no chosen list, so it is left out. So the number of trials is bounded for
//! each place. In an even paragraph places wait: no line is tried from them that is known to cost what the loosest line costs, since the line from an
//! earlier place is as loose already.
//! `break_lines` measures lists; `vert_core` uses this crate and builds the boxes of the lines.
#![tactic(auto)]

mod active_list;
mod breaking;
mod broken;
mod counted;
mod filling;
pub mod laws;
mod neighbours;
mod offering;
mod pass_rules;
mod passes;
mod row;

pub use break_lines::{Bound, BreakFault, Breakpoint, Fitness, ListMeter, Meter, Sums};
pub use breaking::{active_breaks, breaks};
pub use broken::{Breaks, LineEnd, Pass};
