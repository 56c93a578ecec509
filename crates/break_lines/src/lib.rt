//! Line breaking, cut in two for the prover: where a list may be broken, what a line keeps and costs, and the table of the best lists of breaks.
//! `break_core` has the passes.
//!
//! A meter gives the legal breakpoints of a finished list, the penalty of a break at each, and the sums over the items that a line keeps, and it
//! counts the trials. `ListMeter` measures a list once, by one walk, and refuses one that cannot be broken. From the sums of a line follow its
//! badness, its fitness class, how far it hangs over, and its demerits after another line.
//!
//! The table knows no nodes. A paragraph is given by its legal places, those at which a break is forced, and the line from each place to each later
//! one, if a pass admits it. The chosen list of breaks is the least one in a lexicographic order: by overhang, then demerits, then the ends of the
//! lines from the last one on. The table holds the best way to each state at a place. A state is the place, the number of lines up to it, as far as
//! lines are counted, and the fitness class of the last line.
#![tactic(auto)]

pub mod answer;
mod cost;
mod dividing;
pub mod entry;
mod even;
mod fault;
pub mod group;
mod heights;
mod item_sums;
pub mod laws;
mod line_sizes;
mod list;
mod list_meter;
mod mark;
mod meter;
mod row;
mod sizes;
pub mod state;
mod steady;
mod sums;
pub mod table_laws;
mod walk;

pub use answer::{ChosenBreaks, chosen_list};
pub use cost::{Bound, LineFit, fit_line, is_loosest, line_after, line_alone};
pub use entry::Entry;
pub use fault::BreakFault;
pub use group::ActiveGroup;
pub use line_sizes::{LineSizes, MeasuredSpan, PlaceSizes};
pub use list::{MAX_PLACES, refusal};
pub use list_meter::ListMeter;
pub use meter::{Breakpoint, Meter};
pub use row::{empty_row, flush_row, offer, put};
pub use sizes::{Alone, LineFits, fit_both, line_size};
pub use state::{BreakState, Fitness, LineCost, order};
pub use sums::Sums;
