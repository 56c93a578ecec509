//! Packing: lists become boxes, and their items get their places.
//!
//! A list is packed to its natural size, to a given size, or to its natural size plus a given amount. Its glue stretches or shrinks by an exact
//! fraction, and the place of each item is rounded once, so that a box is filled exactly.
#![tactic(auto)]

mod across;
mod below;
mod down;
pub mod laws;
mod orders;
mod pack;
mod places;
mod setting;
mod sizes;
mod tail;
mod totals;

pub use across::Across;
pub use below::vbox_below;
pub use orders::{OrderAmounts, OrderDimens};
pub use pack::{
    PackedBox, Shell, Target, TooLarge, hbox_shell, hpack, measured_shell, packed_of, vbox_shell,
    vpack, vtop,
};
pub use places::{Cursor, offset};
pub use sizes::{advance_of, first_height_of, own_size, share_of, shrink_of, stretch_of};
pub use tail::Tail;
pub use totals::Totals;
