//! Worked values of nodes, packing and vertical lists, as tests.
#![tactic(auto)]

#[cfg(test)]
mod interline;
#[cfg(test)]
mod nodes;
#[cfg(test)]
mod offsets;
#[cfg(test)]
mod splitting;
