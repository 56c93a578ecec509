//! Worked values of DVI instructions, files and bitmaps, as tests.
#![tactic(auto)]

#[cfg(test)]
mod bitmaps;
#[cfg(test)]
mod damaged_files;
#[cfg(test)]
mod driver;
#[cfg(test)]
mod instructions;
#[cfg(test)]
mod plans;
#[cfg(test)]
mod reused_bodies;
#[cfg(test)]
mod reused_files;
