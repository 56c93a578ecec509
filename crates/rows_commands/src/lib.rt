//! Rows of the program: whole command lines over a host in memory, as tests.
#![tactic(auto)]

#[cfg(test)]
mod hosts;
#[cfg(test)]
mod rows;
#[cfg(test)]
mod samples;
