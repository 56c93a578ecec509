//! Worked values of the calls of the library for C, as tests.
#![tactic(auto)]

#[cfg(test)]
mod dvi_files;
#[cfg(test)]
mod jobs;
#[cfg(test)]
mod metrics;
#[cfg(test)]
mod replies;
#[cfg(test)]
mod samples;
#[cfg(test)]
mod scripts;
