//! Worked values of numbers, and metric files with known values, as tests.
#![tactic(auto)]

#[cfg(test)]
mod font_files;
#[cfg(test)]
mod samples;
#[cfg(test)]
mod scaled_values;
