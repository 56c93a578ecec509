//! Worked values of line breaking, as tests.
#![tactic(auto)]

#[cfg(test)]
mod all_breaks;
#[cfg(test)]
mod costs;
#[cfg(test)]
mod counted_breaks;
#[cfg(test)]
mod four_methods;
#[cfg(test)]
mod items;
#[cfg(test)]
mod lists;
#[cfg(test)]
mod paragraphs;
#[cfg(test)]
mod random;
