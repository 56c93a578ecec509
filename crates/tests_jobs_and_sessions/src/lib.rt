//! Worked values of jobs, of files of many pages and of scripts, as tests. They have what no script, file or command line shows. They are in a crate
//! of their own, since a crate with tests is proved twice.
#![tactic(auto)]

#[cfg(test)]
mod jobs;
#[cfg(test)]
mod many_pages;
#[cfg(test)]
mod scripts;
#[cfg(test)]
mod sessions;
#[cfg(test)]
mod streams;
