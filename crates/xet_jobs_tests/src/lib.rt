//! Tests of uploads as jobs.
#![tactic(auto)]

#[cfg(test)]
mod contents;
#[cfg(test)]
mod orders;
#[cfg(test)]
mod rows;
#[cfg(test)]
mod sessions;
#[cfg(test)]
mod uploads;
#[cfg(test)]
mod watching;
