//! Tests of the crates up to `xet_upload`: what errors print, the hashes of some known values and texts of pointer
//! records; calls of sinks and sources that are tried again, cut short or stopped by a fault; and worked calls of
//! groups and trackers. They stand in a crate of their own, since a crate with tests is proved twice.
#![tactic(auto)]

#[cfg(test)]
mod files;
#[cfg(test)]
mod group;
#[cfg(test)]
mod hashes;
#[cfg(test)]
mod names;
#[cfg(test)]
mod over_std;
#[cfg(test)]
mod pointers;
#[cfg(test)]
mod rows;
#[cfg(test)]
mod script;
#[cfg(test)]
mod sinks;
#[cfg(test)]
mod texts;
#[cfg(test)]
mod threads;
#[cfg(test)]
mod tracker;
