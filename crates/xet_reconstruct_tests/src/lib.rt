//! Tests of `xet_blocks`, `xet_fetch`, `xet_terms` and `xet_reconstruct`: how blocks and plans are asked for, and what
//! runs answer and write, row by row. They stand in a crate of their own, since a crate with tests is proved twice.
#![tactic(auto)]

#[cfg(test)]
mod cache;
#[cfg(test)]
mod calls;
#[cfg(test)]
mod connection;
#[cfg(test)]
mod crowd;
#[cfg(test)]
mod faults;
#[cfg(test)]
mod fetches;
#[cfg(test)]
mod files;
#[cfg(test)]
mod lies;
#[cfg(test)]
mod managers;
#[cfg(test)]
mod meter;
#[cfg(test)]
mod output;
#[cfg(test)]
mod played;
#[cfg(test)]
mod refused;
#[cfg(test)]
mod reports;
#[cfg(test)]
mod row;
#[cfg(test)]
mod runs;
#[cfg(test)]
mod script;
#[cfg(test)]
mod signal;
#[cfg(test)]
mod told;
