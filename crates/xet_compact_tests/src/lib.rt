//! Tests of `xet_compact`: stores that are compacted and written, and what errors print. They stand in a crate of their
//! own, since a crate with tests is proved twice.
#![tactic(auto)]

#[cfg(test)]
mod stores;
