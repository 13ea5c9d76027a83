//! Tests of `xet_serve_lines` and `xet_serve`: what sessions answer and write, row by row, and a peer that sends a
//! line only after the reply to the one before. They stand in a crate of their own, since a crate with tests is proved
//! twice.
#![tactic(auto)]

#[cfg(test)]
mod connection;
#[cfg(test)]
mod peer;
#[cfg(test)]
mod rows;
#[cfg(test)]
mod served;
