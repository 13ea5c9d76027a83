//! Tests of `xet_gaps` and `xet_resume`: what a file holds once nothing is missing and what is asked for until then,
//! whichever of its calls failed, and which texts are records. They stand in a crate of their own, since a crate with
//! tests is proved twice.
#![tactic(auto)]

#[cfg(test)]
mod caller;
#[cfg(test)]
mod connection;
#[cfg(test)]
mod failing_file;
#[cfg(test)]
mod fetches;
#[cfg(test)]
mod texts;
#[cfg(test)]
mod told;
