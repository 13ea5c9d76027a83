//! Tests of mirrors: each put failing in turn, lanes, and a shelf that lies. They stand in a crate of their own, since
//! a crate with tests is proved twice.
#![tactic(auto)]

#[cfg(test)]
mod caller;
#[cfg(test)]
mod failing_puts;
#[cfg(test)]
mod lanes;
#[cfg(test)]
mod lying_shelf;
#[cfg(test)]
mod told;
