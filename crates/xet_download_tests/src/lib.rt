//! Tests of `xet_download`, over a store in memory.
#![tactic(auto)]

#[cfg(test)]
mod calls;
#[cfg(test)]
mod rows;
#[cfg(test)]
mod streams;
#[cfg(test)]
mod uploaded;
#[cfg(test)]
mod watching;
#[cfg(test)]
mod words;
