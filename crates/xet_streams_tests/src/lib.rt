//! Tests of `xet_streams`: what pulls of rows over the worked store answer, and what is told of them. They stand in a
//! crate of their own, since a crate with tests is proved twice.
#![tactic(auto)]

#[cfg(test)]
mod caching;
#[cfg(test)]
mod caller;
#[cfg(test)]
mod connections;
#[cfg(test)]
mod flags;
#[cfg(test)]
mod histories;
#[cfg(test)]
mod pulled;
#[cfg(test)]
mod reports;
#[cfg(test)]
mod row;
#[cfg(test)]
mod script;
#[cfg(test)]
mod streams;
#[cfg(test)]
mod told;
#[cfg(test)]
mod unordered;
