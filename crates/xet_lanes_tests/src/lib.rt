//! Tests of `xet_events`, `xet_run`, `xet_writers` and `xet_lanes`: the calls of a run, limits that follow the running
//! downloads, both writers with both loops; that a lane that fails stops the others, and what a gate is told and when.
//! They stand in a crate of their own, since a crate with tests is proved twice.
#![tactic(auto)]

#[cfg(test)]
mod books;
#[cfg(test)]
mod by_completion;
#[cfg(test)]
mod calls;
#[cfg(test)]
mod drawn;
#[cfg(test)]
mod events;
#[cfg(test)]
mod history;
#[cfg(test)]
mod in_order;
#[cfg(test)]
mod meeting;
#[cfg(test)]
mod one_byte;
#[cfg(test)]
mod rounds;
#[cfg(test)]
mod rows;
#[cfg(test)]
mod scripts;
#[cfg(test)]
mod side_by_side;
#[cfg(test)]
mod sinks;
#[cfg(test)]
mod trace;
