//! Tests of upload sessions, of their stores and of cleaners.
#![tactic(auto)]

#[cfg(test)]
mod answers;
#[cfg(test)]
mod calls;
#[cfg(test)]
mod files;
#[cfg(test)]
mod managers;
#[cfg(test)]
mod scripts;
#[cfg(test)]
mod sessions;
#[cfg(test)]
mod settings;
#[cfg(test)]
mod stores;
#[cfg(test)]
mod tables;
#[cfg(test)]
mod uploads;
#[cfg(test)]
mod xorbs;
