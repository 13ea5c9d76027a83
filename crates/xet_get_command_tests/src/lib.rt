//! Tests of `xet_get_command`.
#![tactic(auto)]

#[cfg(test)]
mod tap_tests;
