//! The terms of a stream: the next one is planned, admitted, and handed over.
#![tactic(auto)]

pub mod admitting;
pub mod handing;
pub mod planning;

pub use admitting::{admit_ahead, admit_next};
pub use handing::{hand_over, record_given};
pub use planning::plan_next;
