//! The turns of a run: the round and the join of its fetches with the writing, the turn, and the loop of turns.
#![tactic(auto)]

pub mod empty;
pub mod ending;
pub mod joining;
pub mod reporting;
pub mod round;
pub mod running;
pub mod turns;

pub use empty::run_empty;
pub use ending::end_run;
pub use joining::{Prepared, join};
pub use reporting::report;
pub use round::run_round;
pub use running::{Order, run};
pub use turns::{lead, turn};
