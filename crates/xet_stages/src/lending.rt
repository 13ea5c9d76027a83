//! What a run lends.
use std::alloc::Global;
use std::sync::ledger::Ledger;
use xet_run::RunState;

/// What a run lends to its parts.
#[derive(Drop)]
pub struct Around<'a, R, G, L: Ledger> {
    /// Starts threads and waits.
    pub rt: &'a R,
    /// Where memory is taken.
    pub alloc: Global,
    /// What is called round each block fetch.
    pub gate: &'a G,
    /// What the run's threads know of it together.
    pub state: &'a RunState<L>,
}
