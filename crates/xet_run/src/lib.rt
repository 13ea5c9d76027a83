//! What a run of a file's reconstruction is counted and steered by: the core with its history of events, the budget of
//! unwritten bytes, the numbers that lanes draw, and what the threads of a run know of it together.
#![tactic(auto)]

pub mod held_run;
pub mod run_core;
pub mod run_state;

pub use held_run::HeldRun;
pub use run_core::RunCore;
pub use run_state::{RunPass, RunState};
pub use xet_claims::{ClaimPass, Claims};
pub use xet_events::{
    BlockId, BlockMark, BlockTable, BookState, BookView, BudgetBook, BudgetSettings, BudgetSource,
    CallLog, CoreRefusal, Event, EventLog, FixedBudget, KeptCalls, KeptEvents, ListedPlan,
    PlanSource, PlannedBlock, PlannedTerm, RunBook, RunCall, RunError, ScriptBudget, ToldCalls,
    ToldEvents,
};
pub use xet_run_rules::{Admission, Budget};
