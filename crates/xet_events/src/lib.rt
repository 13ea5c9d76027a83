//! What a run tells and keeps: its events with the logs that take them and what is looked up of them, the calls on
//! its state with its book, and where the limits of its budget come from.
#![tactic(auto)]

pub mod block_table;
pub mod budget_book;
pub mod budget_source;
pub mod call_log;
pub mod core_refusal;
pub mod event;
pub mod event_log;
pub mod index;
pub mod laws;
pub mod plan_source;
pub mod run_book;
pub mod run_call;
mod told_limits;

pub use block_table::{BlockId, BlockMark, BlockTable};
pub use budget_book::{BookState, BookView, BudgetBook, BudgetSettings};
pub use budget_source::{BudgetSource, FixedBudget, ScriptBudget};
pub use call_log::{CallLog, KeptCalls, ToldCalls};
pub use core_refusal::CoreRefusal;
pub use event::{Event, PlannedBlock, PlannedTerm};
pub use event_log::{EventLog, KeptEvents, ToldEvents};
pub use index::{Index, UnfinishedTerm, WaitingTerm, adjoin};
pub use plan_source::{ListedPlan, PlanSource};
pub use run_book::{RunBook, RunError};
pub use run_call::RunCall;
