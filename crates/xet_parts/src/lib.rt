//! The parts of a leader's turn that touch one or two objects and know no leader: each asks, looks, offers, admits or
//! records, and says what that did to its objects and to the history.
#![tactic(auto)]

pub mod admission;
mod answered_plan;
pub mod due_query;
pub mod event_calls;
pub mod look;
pub mod offer;
pub mod plan_asking;
pub mod recorder;
pub mod signal;
pub mod stopping;
pub mod table_refresh;

pub use admission::admit_terms;
pub use due_query::next_due;
pub use event_calls::{
    add_cached, add_expired, add_fetched, add_planned, add_refreshed, add_wrote,
};
pub use look::look_up_block;
pub use offer::offer_block;
pub use plan_asking::ask_plan;
pub use recorder::{record_expired, record_fetched, record_window};
pub use signal::poll;
pub use stopping::stop;
pub use table_refresh::refresh_table;
