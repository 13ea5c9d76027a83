//! The end of a session: the put of a xorb whose refusal is kept, and what comes behind the last cut.
#![tactic(auto)]

mod ending;
mod xorb_put;

pub use ending::end_session;
pub use xorb_put::put_xorb;
