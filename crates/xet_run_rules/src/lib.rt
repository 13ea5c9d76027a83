//! What a run may do next, over plain data: the budget of unwritten bytes, whether bytes may be written, and the check
//! of its first error.
#![tactic(auto)]

pub mod budget;
pub mod error_check;
pub mod next_write;

pub use budget::{Admission, Budget};
pub use error_check::check_error;
pub use next_write::may_write;
