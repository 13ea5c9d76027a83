//! What a download by a pointer record is for, and what is answered for its run.
#![tactic(auto)]

mod answers;
pub mod range_bounds;

pub use answers::answer_of_run;
pub use range_bounds::range_bounds_to_file_range;
