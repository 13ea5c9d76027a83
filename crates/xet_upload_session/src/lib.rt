//! An upload session: what waits, what was put, and the records of both.
#![tactic(auto)]

mod file_completion;
pub mod session;

pub use session::FileUploadSession;
pub use xet_shard_interface::{SessionShardInterface, SessionStores};
pub use xet_upload_parts::CutThresholds;
