//! Uploads as jobs over one session that threads share.
#![tactic(auto)]

mod held;
pub mod job;
pub mod spawning;

pub use job::UploadJob;
pub use spawning::{spawn_upload_bytes, spawn_upload_from_path};
