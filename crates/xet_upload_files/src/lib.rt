//! Files that are uploaded from their sources into a session.
#![tactic(auto)]

pub mod uploads;

pub use uploads::{UploadFile, upload_files};
