//! Where xorbs and records are put, and an uploader to a store in memory.
#![tactic(auto)]

pub mod fault_script;
pub mod laws;
pub mod mem_uploader;
pub mod uploader;
pub mod xorb_records;

pub use fault_script::FaultScript;
pub use mem_uploader::MemUploader;
pub use uploader::{Put, Uploader};
pub use xorb_records::{ChunkPlace, XorbRecords};
