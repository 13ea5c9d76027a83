//! The parts of cleaners: a session as the deduplication of a file sees it, one chunk's way into a file's parts, and
//! the bytes that wait to be cut.
#![tactic(auto)]

pub mod deduper;
pub mod deduplication_interface;
pub mod named_terms;
pub mod pending_bytes;
pub mod pointers;

pub use deduper::{add_chunk, chunk_info};
pub use deduplication_interface::{DeduplicationDataInterface, UploadSessionDataManager};
pub use named_terms::first_unlisted;
pub use pending_bytes::PendingBytes;
pub use pointers::{pointer_to, recorded_sha256};
