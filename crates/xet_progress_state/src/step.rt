//! Calls of the completion tracker as values.
use crate::error::Incomplete;
use xet_base::{Invalid, List, MerkleHash};

/// The number of a file in a tracker, counted from 0 in the order of registration.
///
/// In the Rust crate: `progress_tracking::upload_tracking::CompletionTrackerFileId`.
pub type CompletionTrackerFileId = u64;

/// A part of a file that stands in a xorb.
///
/// In the Rust crate: `progress_tracking::upload_tracking::FileXorbDependency`.
#[derive(Clone, Copy, PartialEq, Eq, Debug)]
pub struct FileXorbDependency {
    /// The file.
    pub file_id: u64,
    /// The xorb.
    pub xorb_hash: MerkleHash,
    /// How many of the file's bytes stand in the xorb.
    pub n_bytes: u64,
    /// Whether they are uploaded already, outside this tracker's xorbs.
    pub is_external: bool,
}

/// A call of the tracker, with its arguments.
///
/// The Rust crate has no such type.
#[derive(Drop)]
pub enum TrackerStep {
    /// `register_new_file`.
    RegisterNewFile {
        n_bytes: Option<u64>,
    },
    /// `increment_file_size`.
    IncrementFileSize {
        file_id: u64,
        size_increment: u64,
    },
    /// `register_new_xorb`.
    RegisterNewXorb {
        xorb_hash: MerkleHash,
        xorb_size: u64,
    },
    /// `register_dependencies`.
    RegisterDependencies {
        dependencies: List<FileXorbDependency>,
    },
    /// `register_xorb_upload_completion`.
    RegisterXorbUploadCompletion {
        xorb_hash: MerkleHash,
    },
    /// `register_xorb_upload_progress`.
    RegisterXorbUploadProgress {
        xorb_hash: MerkleHash,
        new_byte_progress: u64,
    },
    /// `register_xorb_upload_progress_background`.
    RegisterXorbUploadProgressBackground {
        xorb_hash: MerkleHash,
        new_byte_progress: u64,
    },
    /// `status`.
    Status,
    /// `is_complete`.
    IsComplete,
    /// `assert_complete`.
    AssertComplete,
}

/// A call of the tracker, with its dependencies lent.
#[derive(Clone, Copy, Drop)]
pub(crate) enum Note<'a> {
    NewFile(Option<u64>),
    Growth(u64, u64),
    NewXorb(MerkleHash, u64),
    Dependencies(&'a [FileXorbDependency]),
    Completion(MerkleHash),
    Progress(MerkleHash, u64),
    Background(MerkleHash, u64),
}

/// What a call of the tracker answered.
///
/// The Rust crate has no such type.
#[derive(Clone, Copy, PartialEq, Eq, Drop, Debug)]
pub enum TrackerReply {
    /// `Ok` of a call that gives nothing.
    Done,
    /// The id of a new file.
    FileId(u64),
    /// Whether a xorb is new, or all bytes are completed.
    Flag(bool),
    /// The sums of all files, in bytes.
    Sums { completed: u64, total: u64 },
    /// What is still missing.
    Unfinished(Incomplete),
    /// The call was refused, and changed nothing.
    Refused(Invalid),
}

/// A call of the tracker and its answer.
///
/// The Rust crate has no such type.
#[derive(Drop)]
pub struct TrackerCall {
    /// The call.
    pub step: TrackerStep,
    /// What it answered.
    pub reply: TrackerReply,
}
