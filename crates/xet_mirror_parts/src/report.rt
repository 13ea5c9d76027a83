//! What mirroring came to.
ghost use Rattle.std.specs.Prelude.{◌≡◌};
ghost use Rattle.xet_mirror_parts.specs.Errors.{of_client};
ghost use Rattle.xet_mirror_parts.specs.declared.report.MirrorError.TheVariants as mirror_error;

use thiserror::Error;
use xet_base::{MerkleHash, OutOfMemory, Xorb};
use xet_outside::ClientError;

/// What was copied. Each count stops at `u64::MAX`.
///
/// The Rust crates have no such type.
#[derive(Clone, Copy, PartialEq, Eq, Debug)]
pub struct MirrorReport {
    /// The listed files that were copied.
    pub files_copied: u64,
    /// The listed files that the target had.
    pub files_present: u64,
    /// The xorbs that were put.
    pub xorbs_sent: u64,
    /// The xorbs that copied files name and the target had.
    pub xorbs_present: u64,
    /// The bytes of the xorbs that were put.
    pub bytes_sent: u64,
}

impl MirrorReport {
    ghost use Rattle.xet_mirror_parts.specs.Looked.{report_with, with_copied, with_present};

    /// The report with one xorb more, which the target held, or which was sent.
    pub fn with_xorb(self, xorb: &Xorb, held: bool) -> MirrorReport
        ensures { result ≡ report_with self xorb.now held }
    {
        let mut report = self;
        if held {
            report.xorbs_present = report.xorbs_present.saturating_add(1);
        } else {
            report.xorbs_sent = report.xorbs_sent.saturating_add(1);
            report.bytes_sent = report.bytes_sent.saturating_add(xorb.num_bytes());
        }
        report
    }

    /// The report with one file more, which was copied.
    pub fn with_copied(self) -> MirrorReport
        ensures { result ≡ with_copied self }
    {
        let mut report = self;
        report.files_copied = report.files_copied.saturating_add(1);
        report
    }

    /// The report with one file more, which the target had.
    pub fn with_present(self) -> MirrorReport
        ensures { result ≡ with_present self }
    {
        let mut report = self;
        report.files_present = report.files_present.saturating_add(1);
        report
    }
}

/// Why files were not mirrored. It prints the variant's name.
///
/// The Rust crates have no such error.
#[derive(Clone, Copy, PartialEq, Eq, Debug, Drop, Error)]
pub enum MirrorError {
    /// An allocation was refused.
    #[error("OutOfMemory")]
    OutOfMemory,
    /// A call of the shelf or of the target failed, and its count of faults rose.
    #[error("ClientError")]
    ClientError,
    /// Neither has the file at this place of the list, counted from 0.
    #[error("FileMissing")]
    FileMissing { place: u64 },
    /// Neither has this xorb, which a file to be copied names.
    #[error("XorbMissing")]
    XorbMissing { xorb: MerkleHash },
    /// The term with this number of the file at this place of the list, both counted from 0, isn't from below to inside
    /// a xorb of the shelf's.
    #[error("BadTerm")]
    BadTerm { place: u64, entry: u64 },
    /// The hash of this xorb isn't that of its chunks.
    #[error("HashDiffers")]
    HashDiffers { xorb: MerkleHash },
}

impl From<OutOfMemory> for MirrorError {
    ghost from_gives = { λ _ e. e ≡ mirror_error.OutOfMemory };

    fn from(_: OutOfMemory) -> MirrorError {
        MirrorError::OutOfMemory
    }
}

/// Want of memory stays want of memory, and a failed call is `ClientError`.
impl From<ClientError> for MirrorError {
    ghost from_gives = { λ e error. error ≡ of_client e };

    fn from(error: ClientError) -> MirrorError {
        match error {
            ClientError::OutOfMemory => MirrorError::OutOfMemory,
            ClientError::Failed => MirrorError::ClientError,
        }
    }
}
