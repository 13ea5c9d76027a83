//! A xorb that waits to be put, and the files that were finished with it.
ghost use Rattle.std.specs.Prelude.{◌≡◌};

use xet_base::{MDBFileInfo, MDBXorbInfo, MerkleHash, Xorb};

/// A xorb with its record.
///
/// In the Rust crates: `deduplication::RawXorbData`.
#[derive(Drop)]
pub struct RawXorbData {
    /// The xorb.
    pub xorb: Xorb,
    /// Its record.
    pub xorb_info: MDBXorbInfo,
}

impl RawXorbData {
    /// The hash of the xorb.
    pub fn hash(&self) -> MerkleHash
        ensures { result ≡ self.now.xorb_info.hash }
    {
        self.xorb_info.hash
    }

    /// How many bytes its chunks have together.
    pub fn num_bytes(&self) -> u64
        ensures { result ≡ self.now.xorb_info.num_bytes }
    {
        u64::from(self.xorb_info.num_bytes)
    }
}

/// A file whose chunks are all in xorbs with a hash.
#[derive(Drop)]
pub struct PendingFile {
    /// The number by which the tracker names the file.
    pub file_id: u64,
    /// The record of the file.
    pub info: MDBFileInfo,
    /// How many bytes of the file are in the xorb that its waiting chunks became.
    pub bytes_in_xorb: u64,
}
