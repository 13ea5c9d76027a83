//! Where files are copied to.
ghost use Rattle.xet_shelves.specs.Shelves.{HasCall, has_file, has_xorb};

use xet_base::MerkleHash;
use xet_outside::ClientError;
use xet_uploader::Uploader;

/// An uploader that can be asked what its store has.
///
/// The Rust crates have no such trait.
pub trait Target: Uploader {
    /// Whether the store that it began with, or its log, has the file. `Failed` comes only where the uploader's count
    /// of faults rose, and an answer leaves that count.
    fn has_file(&mut self, file: &MerkleHash) -> Result<bool, ClientError>
        ensures { HasCall (Self.told self.old) (Self.told self.new) (λ s log. has_file s log file.now) result };

    /// Whether the store that it began with, or its log, has the xorb. `Failed` comes only where the uploader's count
    /// of faults rose, and an answer leaves that count.
    fn has_xorb(&mut self, xorb: &MerkleHash) -> Result<bool, ClientError>
        ensures { HasCall (Self.told self.old) (Self.told self.new) (λ s log. has_xorb s log xorb.now) result };
}
