//! Where files are copied from.
ghost use Rattle.xet_shelves.specs.Shelves.{IsRecordOf, IsXorbOf, ShelfCall, ShelfTold};

use std::alloc::Global;
use xet_base::{MDBFileInfo, MerkleHash, Xorb};
use xet_outside::ClientError;

/// A store whose files and xorbs can be read as a whole.
///
/// The Rust crates have no such trait.
pub trait Shelf {
    /// The store, where it is told, and the count of faults.
    ghost told: { Self → ShelfTold };

    /// The record of a file: its hash and, in order, its terms; none exactly where it isn't stored. What the record
    /// says of bytes and of SHA-256 is free. `Failed` comes only where the count of faults rose, and an answer leaves
    /// that count.
    fn file(&mut self, alloc: Global, file: &MerkleHash) -> Result<Option<MDBFileInfo>, ClientError>
        ensures { ShelfCall (told self.old) (told self.new) (IsRecordOf file.now) result };

    /// A xorb; none exactly where it isn't stored. `Failed` comes only where the count of faults rose, and an answer
    /// leaves that count.
    fn xorb(&mut self, alloc: Global, xorb: &MerkleHash) -> Result<Option<Xorb>, ClientError>
        ensures { ShelfCall (told self.old) (told self.new) (IsXorbOf xorb.now) result };
}
