//! Connections to a store.
ghost use Rattle.std.specs.Prelude.{◌≡◌};
ghost use Rattle.xet_outside.specs.Told.{ClientTold, PlanCall, BlockCall};
ghost use Rattle.xet_outside.specs.declared.client.ClientError.TheVariants as client_error;

use crate::block::{BlockAnswer, BlockRequest};
use crate::plan::PlanAnswer;
use std::alloc::Global;
use thiserror::Error;
use xet_base::{FileRange, MerkleHash, OutOfMemory};

/// Why a connection gave no answer.
///
/// In the Rust crates: `cas_client::CasClientError`.
#[derive(Clone, Copy, PartialEq, Eq, Debug, Drop, Error)]
pub enum ClientError {
    /// An allocation was refused.
    #[error("OutOfMemory")]
    OutOfMemory,
    /// The connection failed, and its count of faults rose.
    #[error("Failed")]
    Failed,
}

impl From<OutOfMemory> for ClientError {
    ghost from_gives = { λ _ e. e ≡ client_error.OutOfMemory };

    fn from(_: OutOfMemory) -> ClientError {
        ClientError::OutOfMemory
    }
}

/// A connection to a store.
///
/// In the Rust crates: `cas_client::Client`.
pub trait Client {
    /// The store, the queries, the answers and the served blocks, each where it is told, and the counts of faults and
    /// of expired answers.
    ghost told: { Self → ClientTold };

    /// Whether answers may be waited for, as over a network, so that other work is worth a thread beside them. It
    /// changes no answer. A connection without a body of its own says yes.
    ///
    /// The Rust crates have no such call.
    fn waits(&self) -> bool {
        true
    }

    /// Asks for the plan of a range of a file, in bytes. `Failed` comes only where the count of faults rose; an answer
    /// leaves that count.
    ///
    /// In the Rust crates: `cas_client::Client::get_reconstruction`.
    fn plan(
        &mut self,
        alloc: Global,
        file: &MerkleHash,
        range: FileRange,
    ) -> Result<PlanAnswer, ClientError>
        ensures { PlanCall (told self.old) (told self.new) file.now range result };

    /// Asks for the bytes of one block. `Expired` comes only where the count of expired answers rose, and `Failed`
    /// only where the count of faults rose; an answer leaves that count.
    ///
    /// In the Rust crates: `cas_client::Client::get_file_term_data`.
    fn block(&mut self, alloc: Global, request: &BlockRequest) -> Result<BlockAnswer, ClientError>
        ensures { BlockCall (told self.old) (told self.new) request.now result };
}
