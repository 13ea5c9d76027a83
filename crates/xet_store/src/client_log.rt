//! What a connection was asked, said and served, for proofs alone.
ghost use Rattle.std.specs.Prelude.{◌≡◌, List, [], ◌∷◌, ◌++◌, Ok};
ghost use base.Fml.{ftrue};
ghost use Rattle.xet_outside.specs.declared.said.Said.{Said as SaidValue};
ghost use Rattle.xet_outside.specs.declared.served.Served.{Served as ServedValue};
ghost use Rattle.xet_outside.specs.Told.{Query};

use std::marker::Model;
use xet_base::{FileRange, MerkleHash};
use xet_outside::{BlockAnswer, BlockRequest, PlanAnswer};

/// What a connection was asked, said and served: lists that only proofs read. They take no memory, and the methods do
/// nothing at run time.
#[derive(Drop)]
pub struct ClientLog {
    pub ghost asked: { List Query },
    pub ghost said: { List SaidValue },
    pub ghost served: { List ServedValue },
}

impl Model for ClientLog {
    ghost also_owns = { λ _. ftrue };
}

// It owns nothing.
unsafe impl Send for ClientLog {}

impl ClientLog {
    ghost use Rattle.xet_outside.specs.Answers.{block_said, block_served, plan_said};

    /// A log of nothing.
    pub fn new() -> ClientLog
        ensures { result ≡ record { asked = []; said = []; served = [] } }
    {
        ClientLog {}
    }

    /// The log with a query and its answer at the end.
    pub fn and_plan(&self, file: &MerkleHash, range: &FileRange, answer: &PlanAnswer) -> ClientLog
        ensures { result ≡ record {
          asked = self.now.asked ++ (file.now, range.now) ∷ [];
          said = self.now.said ++ plan_said (Ok answer.now);
          served = self.now.served;
        } }
    {
        ClientLog {}
    }

    /// The log with an answer to a request for a block at the end.
    pub fn and_block(&self, request: &BlockRequest, answer: &BlockAnswer) -> ClientLog
        ensures { result ≡ record {
          asked = self.now.asked;
          said = self.now.said ++ block_said request.now (Ok answer.now);
          served = self.now.served ++ block_served request.now (Ok answer.now);
        } }
    {
        ClientLog {}
    }
}
