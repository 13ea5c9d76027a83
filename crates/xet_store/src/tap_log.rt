//! What passed a tap and what it gave, for proofs alone.
ghost use Rattle.std.specs.Prelude.{◌≡◌, List, [], ◌∷◌, ◌++◌};
ghost use base.Fml.{ftrue};
ghost use Rattle.xet_outside.specs.declared.block.BlockBytes.{BlockBytes as BlockValue};
ghost use Rattle.xet_outside.specs.declared.served.Served.{Served as ServedValue};

use std::marker::Model;
use xet_outside::{BlockBytes, BlockRequest};

/// The requests whose blocks passed a tap, and the blocks that it handed on: lists that only proofs read. They take no
/// memory, and the methods do nothing at run time.
#[derive(Drop)]
pub struct TapLog {
    pub ghost passed: { List ServedValue },
    pub ghost gave: { List BlockValue },
}

impl Model for TapLog {
    ghost also_owns = { λ _. ftrue };
}

// It owns nothing.
unsafe impl Send for TapLog {}

impl TapLog {
    ghost use Rattle.xet_outside.specs.Told.{served_of};

    /// A log of nothing.
    pub fn new() -> TapLog
        ensures { result ≡ record { passed = []; gave = [] } }
    {
        TapLog {}
    }

    /// The log with a request and the block that was handed on for it at the end.
    pub fn and(&self, request: &BlockRequest, block: &BlockBytes) -> TapLog
        ensures { result ≡ record {
          passed = self.now.passed ++ served_of request.now ∷ [];
          gave = self.now.gave ++ block.now ∷ [];
        } }
    {
        TapLog {}
    }
}
