//! Taps: what sees each block on its way to a run.
ghost use Rattle.std.specs.Prelude.{◌≡◌, ◌++◌, ◌∷◌, [], drop, false, None, Ok, MatchOption, OnErr, OnOk, Some};
ghost use Rattle.std.specs.Prelude.{slice_get, true};
ghost use Rattle.xet_outside.specs.Told.{served_of};
ghost use Rattle.xet_store.specs.Taps.{PassCall, TapTold};

use crate::tap_log::TapLog;
use std::alloc::Global;
use std::collections::VecDeque;
use xet_base::OutOfMemory;
use xet_outside::{BlockBytes, BlockRequest, Served};

/// What sees each block on its way to a run, and hands one on.
pub trait Tap {
    /// The requests whose blocks passed and the blocks that were handed on for them, where they are told, and whether
    /// each block is handed on as it came.
    ghost told: { Self → TapTold };

    /// Hands a block on that was answered to a request. `OutOfMemory` where an allocation was refused, and then no
    /// block was handed on.
    fn pass(
        &mut self,
        alloc: Global,
        request: &BlockRequest,
        block: BlockBytes,
    ) -> Result<BlockBytes, OutOfMemory>
        ensures { PassCall (told self.old) (told self.new) request.now block result };
}

/// A tap that hands each block on, and keeps nothing. It never refuses.
#[derive(Clone, Copy, PartialEq, Eq)]
pub struct NoTap;

impl Tap for NoTap {
    ghost told = { λ _. record { passed = None; gave = None; honest = true } };

    fn pass(
        &mut self,
        _alloc: Global,
        request: &BlockRequest,
        block: BlockBytes,
    ) -> Result<BlockBytes, OutOfMemory>
        ensures call { PassCall (⟦<NoTap as Tap>⟧.told self.old)
            (⟦<NoTap as Tap>⟧.told self.new) request.now block result }
        ensures always { result ≡ Ok block }
    {
        Ok(block)
    }
}

/// A tap that hands each block on, and keeps its request.
#[derive(Drop)]
pub struct MemTap {
    passed: Vec<Served>,
    log: TapLog,
}

impl MemTap {
    /// A tap that no block passed yet. It takes no memory.
    pub fn new(alloc: Global) -> MemTap
        ensures { ⟦<MemTap as Tap>⟧.told result ≡ record { passed = Some []; gave = Some []; honest = true } }
    {
        MemTap {
            passed: Vec::new(alloc),
            log: TapLog::new(),
        }
    }

    /// The requests of the blocks that passed, in order.
    pub fn passed(&self) -> &[Served]
        ensures { (⟦<MemTap as Tap>⟧.told self.now).passed ≡ Some result.now }
    {
        self.passed.as_slice()
    }

    // Keeps a request.
    fn keep(&mut self, alloc: Global, request: &BlockRequest) -> Result<(), OutOfMemory>
        ensures ok { OnOk result (self.new.passed.items ≡ self.old.passed.items ++ served_of request.now ∷ []) }
        ensures err { OnErr result (self.new.passed.items ≡ self.old.passed.items) }
        ensures log { self.new.log ≡ self.old.log }
    {
        let served = Served {
            plan: request.acquisition.plan,
            index: request.index,
            xorb: request.xorb,
            ranges: request.chunks.copied(alloc)?,
        };
        self.passed.push(served)?;
        Ok(())
    }
}

impl Tap for MemTap {
    ghost told = { λ t. record { passed = Some t.passed.items; gave = Some t.log.gave; honest = true } };

    fn pass(
        &mut self,
        alloc: Global,
        request: &BlockRequest,
        block: BlockBytes,
    ) -> Result<BlockBytes, OutOfMemory> {
        self.keep(alloc, request)?;
        self.log = self.log.and(request, &block);
        Ok(block)
    }
}

/// A fake: a tap that hands on prepared blocks, and then each block as it came.
#[derive(Drop)]
pub struct ScriptTap {
    blocks: VecDeque<BlockBytes>,
    log: TapLog,
}

impl ScriptTap {
    /// A tap that hands these blocks on first, in their order.
    pub fn new(blocks: Vec<BlockBytes>) -> ScriptTap
        ensures told { ⟦<ScriptTap as Tap>⟧.told result ≡ record { passed = Some []; gave = Some []; honest = false } }
        ensures blocks { result.blocks.items ≡ blocks.items }
    {
        ScriptTap {
            blocks: VecDeque::from_vec(blocks),
            log: TapLog::new(),
        }
    }
}

impl Tap for ScriptTap {
    ghost told = { λ t. record { passed = Some t.log.passed; gave = Some t.log.gave; honest = false } };

    /// The next prepared block, and where none is left the block as it came.
    fn pass(
        &mut self,
        _alloc: Global,
        request: &BlockRequest,
        block: BlockBytes,
    ) -> Result<BlockBytes, OutOfMemory>
        ensures call { PassCall (⟦<ScriptTap as Tap>⟧.told self.old)
            (⟦<ScriptTap as Tap>⟧.told self.new) request.now block result }
        ensures next { MatchOption (slice_get self.old.blocks.items 0) (result ≡ Ok block) (λ next. result ≡ Ok next) }
        ensures rest { self.new.blocks.items ≡ drop 1 self.old.blocks.items }
    {
        let block = self.blocks.pop_front().unwrap_or(block);
        self.log = self.log.and(request, &block);
        Ok(block)
    }
}

impl<T: Tap> Tap for &mut T {
    ghost told = { λ t. T.told t.now };

    fn pass(
        &mut self,
        alloc: Global,
        request: &BlockRequest,
        block: BlockBytes,
    ) -> Result<BlockBytes, OutOfMemory> {
        (**self).pass(alloc, request, block)
    }
}
