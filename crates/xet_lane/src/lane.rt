//! A connection, and the fetches that it made in one round.
ghost use Rattle.std.specs.Prelude.{◌≡◌, [], IfOk};
ghost use Rattle.xet_ties.specs.Lanes.{AnswerStep, IsFor};
ghost use Rattle.xet_lane.specs.Fetches.{LaneCall, NoneFailed, ask, ask_of, error_in, last_error};

use crate::gate::Gate;
use std::alloc::Global;
use xet_base::{List, OutOfMemory};
use xet_blocks::{TermBlockRetrievalURLs, XorbBlock};
use xet_error::FileReconstructionError;
use xet_outside::{BlockAnswer, BlockRequest, Client, ClientError};
use xet_ties::LaneStep;

/// One fetch of a round.
///
/// In place of the tasks that `xet-data` spawns for the blocks of a file.
#[derive(Drop)]
pub struct Fetch<'a> {
    /// The number of the fetch, from 0 over the whole run. The gate is told it.
    pub number: u64,
    /// The block.
    pub block: &'a XorbBlock,
    /// The URLs of the block's plan, by which its request is made when it is asked for.
    pub urls: &'a TermBlockRetrievalURLs,
}

impl<'a> Fetch<'a> {
    /// The block's request. `OutOfMemory` where memory was refused, or the table has no URL for the block's number.
    #[tactic(auto, using(crate::proofs::Requests::request_made))]
    pub fn request(&self, alloc: Global) -> Result<BlockRequest, OutOfMemory>
        ensures { IfOk result (λ made. made ≡ (ask_of self.now).request) }
    {
        match self.block.request(alloc, self.urls) {
            Ok(Some(request)) => Ok(request),
            Ok(None) | Err(_) => Err(OutOfMemory),
        }
    }
}

/// The error of a failed step.
fn step_error(step: &LaneStep) -> Option<FileReconstructionError>
    ensures { result ≡ error_in step.now }
{
    match step {
        LaneStep::Failed { error } => Some(*error),
        LaneStep::Served { .. } | LaneStep::Expired { .. } => None,
    }
}

/// The error of the last step, where it failed.
pub(crate) fn last_error(steps: &[LaneStep]) -> Option<FileReconstructionError>
    ensures { result ≡ last_error steps.now }
{
    match steps.last() {
        Some(step) => step_error(step),
        None => None,
    }
}

/// The step that an answer to the block's request makes.
fn step_of(
    alloc: Global,
    block: &XorbBlock,
    request: &BlockRequest,
    answer: Result<BlockAnswer, ClientError>,
) -> LaneStep
    ensures { AnswerStep (ask block.now request.now) answer result }
{
    let (plan, index) = (request.acquisition.plan, request.index);
    match answer {
        Ok(BlockAnswer::Bytes(bytes)) => match block.accept(alloc, bytes) {
            Ok(found) => LaneStep::Served {
                plan,
                block: index,
                found,
            },
            Err(error) => LaneStep::Failed { error },
        },
        Ok(BlockAnswer::Expired) => LaneStep::Expired { plan, block: index },
        Err(error) => LaneStep::Failed {
            error: FileReconstructionError::from(error),
        },
    }
}

/// A connection, and the steps of one round.
///
/// The Rust crate has no such type: it fetches each block in a task of its own.
#[derive(Drop)]
pub struct Lane<'a, C> {
    client: &'a mut C,
    steps: Vec<LaneStep>,
}

impl<'a, C: Client> Lane<'a, C> {
    /// A lane with no steps. It takes no memory.
    pub fn new(alloc: Global, client: &'a mut C) -> Lane<'a, C>
        ensures same_reference { result.client.ghost_name ≡ client.entry.ghost_name }
        ensures client { result.client.now ≡ client.old }
        ensures steps { result.steps.items ≡ [] }
    {
        Lane {
            client,
            steps: Vec::new(alloc),
        }
    }

    /// A lane with no steps, and room for so many, where memory allows it.
    pub fn with_room(alloc: Global, client: &'a mut C, steps: usize) -> Lane<'a, C>
        ensures same_reference { result.client.ghost_name ≡ client.entry.ghost_name }
        ensures client { result.client.now ≡ client.old }
        ensures steps { result.steps.items ≡ [] }
    {
        Lane {
            client,
            steps: List::with_hint(alloc, steps).into_inner(),
        }
    }

    /// The steps of the round, in order.
    pub fn steps(&self) -> &[LaneStep]
        ensures { result.now ≡ self.now.steps.items }
    {
        self.steps.as_slice()
    }

    /// The error of the last step, where it failed.
    pub fn last_error(&self) -> Option<FileReconstructionError>
        ensures { result ≡ last_error self.now.steps.items }
    {
        last_error(self.steps.as_slice())
    }

    /// Asks the connection once for a block, between the two calls of the gate, and adds a step. None of the steps
    /// before failed.
    ///
    /// The step has `ClientError` where the connection's faults rose; `CorruptedReconstruction` where bytes came that
    /// fail a test of the block, which has the test and its numbers; and `OutOfMemory` where memory ran out. The call
    /// answers `OutOfMemory` where there was no room for a step; then nothing was asked, and no step was added.
    ///
    /// In the Rust crate: a step of `XorbBlock::retrieve_data`.
    pub fn fetch<G: Gate>(
        &mut self,
        alloc: Global,
        number: u64,
        block: &XorbBlock,
        request: &BlockRequest,
        gate: &G,
    ) -> Result<(), OutOfMemory>
        requires good { NoneFailed self.old.steps.items }
        requires asks { IsFor (ask block.now request.now) }
        ensures same_reference { self.new.client.ghost_name ≡ self.old.client.ghost_name }
        ensures call { LaneCall (C.told self.old.client.now) (C.told self.new.client.now)
            self.old.steps.items self.new.steps.items (ask block.now request.now) result }
    {
        self.steps.reserve(1)?;
        gate.before(number);
        let answer = self.client.block(alloc, request);
        gate.after(number);
        let step = step_of(alloc, block, request, answer);
        self.steps.push_reserved(step);
        Ok(())
    }

    /// Asks for the block of a fetch, as `fetch` does, by its own request, which is made for that alone. `OutOfMemory`
    /// besides where the request couldn't be made.
    pub fn make<G: Gate>(
        &mut self,
        alloc: Global,
        wanted: &Fetch,
        gate: &G,
    ) -> Result<(), OutOfMemory>
        requires good { NoneFailed self.old.steps.items }
        ensures same_reference { self.new.client.ghost_name ≡ self.old.client.ghost_name }
        ensures call { LaneCall (C.told self.old.client.now) (C.told self.new.client.now)
            self.old.steps.items self.new.steps.items (ask_of wanted.now) result }
    {
        match wanted.request(alloc) {
            Ok(request) => self.fetch(alloc, wanted.number, wanted.block, &request, gate),
            Err(error) => Err(error),
        }
    }

    /// The connection and the steps.
    pub fn into_parts(self) -> (&'a mut C, Vec<LaneStep>)
        ensures same_reference { result.0.ghost_name ≡ self.entry.client.ghost_name }
        ensures client { result.0.now ≡ self.entry.client.now }
        ensures steps { result.1.items ≡ self.entry.steps.items }
    {
        let Lane { client, steps } = self;
        (client, steps)
    }
}
