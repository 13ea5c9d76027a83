//! Asks the connection whose turn it is for a block.
ghost use Rattle.std.specs.Prelude.{◌≡◌, ◌<◌, IfOk, OnErr, length, map, min};
ghost use Rattle.xet_ties.specs.Lanes.{AnswerStep, IsFor, StepDid};
ghost use Rattle.xet_ties.specs.Setup.{most_lanes};
ghost use Rattle.xet_lane.specs.Fetches.{ask, ask_of};
ghost use Rattle.xet_stream_rules.specs.StepTold.{AsksLane, IsTurn};

use std::alloc::Global;
use xet_base::OutOfMemory;
use xet_blocks::XorbBlock;
use xet_error::FileReconstructionError;
use xet_lane::Fetch;
use xet_outside::{BlockAnswer, BlockRequest, Client, ClientError};
use xet_ties::LaneStep;

/// How many connections a stream uses at most; those past them stay as they are.
const MOST_LANES: u64 = 65536;

/// The number of the connection whose turn it is, where so many fetches were made.
pub(crate) fn lane_of(fetches: u64, connections: usize) -> usize
    requires { 0 < connections }
    ensures { IsTurn fetches (min connections most_lanes) result }
{
    let lanes = (connections as u64).min(MOST_LANES);
    (fetches % lanes) as usize
}

/// Asks a connection once for a block, by its own request. `OutOfMemory` where the request couldn't be made; then
/// nothing was asked.
///
/// In the Rust crate: a step of `XorbBlock::retrieve_data`.
pub(crate) fn ask_block<C: Client>(
    alloc: Global,
    client: &mut C,
    wanted: &Fetch,
) -> Result<LaneStep, OutOfMemory>
    requires { IsFor (ask_of wanted.now) }
    ensures did { IfOk result (StepDid (C.told client.old) (C.told client.new) (ask_of wanted.now)) }
    ensures unasked { OnErr result (client.new ≡ client.old) }
{
    match wanted.request(alloc) {
        Ok(request) => {
            let answer = client.block(alloc, &request);
            Ok(step_of(alloc, wanted.block, &request, answer))
        }
        Err(error) => Err(error),
    }
}

/// So the connection of this number among these; the others are as before.
pub(crate) fn ask_lane<C: Client>(
    alloc: Global,
    clients: &mut [C],
    lane: usize,
    wanted: &Fetch,
) -> Result<LaneStep, OutOfMemory>
    requires within { lane < length clients.old }
    requires own { IsFor (ask_of wanted.now) }
    ensures asked { IfOk result (λ s. AsksLane lane (ask_of wanted.now) s (map C.told clients.old)
        (map C.told clients.new)) }
    ensures unasked { OnErr result (clients.new ≡ clients.old) }
{
    ask_block(alloc, &mut clients[lane], wanted)
}

/// The step that an answer to the block's request makes.
fn step_of(
    alloc: Global,
    block: &XorbBlock,
    request: &BlockRequest,
    answer: Result<BlockAnswer, ClientError>,
) -> LaneStep
    ensures { AnswerStep (ask block.now request.now) answer result }
{
    let (plan, index) = (request.acquisition.plan, request.index);
    match answer {
        Ok(BlockAnswer::Bytes(bytes)) => match block.accept(alloc, bytes) {
            Ok(found) => LaneStep::Served {
                plan,
                block: index,
                found,
            },
            Err(error) => LaneStep::Failed { error },
        },
        Ok(BlockAnswer::Expired) => LaneStep::Expired { plan, block: index },
        Err(error) => LaneStep::Failed {
            error: FileReconstructionError::from(error),
        },
    }
}
