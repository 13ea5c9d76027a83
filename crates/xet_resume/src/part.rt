//! Reads one part of a file, by a run of its own at its own place.
ghost use Rattle.std.specs.Prelude.{◌≡◌, ◌<◌, None, map};
ghost use Rattle.xet_outside.specs.Places.{PlaceCall, at_place};
ghost use Rattle.xet_reconstruct.specs.Lent.{lent_of};
ghost use Rattle.xet_resume.specs.Errors.{of_run};
ghost use Rattle.xet_resume.specs.steps.Filling.{Follows, PartAnswer, RanPart, ended_by};
ghost use Rattle.xet_ties.specs.Causes.{refused_setting};
ghost use Rattle.xet_ties.specs.Setup.{setup_of};
ghost use Rattle.xet_error.specs.Errors.{of_sink_error};

use crate::resume_error::ResumeError;
use std::alloc::Global;
use std::sync::Wait;
use std::thread::Threads;
use xet_base::{FileRange, MerkleHash};
use xet_blocks::Steady;
use xet_error::{FileReconstructionError, Result};
use xet_lane::OpenGate;
use xet_leader::Job;
use xet_outside::{CancelSignal, ChunkCache, Client, PlaceSink, SinkError, place_follows};
use xet_run::{FixedBudget, RunCore, ToldEvents};
use xet_terms::ReconstructionConfig;
use xet_turns::{Order, run};

/// How a part ended a call: its error, and how many of its bytes were written.
#[derive(Clone, Copy)]
pub(crate) struct Stopped {
    pub(crate) count: u64,
    pub(crate) error: ResumeError,
}

/// What a run of a part answered, and how many bytes its core counted as written.
#[derive(Clone, Copy)]
struct Ran {
    count: u64,
    answer: Result<u64>,
}

/// Sets a file's place. What it takes from then on stands there.
fn set_place<F: PlaceSink>(file: &mut F, place: u64) -> std::result::Result<(), SinkError>
    ensures seek { PlaceCall (F.told file.old) (F.told file.new) (at_place place) result }
    ensures follows { Follows (F.told file.new) }
{
    let answer = file.seek(place);
    place_follows(&*file);
    answer
}

/// A run of a part, into a file whose place was set.
fn run_part<R, C, K, X, F>(
    rt: &R,
    alloc: Global,
    file_hash: MerkleHash,
    part: FileRange,
    config: &ReconstructionConfig,
    clients: &mut [C],
    cache: &mut K,
    cancel: &mut X,
    file: &mut F,
) -> Ran
where
    R: Threads + Wait + Sync,
    C: Client + Send,
    K: ChunkCache,
    X: CancelSignal,
    F: PlaceSink,
    requires some { part.start < part.end }
    requires settings { refused_setting (setup_of file_hash part config.now) (map C.told clients.old) ≡ None }
    ensures { RanPart config.now file_hash part
        (lent_of C.told K.told X.told F.told clients.old cache.old cancel.old file.old)
        (lent_of C.told K.told X.told F.told clients.new cache.new cancel.new file.new) result.count result.answer }
{
    let order = Order {
        job: Job {
            file_hash,
            byte_range: part,
            config: *config,
        },
        policy: Steady { size: 0 },
        progress: None,
    };
    let mut core = RunCore::<ToldEvents>::new(alloc);
    let mut budget = FixedBudget {
        limit: config.download_buffer_size,
    };
    let answer = run(
        rt,
        alloc,
        &OpenGate,
        order,
        &mut core,
        &mut budget,
        clients,
        cache,
        cancel,
        file,
    );
    core.check_history();
    Ran {
        count: core.written(),
        answer,
    }
}

/// What a run of a part makes of it.
fn ended(part: FileRange, ran: Ran) -> std::result::Result<(), Stopped>
    requires { part.start < part.end }
    ensures { result ≡ ended_by part ran.count ran.answer }
{
    let expected = part.end - part.start;
    match ran.answer {
        Ok(actual) => {
            if actual == expected {
                return Ok(());
            }
            Err(Stopped {
                count: ran.count,
                error: ResumeError::Short { expected, actual },
            })
        }
        Err(error) => Err(Stopped {
            count: ran.count,
            error: ResumeError::from(error),
        }),
    }
}

/// What it makes of a part that the file's place could not be set.
fn unplaced(error: SinkError) -> Stopped
    ensures { result ≡ record { count = 0; error = of_run (of_sink_error error) } }
{
    Stopped {
        count: 0,
        error: ResumeError::from(FileReconstructionError::from(error)),
    }
}

/// Reads a part into the file at its place. An error comes with how many bytes of the part were counted as written.
pub(crate) fn fill_part<R, C, K, X, F>(
    rt: &R,
    alloc: Global,
    file_hash: MerkleHash,
    part: FileRange,
    config: &ReconstructionConfig,
    clients: &mut [C],
    cache: &mut K,
    cancel: &mut X,
    file: &mut F,
) -> std::result::Result<(), Stopped>
where
    R: Threads + Wait + Sync,
    C: Client + Send,
    K: ChunkCache,
    X: CancelSignal,
    F: PlaceSink,
    requires some { part.start < part.end }
    requires settings { refused_setting (setup_of file_hash part config.now) (map C.told clients.old) ≡ None }
    ensures { PartAnswer config.now file_hash part
        (lent_of C.told K.told X.told F.told clients.old cache.old cancel.old file.old)
        (lent_of C.told K.told X.told F.told clients.new cache.new cancel.new file.new) result }
{
    match set_place(file, part.start) {
        Ok(()) => {
            let ran = run_part(
                rt, alloc, file_hash, part, config, clients, cache, cancel, file,
            );
            ended(part, ran)
        }
        Err(error) => Err(unplaced(error)),
    }
}
