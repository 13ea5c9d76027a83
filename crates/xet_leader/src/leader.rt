//! What a leader keeps between the parts of its turns.
ghost use Rattle.std.specs.Prelude.{◌≡◌, IfErr, IfOk};
ghost use Rattle.xet_terms.specs.Managers.{IsManager};

use std::alloc::Global;
use std::collections::VecDeque;
use std::marker::Model;
use xet_base::{FileRange, MerkleHash};
use xet_error::{FileReconstructionError, Result};
use xet_progress::ItemProgressUpdater;
use xet_terms::{FetchPolicy, ReconstructionConfig, ReconstructionTermManager, TermBlock};

/// What a run is for.
#[derive(Clone, Copy, PartialEq, Eq)]
pub struct Job {
    /// The file.
    pub file_hash: MerkleHash,
    /// The bytes of the file that are downloaded, half open.
    pub byte_range: FileRange,
    /// The settings.
    pub config: ReconstructionConfig,
}

/// A plan whose terms aren't all written.
#[derive(Drop)]
pub struct LedPlan {
    /// Its number, from 1.
    pub number: u64,
    /// How many planned terms come before its own.
    pub first: u64,
    /// Its terms and blocks, with what the blocks keep, and its URLs.
    pub block: TermBlock,
    /// How often the URL of each block had expired.
    pub tries: Vec<u32>,
}

/// What a leader keeps: the manager of queries, the plans whose terms aren't all written, and where it stands among
/// the planned terms. Contracts see it as a `Led` of `specs/Led`.
#[derive(Drop)]
pub struct Leader<P: FetchPolicy> {
    pub manager: ReconstructionTermManager<P>,
    // oldest first; their numbers follow one another
    pub plans: VecDeque<LedPlan>,
    // the planned, admitted and wholly written terms
    pub planned: u64,
    pub admitted: u64,
    pub finished: u64,
    // the number of the next fetch
    pub fetches: u64,
    pub progress: Option<ItemProgressUpdater>,
}

impl<P: FetchPolicy> Model for Leader<P> {
    ghost use Rattle.xet_leader.specs.Led.{Led};
    ghost use Rattle.xet_terms.specs.Managers.{IsManager};

    ghost Value = { Led };

    ghost view = { λ l. record {
      manager = l.manager;
      plans = l.plans.items;
      planned = l.planned;
      admitted = l.admitted;
      finished = l.finished;
      fetches = l.fetches;
    } };

    ghost invariant = { λ l. IsManager l.manager };
}

impl<P: FetchPolicy + Drop> Leader<P> {
    ghost use Rattle.std.specs.Prelude.{◌≡◌, Err, IfErr, IfOk, MatchOption};
    ghost use Rattle.xet_terms.specs.Settings.{failing_size_of};
    ghost use Rattle.xet_leader.specs.Starts.{LeadStarts, first_led};

    /// A leader at the start of a run: nothing is planned, and the first two queries are scheduled. With progress it
    /// reports what is planned, transferred and written.
    ///
    /// `ConfigurationError` exactly where a fetch size of the settings fails, with the first that does. `OutOfMemory`
    /// where an allocation was refused.
    pub fn new(
        alloc: Global,
        job: &Job,
        policy: P,
        progress: Option<ItemProgressUpdater>,
    ) -> Result<Leader<P>>
        ensures fails { MatchOption (failing_size_of job.now.config)
            (IfErr result (λ e. e ≡ FileReconstructionError.OutOfMemory))
            (λ s. result ≡ Err (FileReconstructionError.ConfigurationError s)) }
        ensures begun { IfOk result (λ l. l ≡ first_led job.now progress) }
        ensures starts { IfOk result (λ l. LeadStarts job.now l) }
    {
        if let Some(setting) = job.config.failing_size() {
            return Err(FileReconstructionError::ConfigurationError(setting));
        }
        let shared = shared(&progress)?;
        let manager = ReconstructionTermManager::new(
            alloc,
            &job.config,
            job.file_hash,
            job.byte_range,
            policy,
            shared,
        )?;
        check_manager(&manager);
        Ok(Leader {
            manager,
            plans: VecDeque::new(alloc),
            planned: 0,
            admitted: 0,
            finished: 0,
            fetches: 0,
            progress,
        })
    }
}

/// What a manager keeps holds of it.
pub fn check_manager<P: FetchPolicy>(manager: &ReconstructionTermManager<P>)
    ensures { IsManager manager.now }
{
    let _ = manager.queries();
}

/// Another updater of the item, where there is one.
fn shared(progress: &Option<ItemProgressUpdater>) -> Result<Option<ItemProgressUpdater>>
    ensures same { IfOk result (λ other. other ≡ progress.now) }
    ensures memory { IfErr result (λ e. e ≡ FileReconstructionError.OutOfMemory) }
{
    match progress {
        None => Ok(None),
        Some(updater) => match updater.share() {
            Ok(other) => Ok(Some(other)),
            Err(_) => Err(FileReconstructionError::OutOfMemory),
        },
    }
}
