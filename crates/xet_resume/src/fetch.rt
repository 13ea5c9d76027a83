//! Fetches what is missing of a range.
ghost use Rattle.xet_reconstruct.specs.Lent.{lent_of};
ghost use Rattle.xet_resume.specs.Fetches.{FetchCall};

use crate::filling::fill;
use crate::resume_error::ResumeError;
use std::alloc::Global;
use std::sync::Wait;
use std::thread::Threads;
use xet_base::FileRange;
use xet_error::FileReconstructionError;
use xet_gaps::GapRecord;
use xet_outside::{CancelSignal, ChunkCache, Client, PlaceSink};
use xet_terms::ReconstructionConfig;

/// Reads each part of the range that is missing, in order, each by a run of its own at its own place of the file, and
/// takes from the gaps what the run's core counts as written. Answers how many bytes were taken from them. An empty or
/// reversed range asks nothing.
///
/// Memory for the record is taken first, so that a byte that was written is marked. A call costs the parts that it
/// reads, two binary searches, and one move of the gaps behind them.
///
/// - `Run` with a failing setting before all else, also where nothing is missing; else with the error of a part's run,
///   by its cause. The file's faults count as the writer's, those of setting its place among them.
/// - `Short` exactly where a part's run answered Ok with another number of bytes than the part has; over connections
///   and a cache that tell one valid store only where its file has another length than the record says.
/// - `OutOfMemory` where memory was refused: for the record, and then nothing was asked, by a run or by the file.
///
/// Whatever the answer, what isn't missing stands in the file, if nobody else writes it. A file that is stored and
/// longer than the record says isn't noticed.
///
/// The Rust crate has no such call.
pub fn fetch_range<R, C, K, X, F>(
    rt: &R,
    alloc: Global,
    gaps: &mut GapRecord,
    range: FileRange,
    config: &ReconstructionConfig,
    clients: &mut [C],
    cache: &mut K,
    cancel: &mut X,
    file: &mut F,
) -> Result<u64, ResumeError>
where
    R: Threads + Wait + Sync,
    C: Client + Send,
    K: ChunkCache,
    X: CancelSignal,
    F: PlaceSink,
    ensures { FetchCall config.now range gaps.old gaps.new
        (lent_of C.told K.told X.told F.told clients.old cache.old cancel.old file.old)
        (lent_of C.told K.told X.told F.told clients.new cache.new cancel.new file.new) result }
{
    match config.failing_setting(clients.len()) {
        Some(setting) => {
            let error = FileReconstructionError::ConfigurationError(setting);
            return Err(ResumeError::Run(error));
        }
        None => {}
    }
    let Ok(roomy) = gaps.take_roomy(alloc) else {
        return Err(ResumeError::OutOfMemory);
    };
    let filled = fill(
        rt,
        alloc,
        roomy.file(),
        roomy.touched(range),
        range,
        config,
        clients,
        cache,
        cancel,
        file,
    );
    *gaps = roomy.mark(FileRange {
        start: range.start,
        end: filled.reached,
    });
    filled.answer
}
