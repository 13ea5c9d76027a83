//! The end of a session, behind the cut of what waits.
ghost use Rattle.std.specs.Prelude.{◌≡◌, IfOk, map};
ghost use Rattle.xet_shard_interface.specs.Interfaces.{AddsRecords, shards_told};
ghost use Rattle.xet_session_end.specs.Ends.{EndsBehind, end_counts, files_alone};

use std::alloc::Global;
use xet_base::{List, MDBFileInfo, OutOfMemory};
use xet_outside::ClientError;
use xet_shard_interface::SessionShardInterface;
use xet_shards::ShardStore;
use xet_upload::{DataError, DeduplicationMetrics, PendingFile};
use xet_uploader::Uploader;

// The records of the files.
fn file_records(alloc: Global, files: &[PendingFile]) -> Result<List<MDBFileInfo>, OutOfMemory>
    ensures { IfOk result (λ records. records ≡ map (λ p. p.info) files.now) }
{
    let mut infos = List::new(alloc);
    for file in files {
        infos.push(file.info.copied(alloc)?)?;
    }
    Ok(infos)
}

// Adds the records of the files to those of the session.
fn add_finished<R: ShardStore>(
    alloc: Global,
    shards: &mut SessionShardInterface<R>,
    finished: &[PendingFile],
) -> Result<(), DataError>
    ensures { AddsRecords (shards_told R.told shards.old) (shards_told R.told shards.new)
        (files_alone (map (λ p. p.info) finished.now)) result }
{
    let records = file_records(alloc, finished)?;
    shards.add_files(alloc, records)
}

// The counts with those of shards of so many bytes.
fn count_shards(metrics: &mut DeduplicationMetrics, bytes: u64)
    ensures { metrics.new ≡ end_counts metrics.old bytes }
{
    metrics.shard_bytes_uploaded = bytes;
    metrics.total_bytes_uploaded = metrics.xorb_bytes_uploaded.saturating_add(bytes);
}

/// Ends a session behind the cut of what waits, by that cut's answer: after one that failed it does nothing, and
/// answers the same error. Else the records of the finished files come behind those of the session, all are put as
/// shards, and the counts are taken last. A dry run puts no records. A failed put of a shard is kept in `failed`.
///
/// `OutOfMemory` where an allocation was refused. `ClientError` only where a put failed, and `IOError` only where a
/// store of records failed, or by the cut.
///
/// In the Rust crate xet-data: the end of `FileUploadSession::finalize`.
pub fn end_session<U: Uploader, R: ShardStore>(
    alloc: Global,
    uploader: &mut U,
    shards: &mut SessionShardInterface<R>,
    finished: &[PendingFile],
    metrics: &mut DeduplicationMetrics,
    failed: &mut Option<ClientError>,
    cut: Result<(), DataError>,
) -> Result<DeduplicationMetrics, DataError>
    ensures { EndsBehind
        (record {
          uploader = U.told uploader.old;
          shards = shards_told R.told shards.old;
          metrics = metrics.old;
          failed = failed.old;
        })
        (record {
          uploader = U.told uploader.new;
          shards = shards_told R.told shards.new;
          metrics = metrics.new;
          failed = failed.new;
        })
        (map (λ p. p.info) finished.now) cut result }
{
    cut?;
    add_finished(alloc, shards, finished)?;
    let bytes = shards.upload_shards(alloc, uploader, failed)?;
    count_shards(metrics, bytes);
    Ok(*metrics)
}
