//! Jobs that are begun in a session.
ghost use Rattle.std.specs.Prelude.{◌≡◌, IfOk, Some, length};
ghost use Rattle.xet_upload_session.specs.Telling.{told_by};
ghost use Rattle.xet_clean.specs.Cleaners.{started};
ghost use Rattle.xet_jobs.specs.Jobs.{IsNewJob, Spawns, file_of};
ghost use Rattle.xet_jobs.specs.Telling.{Waits, job_of};

use crate::job::{UploadJob, piece_room};
use std::alloc::Global;
use std::sync::Wait;
use xet_base::{Invalid, UniqueID};
use xet_clean::start_clean;
use xet_outside::Source;
use xet_shards::ShardStore;
use xet_sinks::VecSource;
use xet_upload::{Cutter, DataError, Sha256Policy};
use xet_upload_session::FileUploadSession;
use xet_uploader::Uploader;

/// Begins a file of this name and this length, and answers the id of its item and the job that uploads it from this
/// source. Nothing is read yet. A source with more bytes makes the job fail, one with fewer ends its file early.
/// `sha256` says which SHA-256 is recorded, the cutter where chunks end.
///
/// `Finalized` exactly where the session is finalized. `OutOfMemory` where an allocation was refused; where memory for
/// the job's piece was, nothing is begun. Else `IdsUsedUp` exactly where no id is left, else `SumTooGreat` where the
/// sum of all files' sizes would pass `u64::MAX`.
///
/// In the Rust crate xet-data: `FileUploadSession::spawn_upload_from_path`, which opens the path and starts a task.
pub fn spawn_upload_from_path<U: Uploader, R: ShardStore, W: Wait, I: Source + Drop, T: Cutter>(
    session: &mut FileUploadSession<U, R>,
    rt: &W,
    alloc: Global,
    name: &str,
    source: I,
    length: u64,
    sha256: Sha256Policy,
    cutter: T,
) -> Result<(UniqueID, UploadJob<I, T>), DataError>
where
    T: Drop,
    ensures same { told_by session.new ≡ told_by session.old }
    ensures job { IfOk result (λ r. IsNewJob (job_of r.1) (I.told source) length sha256 (T.told cutter)) }
    ensures waits { IfOk result (λ r. Waits r.1) }
    ensures spawns { Spawns session.old.files.tracker session.new.files.tracker session.old.ids session.new.ids
        session.old.finalized (Some length) (started (λ r. (r.0, file_of (job_of r.1))) result) }
    ensures group { session.new.progress ≡ session.old.progress }
{
    if session.is_finalized() {
        return Err(DataError::InvalidOperation(Invalid::Finalized));
    }
    let buffer = piece_room(alloc)?;
    let size = Some(length);
    let (id, cleaner) = start_clean(session, rt, alloc, Some(name), size, sha256, cutter)?;
    Ok((id, UploadJob::new(source, cleaner, buffer)))
}

/// The same of these bytes, whose number is the file's length. `tracking_name` is the name of the file's item, empty
/// where none is given.
///
/// In the Rust crate xet-data: `FileUploadSession::spawn_upload_bytes`.
pub fn spawn_upload_bytes<U: Uploader, R: ShardStore, W: Wait, T: Cutter>(
    session: &mut FileUploadSession<U, R>,
    rt: &W,
    alloc: Global,
    bytes: Vec<u8>,
    sha256: Sha256Policy,
    tracking_name: Option<&str>,
    cutter: T,
) -> Result<(UniqueID, UploadJob<VecSource, T>), DataError>
where
    T: Drop,
    ensures same { told_by session.new ≡ told_by session.old }
    ensures job { IfOk result (λ r. IsNewJob (job_of r.1) (record { left = Some bytes.items; faults = 0 })
        (length bytes.items) sha256 (T.told cutter)) }
    ensures waits { IfOk result (λ r. Waits r.1) }
    ensures spawns { Spawns session.old.files.tracker session.new.files.tracker session.old.ids session.new.ids
        session.old.finalized (Some (length bytes.items)) (started (λ r. (r.0, file_of (job_of r.1))) result) }
    ensures group { session.new.progress ≡ session.old.progress }
{
    let name = tracking_name.unwrap_or("");
    let length = bytes.len() as u64;
    let source = VecSource::new(bytes);
    spawn_upload_from_path(session, rt, alloc, name, source, length, sha256, cutter)
}
