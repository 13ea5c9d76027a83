//! The end of a file in a session that threads share.
ghost use Rattle.xet_clean.specs.Showing.{cleaner_of};
ghost use Rattle.xet_jobs.specs.steps.Held.{HeldFinish};

use std::alloc::Global;
use std::sync::{Mutex, Wait};
use xet_clean::SingleFileCleaner;
use xet_pointer::XetFileInfo;
use xet_shards::ShardStore;
use xet_upload::{Cutter, DataError, DeduplicationMetrics};
use xet_upload_session::FileUploadSession;
use xet_uploader::Uploader;

// Ends the file of a cleaner under one hold of the lock.
pub(crate) fn held_finish<U: Uploader, R: ShardStore, W: Wait, T: Cutter + Drop>(
    session: &Mutex<FileUploadSession<U, R>>,
    rt: &W,
    alloc: Global,
    cleaner: SingleFileCleaner<T>,
    now: u64,
) -> Result<(XetFileInfo, DeduplicationMetrics), DataError>
    ensures { HeldFinish now (cleaner_of T.told cleaner) result }
{
    let mut held = session.lock(rt);
    let found = &mut *held;
    // its clause is what the session's type keeps
    let _is_finalized = found.is_finalized();
    cleaner.finish(found, rt, alloc, now)
}
