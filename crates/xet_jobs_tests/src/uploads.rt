//! Jobs that share a session.
ghost use Rattle.std.specs.Prelude.{◌≡◌, ◌<◌, IsSome, None};

use crate::contents::{comes_back, content};
use crate::orders::is_ordered;
use crate::sessions::{Session, session};
use std::alloc::Global;
use std::mem;
use std::sync::{Mutex, Wait};
use std::thread::{Threads, for_each_mut};
use xet_jobs::{UploadJob, spawn_upload_bytes};
use xet_pointer::XetFileInfo;
use xet_sinks::VecSource;
use xet_store::MemStore;
use xet_upload::{FixedCutter, Sha256Policy};

/// A job over bytes in memory.
type Job = UploadJob<VecSource, FixedCutter>;

/// A job that was not run.
#[derive(Drop)]
struct Waiting {
    job: Job,
    ghost runs: { IsSome job.cleaner },
    ghost empty: { job.ready ≡ None },
}

/// A file's job, and then its pointer, or none where the job failed.
#[derive(Drop)]
enum Upload {
    Waits(Waiting),
    Ended(Option<XetFileInfo>),
}

/// Files, over how many threads their jobs run, above how many waiting bytes a xorb is put, and which put fails.
#[derive(Clone, Copy)]
pub struct Row<'a> {
    pub threads: usize,
    pub cut: u64,
    pub put: Option<u64>,
    pub files: &'a str,
}

/// The job of a file in chunks of 1000 bytes.
fn spawned<W: Wait>(rt: &W, alloc: Global, session: &mut Session, bytes: Vec<u8>) -> Upload {
    let cutter = FixedCutter { size: 1000 };
    match spawn_upload_bytes(session, rt, alloc, bytes, Sha256Policy::Skip, None, cutter) {
        Ok((_id, job)) => Upload::Waits(Waiting { job }),
        Err(_) => Upload::Ended(None),
    }
}

/// The jobs of all files.
fn all_spawned<W: Wait>(rt: &W, alloc: Global, session: &mut Session, files: &str) -> Vec<Upload> {
    let mut uploads = Vec::new(alloc);
    for (file, word) in files.split(' ').enumerate() {
        let _ = uploads.push(spawned(rt, alloc, session, content(alloc, file, word)));
    }
    uploads
}

/// Runs a job to its end.
fn ran<W: Wait>(
    rt: &W,
    alloc: Global,
    session: &Mutex<Session>,
    waiting: Waiting,
) -> Option<XetFileInfo> {
    let mut job = waiting.job;
    match job.run(session, rt, alloc, 0) {
        Ok((info, _counts)) => Some(info),
        Err(_) => None,
    }
}

/// Runs a job, if it waits.
fn run<W: Wait>(rt: &W, alloc: Global, session: &Mutex<Session>, upload: &mut Upload) {
    if let Upload::Waits(waiting) = mem::replace(upload, Upload::Ended(None)) {
        *upload = Upload::Ended(ran(rt, alloc, session, waiting));
    }
}

/// Runs all jobs on this many threads.
fn run_all<W: Threads + Wait + Sync>(
    rt: &W,
    alloc: Global,
    threads: usize,
    session: &Mutex<Session>,
    uploads: &mut [Upload],
)
    requires { 0 < threads }
{
    for_each_mut(
        rt,
        uploads,
        threads,
        &|_, upload| run(rt, alloc, session, upload),
    );
}

/// Ends a session. It tells how many puts were accepted by then where this fails, and answers whether the puts are in
/// order.
fn finalized<W: Wait>(rt: &W, alloc: Global, session: &mut Session, told: &mut String) -> bool {
    let answer = session.finalize(rt, alloc, 0);
    let log = session.uploader().log();
    let _ = match answer {
        Ok(_) => told.push_str("Ok"),
        Err(error) => write!(told, "{error:?} after {}", log.len()),
    };
    is_ordered(log)
}

/// Tells how many files come back.
fn tell_back<W: Threads + Wait + Sync>(
    rt: &W,
    alloc: Global,
    store: &MemStore,
    uploads: &[Upload],
    files: &str,
    told: &mut String,
) {
    let mut count = 0usize;
    for (file, word) in files.split(' ').enumerate() {
        let bytes = content(alloc, file, word);
        if let Some(Upload::Ended(Some(info))) = uploads.get(file)
            && comes_back(rt, alloc, store, info, bytes.as_slice())
        {
            count = count.saturating_add(1);
        }
    }
    let _ = write!(told, ", {count} of {} back", uploads.len());
}

/// Ends the session, tells what that answers and how many files come back, and answers whether the puts are in order.
fn ended<W: Threads + Wait + Sync>(
    rt: &W,
    alloc: Global,
    session: Mutex<Session>,
    uploads: &[Upload],
    files: &str,
    told: &mut String,
) -> bool {
    let mut session = session.into_inner();
    let ordered = finalized(rt, alloc, &mut session, told);
    let (uploader, _stores) = session.into_parts();
    if let Ok(Some(store)) = uploader.into_store(alloc) {
        tell_back(rt, alloc, &store, uploads, files, told);
    }
    ordered
}

/// Uploads the files of a row by jobs that share a session, and then ends it. It tells what the end answers and how
/// many files come back, and answers whether the session's puts are in order.
pub fn uploaded<W: Threads + Wait + Sync>(
    rt: &W,
    alloc: Global,
    row: Row<'_>,
    told: &mut String,
) -> bool {
    let Ok(mut session) = session(alloc, row.cut, row.put) else {
        return true;
    };
    let mut uploads = all_spawned(rt, alloc, &mut session, row.files);
    let session = Mutex::new(session);
    run_all(
        rt,
        alloc,
        row.threads.max(1),
        &session,
        uploads.as_mut_slice(),
    );
    ended(rt, alloc, session, uploads.as_slice(), row.files, told)
}
