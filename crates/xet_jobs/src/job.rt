//! An upload as a job.
ghost use Rattle.std.specs.Prelude.{◌≡◌, ◌↔◌, ◌≤◌, IfOk, IsTrue, None, OnOk, Some, unwrap_or, vec_len};
ghost use Rattle.xet_upload_session.specs.Telling.{KeepsGroup};
ghost use Rattle.xet_jobs.specs.Jobs.{FillCall, HeldStep, RunsJob, StepCall, Turns, piece_size};

use crate::held::held_finish;
use std::alloc::Global;
use std::sync::{Mutex, Wait};
use xet_base::OutOfMemory;
use xet_clean::SingleFileCleaner;
use xet_job_steps::{read_piece, ready_piece};
use xet_outside::Source;
use xet_pointer::XetFileInfo;
use xet_shards::ShardStore;
use xet_upload::{Cutter, DataError, DeduplicationMetrics};
use xet_upload_session::FileUploadSession;
use xet_uploader::Uploader;

/// How many bytes are read at once.
const PIECE: usize = 65_536;

/// A file that is uploaded from its source, piece by piece. It may run on any thread.
///
/// In the Rust crate xet-data: the task of `FileUploadSession::spawn_upload_from_path`.
#[derive(Drop)]
pub struct UploadJob<I: Source, T: Cutter> {
    source: I,
    // none once the job has ended
    cleaner: Option<SingleFileCleaner<T>>,
    buffer: Vec<u8>,
    // how many bytes of the buffer were read, until a step takes them
    ready: Option<usize>,
    ghost room: { vec_len buffer ≡ piece_size },
    ghost within: { unwrap_or ready 0 ≤ piece_size },
}

// Room for one piece.
pub(crate) fn piece_room(alloc: Global) -> Result<Vec<u8>, OutOfMemory>
    ensures { IfOk result (λ room. vec_len room ≡ piece_size) }
{
    Ok(vec![in alloc; 0u8; PIECE]?)
}

impl<I: Source, T: Cutter + Drop> UploadJob<I, T> {
    ghost use Rattle.xet_jobs.specs.Telling.{HasPiece, Waits, job_of, seen_of};

    // A job of which nothing was read, with this room for a piece. It takes no memory.
    pub(crate) fn new(source: I, cleaner: SingleFileCleaner<T>, buffer: Vec<u8>) -> UploadJob<I, T>
        requires { vec_len buffer ≡ piece_size }
        ensures source { result.source ≡ source }
        ensures cleaner { result.cleaner ≡ Some cleaner }
        ensures ready { result.ready ≡ None }
    {
        UploadJob {
            source,
            cleaner: Some(cleaner),
            buffer,
            ready: None,
        }
    }

    /// Reads the next piece of its source, of at most 65,536 bytes. The job has not ended, and no `fill` answered Ok
    /// since the last step. It takes no memory.
    ///
    /// `IOError` only where the source's faults rose; no other error comes. An error ends the job.
    ///
    /// In the Rust crate xet-data: the read of `FileUploadSession::feed_file_to_cleaner`.
    pub fn fill(&mut self) -> Result<(), DataError>
        requires { Waits self.old }
        ensures call { FillCall (job_of self.old) (job_of self.new) result }
        ensures piece { OnOk result (HasPiece self.new) }
    {
        let buffer = self.buffer.as_mut_slice();
        match read_piece(&mut self.source, &mut self.cleaner, buffer, &mut self.ready) {
            Ok(()) => Ok(()),
            Err(fault) => Err(DataError::from(fault)),
        }
    }

    /// Feeds the piece that was read to its cleaner, and answers none; or, where the source had no more bytes, ends
    /// the file, and answers its pointer record and the counts of its chunks. The job has not ended, and `fill`
    /// answered Ok since the last step. `now` is a moment in seconds.
    ///
    /// The errors are those of `SingleFileCleaner::add_data` where there is a piece, and else those of
    /// `SingleFileCleaner::finish`. A piece that passes the length is `PastTotal`, and the session is as it was. An
    /// error ends the job, and so does the end of the file.
    ///
    /// In the Rust crate xet-data: a turn of `FileUploadSession::feed_file_to_cleaner`, and the end behind it.
    pub fn step<U: Uploader, R: ShardStore, W: Wait>(
        &mut self,
        session: &mut FileUploadSession<U, R>,
        rt: &W,
        alloc: Global,
        now: u64,
    ) -> Result<Option<(XetFileInfo, DeduplicationMetrics)>, DataError>
        requires { HasPiece self.old }
        ensures call { StepCall now (seen_of session.old) (seen_of session.new) (job_of self.old) (job_of self.new)
            result }
        ensures waits { IfOk result (λ ended. ended ≡ None → Waits self.new) }
        ensures group { KeepsGroup session.old session.new }
    {
        let (Some(mut cleaner), Some(count)) = (self.cleaner.take(), self.ready.take()) else {
            unreachable!()
        };
        match ready_piece(&self.buffer, count) {
            None => Ok(Some(cleaner.finish(session, rt, alloc, now)?)),
            Some(piece) => {
                cleaner.add_data(session, rt, alloc, piece, now)?;
                self.cleaner = Some(cleaner);
                Ok(None)
            }
        }
    }

    // A step by one hold of the lock. Its piece is hashed before.
    fn held_step<U: Uploader, R: ShardStore, W: Wait>(
        &mut self,
        session: &Mutex<FileUploadSession<U, R>>,
        rt: &W,
        alloc: Global,
        now: u64,
    ) -> Result<Option<(XetFileInfo, DeduplicationMetrics)>, DataError>
        requires { HasPiece self.old }
        ensures call { HeldStep now (job_of self.old) (job_of self.new) result }
        ensures waits { IfOk result (λ ended. ended ≡ None → Waits self.new) }
    {
        let (Some(mut cleaner), Some(count)) = (self.cleaner.take(), self.ready.take()) else {
            unreachable!()
        };
        match ready_piece(&self.buffer, count) {
            None => Ok(Some(held_finish(session, rt, alloc, cleaner, now)?)),
            Some(piece) => {
                cleaner.add_data_shared(session, rt, alloc, piece, now)?;
                self.cleaner = Some(cleaner);
                Ok(None)
            }
        }
    }

    // Reads a piece without the lock, and makes a step by one hold of it.
    fn turn<U: Uploader, R: ShardStore, W: Wait>(
        &mut self,
        session: &Mutex<FileUploadSession<U, R>>,
        rt: &W,
        alloc: Global,
        now: u64,
    ) -> Result<Option<(XetFileInfo, DeduplicationMetrics)>, DataError>
        requires { Waits self.old }
        ensures call { Turns now (job_of self.old) (job_of self.new) result }
        ensures waits { IfOk result (λ ended. ended ≡ None → Waits self.new) }
    {
        self.fill()?;
        self.held_step(session, rt, alloc, now)
    }

    /// Runs the job to its end over a session that threads share: it reads a piece and hashes it without the lock, and
    /// makes the rest of its step under one hold of it, until the file has ended. It answers the file's pointer record
    /// and the counts of its chunks. The job has not ended, and no `fill` answered Ok since the last step. `now` is a
    /// moment in seconds.
    ///
    /// The errors are those of `fill` and of `step`. It waits for the lock.
    ///
    /// In the Rust crate xet-data: the body of the task of `FileUploadSession::spawn_upload_from_path`.
    pub fn run<U: Uploader, R: ShardStore, W: Wait>(
        &mut self,
        session: &Mutex<FileUploadSession<U, R>>,
        rt: &W,
        alloc: Global,
        now: u64,
    ) -> Result<(XetFileInfo, DeduplicationMetrics), DataError>
        requires { Waits self.old }
        ensures { RunsJob now (job_of self.old) (job_of self.new) result }
    {
        'turns: loop {
            match self.turn(session, rt, alloc, now) {
                Ok(None) => {}
                Ok(Some(ended)) => return Ok(ended),
                Err(error) => return Err(error),
            }
        }
    }

    /// Its source.
    pub fn source(&self) -> &I
        ensures { result.now ≡ self.now.source }
    {
        &self.source
    }

    /// Whether it has ended.
    pub fn ended(&self) -> bool
        ensures { IsTrue result ↔ (self.now.cleaner ≡ None) }
    {
        self.cleaner.is_none()
    }
}
