//! A job's session is free while the job reads.
ghost use Rattle.xet_outside.specs.Told.{ReadCall};

use crate::contents::counted;
use crate::sessions::{Session, session};
use std::alloc::Global;
use std::sync::{Mutex, Wait};
use xet_jobs::spawn_upload_from_path;
use xet_outside::{Source, SourceFault};
use xet_sinks::VecSource;
use xet_upload::{DataError, FixedCutter, Sha256Policy};

/// Bytes in memory, of which each read sees whether the lock of a session is held.
#[derive(Drop)]
struct Watch<'a> {
    bytes: VecSource,
    session: &'a Mutex<Session>,
    reads: u64,
    held: u64,
}

impl Source for Watch<'_> {
    ghost told = { λ s. ⟦<VecSource as Source>⟧.told s.bytes };

    fn read(&mut self, into: &mut [u8]) -> Result<usize, SourceFault> {
        self.reads = self.reads.saturating_add(1);
        if self.session.try_lock().is_none() {
            self.held = self.held.saturating_add(1);
        }
        self.bytes.read(into)
    }
}

/// Runs a job, and says how often it read, and how often the lock was held then.
fn told<W: Wait>(
    rt: &W,
    alloc: Global,
    session: &Mutex<Session>,
    bytes: Vec<u8>,
) -> Result<(u64, u64), DataError> {
    let length = bytes.len() as u64;
    let source = Watch {
        bytes: VecSource::new(bytes),
        session,
        reads: 0,
        held: 0,
    };
    let cutter = FixedCutter { size: 1000 };
    let spawned = spawn_upload_from_path(
        &mut *session.lock(rt),
        rt,
        alloc,
        "watched",
        source,
        length,
        Sha256Policy::Compute,
        cutter,
    );
    match spawned {
        Ok((_id, mut job)) => match job.run(session, rt, alloc, 0) {
            Ok(_) => Ok((job.source().reads, job.source().held)),
            Err(error) => Err(error),
        },
        Err(error) => Err(error),
    }
}

/// Of a file of two pieces and a byte.
fn watched<W: Wait>(rt: &W, alloc: Global) -> Result<(u64, u64), DataError> {
    let session = Mutex::new(session(alloc, 50_000, None)?);
    told(rt, alloc, &session, counted(alloc, 0, 131_073))
}

#[test]
fn the_lock_is_free_at_each_read(rt: HostRuntime) {
    let told = watched(&rt, rt.alloc());
    assert!(rt; told == Ok((4, 0)), "{told:?}");
}
