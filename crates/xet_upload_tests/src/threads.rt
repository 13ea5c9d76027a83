//! Two threads call one tracker, each with a pass.
ghost use Rattle.std.specs.Prelude.{◌≡◌, ◌^◌};

use crate::rows::{comes_to, show};
use crate::tracker::add_file;
use std::alloc::Global;
use std::marker::Brand;
use std::sync::ledger::{Blank, Ledger};
use std::sync::{Arc, Wait};
use std::thread::{Threads, join_mut};
use xet_base::{MerkleHash, OutOfMemory};
use xet_progress::{CompletionTracker, FileXorbDependency, GroupProgress, TrackerPass};

/// A byte of the first file, in a xorb that was put before.
const BYTE: FileXorbDependency = FileXorbDependency {
    file_id: 0,
    xorb_hash: MerkleHash([1; 32]),
    n_bytes: 1,
    is_external: true,
};

/// What both threads share.
#[derive(Drop)]
struct Shared<'a, R, L: Ledger> {
    rt: &'a R,
    alloc: Global,
    tracker: &'a CompletionTracker<L>,
}

/// Makes 100 calls by a pass. How many were accepted.
fn depend<L: Ledger, R: Wait>(shared: &Shared<'_, R, L>, pass: &mut TrackerPass<L>) -> u64 {
    let mut count = 0u64;
    for _ in 0..100u8 {
        let answer = shared
            .tracker
            .register_dependencies(shared.rt, shared.alloc, pass, &[BYTE]);
        if answer.is_ok() {
            count = count.saturating_add(1);
        }
    }
    count
}

/// The same by two passes, each in a thread.
fn depend_by_two<L: Ledger + Send + Sync, R: Threads + Wait + Sync>(
    shared: &Shared<'_, R, L>,
    one: &mut TrackerPass<L>,
    other: &mut TrackerPass<L>,
) -> (u64, u64) {
    let mut first = || depend(shared, one);
    let mut second = || depend(shared, other);
    join_mut(shared.rt, &mut first, &mut second)
}

/// Registers a file of 200 bytes, makes the calls, gathers the passes, asks for the sums, and closes the tracker. Shows
/// the answers, what the passes count, and how many calls were kept.
fn ended<L: Ledger + Send + Sync, R: Threads + Wait + Sync>(
    rt: &R,
    alloc: Global,
    tracker: CompletionTracker<L>,
    mut pass: TrackerPass<L>,
    group: &Arc<GroupProgress>,
    told: &mut String,
)
    requires { pass.parts ≡ 2 ^ 32 }
{
    let mut other = pass.split(1);
    let file = add_file(rt, alloc, &tracker, &mut pass, group, Some(200));
    show(told, &file);
    let shared = Shared {
        rt,
        alloc,
        tracker: &tracker,
    };
    show(told, &depend_by_two(&shared, &mut pass, &mut other));
    pass.gather(other);
    show(told, &tracker.status(rt, alloc, &mut pass));
    let counts = (pass.parts(), pass.calls());
    let history = tracker.close(pass);
    show(told, &(counts.0, counts.1, history.as_slice().len()));
}

/// On a tracker of a group.
fn tracked<L: Ledger + Send + Sync, R: Threads + Wait + Sync>(
    rt: &R,
    alloc: Global,
    blank: Blank,
    group: &Arc<GroupProgress>,
    told: &mut String,
) -> Result<(), OutOfMemory>
    requires name { blank.name ≡ L.name }
    requires parts { blank.parts ≡ L.parts }
    requires all { L.parts ≡ 2 ^ 32 }
{
    let (tracker, pass) = GroupProgress::new_completion_tracker::<L>(group, alloc, blank)?;
    ended(rt, alloc, tracker, pass, group, told);
    Ok(())
}

/// On a tracker with a name of its own.
fn of_own_tracker<R: Threads + Wait + Sync>(
    rt: &R,
    alloc: Global,
    told: &mut String,
) -> Result<(), OutOfMemory> {
    let group = GroupProgress::new(alloc)?;
    tracked::<Brand, R>(rt, alloc, Blank::new(1 << 32), &group, told)
}

#[test]
fn two_threads_share_a_tracker(rt: HostRuntime) {
    let mut told = String::new(rt.alloc());
    if of_own_tracker(&rt, rt.alloc(), &mut told).is_err() {
        show(&mut told, &OutOfMemory);
    }
    let wanted = " Ok(0) (100, 100) Ok((200, 200)) (4294967296, 202, 202)";
    comes_to(&rt, "threads", told, wanted);
}
