//! Two lanes of which one fails.
use crate::told::{comes_to, tell_answer, tell_log};
use std::alloc::Global;
use std::thread::Threads;
use xet_mirror_lanes::{MirrorLane, mirror_all};
use xet_shelves::{MemShelf, MemTarget};
use xet_store::MemStore;
use xet_store::worked::{FILE_OF_ALL, FILE_OF_TWO_ENDS, worked_store};

// A lane over the worked store and an empty target, whose put with this number fails.
fn lane(alloc: Global, fails: u64) -> MirrorLane<MemShelf, MemTarget> {
    let store = worked_store(alloc).unwrap_or(MemStore::new(alloc));
    let fails = Vec::from_slice(alloc, &[fails]).unwrap_or(Vec::new(alloc));
    MirrorLane::new(
        MemShelf::new(store),
        MemTarget::new(alloc, MemStore::new(alloc), fails),
    )
}

// What a lane came to.
fn tell_lane(text: &mut String, lane: MirrorLane<MemShelf, MemTarget>) {
    if let Some(answer) = lane.result() {
        tell_answer(text, answer);
    }
    let (_, target) = lane.into_parts();
    tell_log(text, target.log());
    let _ = text.push_str("; ");
}

// What two lanes came to.
fn told<R: Threads + Sync>(rt: &R, alloc: Global) -> String {
    let mut text = String::new(alloc);
    let mut lanes = [lane(alloc, 1), lane(alloc, 9)];
    mirror_all(
        rt,
        alloc,
        &mut lanes,
        &[FILE_OF_ALL, FILE_OF_TWO_ENDS],
        false,
    );
    let [first, second] = lanes;
    tell_lane(&mut text, first);
    tell_lane(&mut text, second);
    text
}

#[test]
fn a_lane_that_fails_hinders_no_other(rt: HostRuntime) {
    let text = told(&rt, rt.alloc());
    comes_to(
        &rt,
        "two lanes",
        text.as_str(),
        "ClientError x; files 2 0 xorbs 1 0 bytes 13 x f f; ",
    );
}
