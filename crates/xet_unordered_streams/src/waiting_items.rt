//! Pulls of the unordered stream until a piece is there, and what its progress has.
ghost use Rattle.std.specs.Prelude.{◌≡◌, None, length, map, min, ◌-◌, ◌^◌};
ghost use Rattle.std.specs.List.{sum_by};
ghost use Rattle.xet_events.specs.Events.{size};
ghost use Rattle.xet_stream_rules.specs.Unordered.{awaited};
ghost use Rattle.xet_unordered_streams.specs.Items.{ItemWaitCall};
ghost use Rattle.xet_unordered_streams.specs.steps.Pulling.{IsFreeCaught};
ghost use Rattle.xet_unordered_streams.specs.steps.Waiting.{NextInOrder};

use crate::awaited_terms::all_awaited;
use crate::unordered_download_stream::UnorderedDownloadStream;
use bytes::Bytes;
use std::alloc::Global;
use std::sync::Wait;
use xet_blocks::FetchPolicy;
use xet_error::Result;
use xet_outside::{ChunkCache, Client};
use xet_progress::{Incomplete, ItemProgressUpdater};
use xet_stream_rules::Step;

impl<P: FetchPolicy + Drop> UnorderedDownloadStream<P> {
    /// Takes steps until one isn't pending: a piece and its place, or none at the end. The errors are those of `next`.
    /// After as many pending steps as may be its steps are in order, of which fewer are left each time.
    ///
    /// In the Rust crate: `UnorderedDownloadStream::blocking_next`.
    pub fn blocking_next<R: Wait, C: Client, K: ChunkCache>(
        &mut self,
        rt: &R,
        alloc: Global,
        clients: &mut [C],
        cache: &mut K,
    ) -> Result<Option<(u64, Bytes)>>
        ensures { ItemWaitCall self.old self.new (map C.told clients.old) (map C.told clients.new) (K.told cache.old)
            (K.told cache.new) result }
    {
        'any: for _ in 0..MOST_WAITS {
            match self.next(rt, alloc, clients, cache) {
                Ok(Step::Ready(item)) => return Ok(item),
                Ok(Step::Pending) => {}
                Err(error) => return Err(error),
            }
        }
        self.wait_in_order(rt, alloc, clients, cache)
    }
}

impl<P: FetchPolicy + Drop> UnorderedDownloadStream<P> {
    /// Takes steps in order until one isn't pending.
    fn wait_in_order<R: Wait, C: Client, K: ChunkCache>(
        &mut self,
        rt: &R,
        alloc: Global,
        clients: &mut [C],
        cache: &mut K,
    ) -> Result<Option<(u64, Bytes)>>
        requires { IsFreeCaught self.old }
        ensures { ItemWaitCall self.old self.new (map C.told clients.old) (map C.told clients.new) (K.told cache.old)
            (K.told cache.new) result }
    {
        'wait: loop {
            match self.next_in_order(rt, alloc, clients, cache) {
                Ok(Step::Ready(item)) => return Ok(item),
                Ok(Step::Pending) => {}
                Err(error) => return Err(error),
            }
        }
    }

    /// A step in order, of which fewer are left after each that is pending.
    fn next_in_order<R: Wait, C: Client, K: ChunkCache>(
        &mut self,
        rt: &R,
        alloc: Global,
        clients: &mut [C],
        cache: &mut K,
    ) -> Result<Step<Option<(u64, Bytes)>>>
        requires { IsFreeCaught self.old }
        ensures { NextInOrder self.old self.new (map C.told clients.old) (map C.told clients.new) (K.told cache.old)
            (K.told cache.new) result }
    {
        let answer = self.pull_in_order(rt, alloc, clients, cache);
        self.check_places();
        answer
    }
}

/// After so many pending steps a pull that waits goes on in order.
const MOST_WAITS: u32 = 1 << 20;

impl<P: FetchPolicy> UnorderedDownloadStream<P> {
    /// How many bytes the item of its progress expects so far; 0 where it reports to nobody. It waits for the
    /// progress's lock, of which no clause speaks.
    ///
    /// In the Rust crate: `UnorderedDownloadStream::total_bytes_expected`.
    pub fn total_bytes_expected<R: Wait>(&self, rt: &R) -> u64 {
        match self.stepper.progress() {
            Some(progress) => expected(rt, progress),
            None => 0,
        }
    }

    /// How many bytes the item of its progress has of these; 0 where it reports to nobody. It waits for that lock.
    ///
    /// In the Rust crate: `UnorderedDownloadStream::bytes_completed`.
    pub fn bytes_completed<R: Wait>(&self, rt: &R) -> u64 {
        match self.stepper.progress() {
            Some(progress) => progress.total_bytes_completed(rt),
            None => 0,
        }
    }

    /// How many admitted terms with bytes wait for their block; 0 after an error. It takes linear time in the admitted
    /// terms.
    ///
    /// In the Rust crate: `UnorderedDownloadStream::terms_in_progress`.
    pub fn terms_in_progress(&self) -> u64
        ensures waits { self.now.stream.told_error ≡ None → result ≡ length (awaited self.now.stream.events) }
        ensures failed { (self.now.stream.told_error ≡ None → ⊥) → result ≡ 0 }
    {
        all_awaited(&self.stepper).terms
    }

    /// How many bytes these terms have, a sum that stops at `u64::MAX`.
    ///
    /// In the Rust crate: `UnorderedDownloadStream::bytes_in_progress`.
    pub fn bytes_in_progress(&self) -> u64
        ensures waits { self.now.stream.told_error ≡ None
            → result ≡ min (sum_by size (awaited self.now.stream.events)) (2 ^ 64 - 1) }
        ensures failed { (self.now.stream.told_error ≡ None → ⊥) → result ≡ 0 }
    {
        all_awaited(&self.stepper).bytes
    }
}

/// The total of an item, which is what is completed where no byte is missing.
fn expected<R: Wait>(rt: &R, progress: &ItemProgressUpdater) -> u64 {
    match progress.assert_complete(rt) {
        Err(Incomplete::Bytes { total, .. }) => total,
        _ => progress.total_bytes_completed(rt),
    }
}
