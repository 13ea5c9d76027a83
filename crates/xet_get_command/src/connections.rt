//! Runs over connections to a store, whose blocks go through taps.
ghost use Rattle.std.specs.Prelude.{◌≡◌, ◌≤◌, ◌+◌, ◌++◌, All, IfOk, OnErr, false, length, map, reverse, true};
ghost use Rattle.std.specs.Prelude.{vec_capacity};
ghost use Rattle.xet_base.specs.Store.{IsValid};
ghost use Rattle.xet_reconstruct.specs.Ran.{RanUnder};
ghost use Rattle.xet_ties.specs.Legal.{Legal};
ghost use Rattle.xet_get_command.specs.Wanted.{wanted_setup};
ghost use Rattle.xet_get_command.specs.steps.PrintedDigits.{Tapped, told_of};
ghost use Rattle.xet_get_command.specs.steps.TapRuns.{BehindTaps, IsBookOf, IsCacheOf, IsNew, limits_told};

use crate::tapped_client::TappedClient;
use crate::wanted::Wanted;
use std::alloc::Global;
use std::sync::Wait;
use std::thread::Threads;
use xet_base::OutOfMemory;
use xet_blocks::Steady;
use xet_connections::MemClient;
use xet_error::{FileReconstructionError, Result};
use xet_reconstruct::FileReconstructor;
use xet_reconstruct::laws::honest_answers;
use xet_run::BookView;
use xet_store::{ChunkCache, Client, MapCache, MemStore, NeverCancel, NoCache, Sink, Tap};

// The run over these connections.
fn run_over<R: Threads + Wait + Sync, C: Client + Send, K: ChunkCache, O: Sink>(
    rt: &R,
    alloc: Global,
    wanted: Wanted,
    view: BookView,
    clients: &mut [C],
    cache: &mut K,
    out: &mut O,
) -> Result<u64>
    requires book { IsBookOf wanted view }
    ensures legal { Legal (wanted_setup wanted) (told_of (map C.told clients.old) (K.told cache.old) (O.told out.old))
        (told_of (map C.told clients.new) (K.told cache.new) (O.told out.new)) result }
    ensures ran { RanUnder (limits_told wanted) (wanted_setup wanted)
        (told_of (map C.told clients.old) (K.told cache.old) (O.told out.old))
        (told_of (map C.told clients.new) (K.told cache.new) (O.told out.new)) result }
{
    let config = wanted.options.config();
    FileReconstructor::new(wanted.file, Steady { size: 0 })
        .with_byte_range(wanted.range)
        .with_config(&config)
        .with_budget_book(view)
        .reconstruct_to_writer(rt, alloc, clients, cache, &mut NeverCancel, out)
}

// A store in memory is a valid one.
fn check_store(alloc: Global, store: &MemStore)
    ensures { IsValid store.now }
{
    let _client = MemClient::new(alloc, store);
}

// The first taps, as many as there are lanes, leave for connections to the store, which stand in their order; the
// others stay, and stand in reverse. Where memory is wanting none leaves.
fn connect<'a, T: Tap>(
    alloc: Global,
    store: &'a MemStore,
    lanes: usize,
    taps: &mut Vec<T>,
) -> std::result::Result<Vec<TappedClient<'a, T>>, OutOfMemory>
    requires lanes { lanes ≤ length taps.old.items }
    ensures taps { IfOk result (λ clients. map (λ c. c.tap) clients.items ++ reverse taps.new.items
        ≡ taps.old.items) }
    ensures count { IfOk result (λ clients. length clients.items ≡ lanes) }
    ensures new { IfOk result (λ clients. All (λ c. IsNew store.now (T.told c.tap)
        (⟦<TappedClient<'a, T> as Client>⟧.told c)) clients.items) }
    ensures room { vec_capacity taps.new ≡ vec_capacity taps.old }
    ensures kept { OnErr result (taps.new.items ≡ taps.old.items) }
{
    let mut clients = Vec::with_capacity(alloc, lanes)?;
    taps.reverse();
    'taken: while clients.len() < lanes {
        let Some(tap) = taps.pop() else {
            break;
        };
        clients.push_reserved(TappedClient::new(MemClient::new(alloc, store), tap));
    }
    Ok(clients)
}

// The connections end, and their taps come back before the others, which stand in reverse until then.
fn hand_back<T: Tap>(mut clients: Vec<TappedClient<T>>, taps: &mut Vec<T>)
    requires room { length clients.items + length taps.old.items ≤ vec_capacity taps.old }
    ensures { taps.new.items ≡ map (λ c. c.tap) clients.entry.items ++ reverse taps.old.items }
{
    while let Some(client) = clients.pop() {
        taps.push_reserved(client.into_tap());
    }
    clients.destroy_empty();
    taps.reverse();
}

// The run over as many connections as are wanted, each behind one of the first taps, in order. These leave for it and
// come back. With `cache` the cache is a new one.
fn run_behind<R: Threads + Wait + Sync, T: Tap + Send, K: ChunkCache, O: Sink>(
    rt: &R,
    alloc: Global,
    wanted: Wanted,
    view: BookView,
    store: &MemStore,
    taps: &mut Vec<T>,
    cache: &mut K,
    out: &mut O,
) -> Result<u64>
    requires count { length taps.old.items ≡ 64 }
    requires book { IsBookOf wanted view }
    requires cache { IsCacheOf wanted (K.told cache.old) }
    ensures { BehindTaps store.now wanted (map T.told taps.old.items) (map T.told taps.new.items)
        (K.told cache.old) (K.told cache.new) (O.told out.old) (O.told out.new) result }
{
    check_store(alloc, store);
    honest_answers();
    let lanes = wanted.options.lane_count().min(64) as usize;
    let mut clients = match connect(alloc, store, lanes, taps) {
        Ok(clients) => clients,
        Err(_) => return Err(FileReconstructionError::OutOfMemory),
    };
    let answer = run_over(rt, alloc, wanted, view, clients.as_mut_slice(), cache, out);
    hand_back(clients, taps);
    answer
}

// The run with a new cache.
fn run_cached<R: Threads + Wait + Sync, T: Tap + Send, O: Sink>(
    rt: &R,
    alloc: Global,
    wanted: Wanted,
    view: BookView,
    store: &MemStore,
    taps: &mut Vec<T>,
    out: &mut O,
) -> Result<u64>
    requires count { length taps.old.items ≡ 64 }
    requires book { IsBookOf wanted view }
    requires cache { wanted.options.cache ≡ true }
    ensures { Tapped store.now wanted (map T.told taps.old.items) (map T.told taps.new.items)
        (O.told out.old) (O.told out.new) result }
{
    let mut cache = MapCache::new(alloc);
    run_behind(rt, alloc, wanted, view, store, taps, &mut cache, out)
}

// The run without a cache.
fn run_plain<R: Threads + Wait + Sync, T: Tap + Send, O: Sink>(
    rt: &R,
    alloc: Global,
    wanted: Wanted,
    view: BookView,
    store: &MemStore,
    taps: &mut Vec<T>,
    out: &mut O,
) -> Result<u64>
    requires count { length taps.old.items ≡ 64 }
    requires book { IsBookOf wanted view }
    requires cache { wanted.options.cache ≡ false }
    ensures { Tapped store.now wanted (map T.told taps.old.items) (map T.told taps.new.items)
        (O.told out.old) (O.told out.new) result }
{
    run_behind(rt, alloc, wanted, view, store, taps, &mut NoCache, out)
}

/// The run over as many connections to the store as are wanted, each behind one of the taps, in order, with a cache
/// where one is wanted.
pub fn run_on_store<R: Threads + Wait + Sync, T: Tap + Send, O: Sink>(
    rt: &R,
    alloc: Global,
    wanted: Wanted,
    view: BookView,
    store: &MemStore,
    taps: &mut Vec<T>,
    out: &mut O,
) -> Result<u64>
    requires count { length taps.old.items ≡ 64 }
    requires book { IsBookOf wanted view }
    ensures { Tapped store.now wanted (map T.told taps.old.items) (map T.told taps.new.items)
        (O.told out.old) (O.told out.new) result }
{
    if wanted.options.cache {
        return run_cached(rt, alloc, wanted, view, store, taps, out);
    }
    run_plain(rt, alloc, wanted, view, store, taps, out)
}
