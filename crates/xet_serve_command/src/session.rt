//! A session over a store, and how the command ends behind it.
ghost use Rattle.std.specs.Prelude.{◌≡◌, [], Some, map, replicate};
ghost use Rattle.xet_serve.specs.Sessions.{SessionCall, any_setup};
ghost use Rattle.xet_get_command.specs.GetOptions.{config_of, lanes_of};
ghost use Rattle.xet_serve_command.specs.Serve.{StorePrints};
ghost use Rattle.xet_serve_command.specs.steps.Sessions.{Ended, Printed, left_of, new_client};

use crate::connections::connect;
use crate::near_client::NearClient;
use std::alloc::Global;
use std::sync::Wait;
use std::thread::Threads;
use xet_get_command::Options;
use xet_outside::{ChunkCache, Client, NoCache, Sink, Source};
use xet_room::{Status, say};
use xet_serve::laws::calm_sessions_reply;
use xet_serve::{ServeError, serve_session};
use xet_sinks::VecSource;
use xet_store::{MapCache, MemStore};

// Ends the command behind a session. Its replies were printed; the line of a failing setting is printed here.
fn end<O: Sink>(answer: Result<u64, ServeError>, out: &mut O) -> Status
    ensures { Ended answer (O.told out.old) (O.told out.new) result }
{
    match answer {
        Ok(_) => Status::Done,
        Err(ServeError::ConfigurationError(setting)) => say(out, Status::BadSettings(setting)),
        Err(ServeError::LineTooLong) => Status::LineTooLong,
        Err(ServeError::WriteFault) => Status::WriteFault,
        // A source in memory has no faults, and fewer bytes than an input may have.
        Err(ServeError::OutOfMemory | ServeError::ReadFault | ServeError::InputLimit) => {
            Status::NoMemory
        }
    }
}

// Answers the lines of a session over these connections.
fn run_over<R: Threads + Wait + Sync, C: Client + Send, K: ChunkCache, O: Sink>(
    rt: &R,
    alloc: Global,
    options: &Options,
    session: &mut VecSource,
    clients: &mut [C],
    cache: &mut K,
    out: &mut O,
) -> Result<u64, ServeError>
    ensures { SessionCall (any_setup (config_of options.now))
        (record {
          source = ⟦<VecSource as Source>⟧.told session.old;
          sink = O.told out.old;
          clients = map C.told clients.old;
          cache = K.told cache.old;
        })
        (record {
          source = ⟦<VecSource as Source>⟧.told session.new;
          sink = O.told out.new;
          clients = map C.told clients.new;
          cache = K.told cache.new;
        }) result }
{
    let config = options.config();
    serve_session(rt, alloc, session, out, clients, cache, &config)
}

// Answers the lines of a session over new connections to the store, and ends the command.
fn serve_over<'a, R: Threads + Wait + Sync, K: ChunkCache, O: Sink>(
    rt: &R,
    alloc: Global,
    options: &Options,
    store: &'a MemStore,
    session: &mut VecSource,
    clients: &mut [NearClient<'a>],
    cache: &mut K,
    out: &mut O,
) -> Status
    requires clients { map (⟦<NearClient<'a> as Client>⟧.told) clients.old
        ≡ replicate (lanes_of options.now) (new_client store.now) }
    requires cache { (K.told cache.old).entries ≡ Some [] }
    ensures { Printed (StorePrints options.now store.now (left_of (⟦<VecSource as Source>⟧.told session.old)))
        (O.told out.old) (O.told out.new) result }
{
    store.recall_valid();
    calm_sessions_reply();
    let answer = run_over(rt, alloc, options, session, clients, cache, out);
    end(answer, out)
}

// The same over as many connections as the options say.
fn serve_with<R: Threads + Wait + Sync, K: ChunkCache, O: Sink>(
    rt: &R,
    alloc: Global,
    options: &Options,
    store: &MemStore,
    session: &mut VecSource,
    cache: &mut K,
    out: &mut O,
) -> Status
    requires { (K.told cache.old).entries ≡ Some [] }
    ensures { Printed (StorePrints options.now store.now (left_of (⟦<VecSource as Source>⟧.told session.old)))
        (O.told out.old) (O.told out.new) result }
{
    let Ok(mut clients) = connect(alloc, store, options.lane_count() as usize) else {
        return say(out, Status::NoMemory);
    };
    let connected = clients.as_mut_slice();
    serve_over(rt, alloc, options, store, session, connected, cache, out)
}

/// Answers the lines of a session over a store, each by its reply, and ends the command. With `cache` the runs have a
/// new cache.
pub(crate) fn serve_store<R: Threads + Wait + Sync, O: Sink>(
    rt: &R,
    alloc: Global,
    options: &Options,
    store: &MemStore,
    session: &mut VecSource,
    out: &mut O,
) -> Status
    ensures { Printed (StorePrints options.now store.now (left_of (⟦<VecSource as Source>⟧.told session.old)))
        (O.told out.old) (O.told out.new) result }
{
    if options.cache {
        let mut cache = MapCache::new(alloc);
        return serve_with(rt, alloc, options, store, session, &mut cache, out);
    }
    serve_with(rt, alloc, options, store, session, &mut NoCache, out)
}
