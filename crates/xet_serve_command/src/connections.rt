//! Connections to a store.
ghost use Rattle.std.specs.Prelude.{◌≡◌, IfOk, map, replicate};
ghost use Rattle.xet_serve_command.specs.steps.Sessions.{new_client};

use crate::near_client::NearClient;
use std::alloc::Global;
use xet_base::OutOfMemory;
use xet_outside::Client;
use xet_store::MemStore;

// How many walks over a file the first connection goes on with, which is asked for all plans. The others have one.
const WALKS: usize = 64;

/// So many connections to the store.
#[tactic(auto, using(crate::proofs::Clients::clients_more))]
pub(crate) fn connect<'a>(
    alloc: Global,
    store: &'a MemStore,
    count: usize,
) -> Result<Vec<NearClient<'a>>, OutOfMemory>
    ensures { IfOk result (λ clients. map (⟦<NearClient<'a> as Client>⟧.told) clients.items
        ≡ replicate count (new_client store.now)) }
{
    let mut clients = Vec::with_capacity(alloc, count)?;
    'taken: while clients.len() < count {
        let walks = if clients.is_empty() { WALKS } else { 1 };
        clients.push_reserved(NearClient::new(alloc, store, walks)?);
    }
    Ok(clients)
}
