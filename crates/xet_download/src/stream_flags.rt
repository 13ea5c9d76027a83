//! The abort flags of streams.
ghost use Rattle.std.specs.Prelude.{◌≡◌, [], OnErr, OnOk};
ghost use Rattle.xet_download.specs.Streams.{with_id, without_id};

use std::alloc::Global;
use std::collections::BTreeMap;
use std::marker::Model;
use xet_base::{OutOfMemory, UniqueID};
use xet_streams::FlagSignal;

/// The abort flags of streams, each under the stream's id. Contracts see the ids, in order.
#[derive(Drop)]
pub(crate) struct StreamFlags {
    flags: BTreeMap<UniqueID, FlagSignal>,
}

impl Model for StreamFlags {
    ghost use Rattle.std.specs.Map.{keys_of};
    ghost use Rattle.std.specs.Prelude.{List as Items};
    ghost use Rattle.xet_base.specs.declared.item_id.UniqueID.{UniqueID as Id};

    ghost Value = { Items Id };

    ghost view = { λ f. keys_of f.flags.entries };
}

impl StreamFlags {
    /// No flags. It takes no memory.
    pub(crate) fn new(alloc: Global) -> StreamFlags
        ensures { result ≡ [] }
    {
        StreamFlags {
            flags: BTreeMap::new(alloc),
        }
    }

    /// Adds a flag under an id. `OutOfMemory` where an allocation was refused.
    pub(crate) fn add(&mut self, id: UniqueID, flag: FlagSignal) -> Result<(), OutOfMemory>
        ensures ok { OnOk result (self.new ≡ with_id self.old id) }
        ensures err { OnErr result (self.new ≡ self.old) }
    {
        if self.flags.insert(id, flag).is_err() {
            return Err(OutOfMemory);
        }
        Ok(())
    }

    /// Takes out the flag under an id. Whether there was one.
    pub(crate) fn remove(&mut self, id: UniqueID) -> bool
        ensures { self.new ≡ without_id self.old id }
    {
        self.flags.remove(&id).is_some()
    }

    /// Raises all flags.
    pub(crate) fn raise(&self) {
        for (_, flag) in self.flags.iter() {
            flag.raise();
        }
    }
}
