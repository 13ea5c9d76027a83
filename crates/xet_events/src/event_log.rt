//! Where the events of a run go: into memory, where they can be read, or to proofs alone.
ghost use Rattle.std.specs.Prelude.{◌≡◌, ◌+◌, ◌-◌, ◌^◌, ◌<◌, ◌≤◌, ℕ, List, [], ◌∷◌, ◌++◌, OnOk, OnErr, vec_len};
ghost use Rattle.std.specs.Prelude.{vec_capacity};
ghost use base.Fml.{ftrue};
ghost use Rattle.xet_events.specs.declared.event.Event.{Event as EventValue};

use crate::event::Event;
use crate::plan_source::{PlanSource, copied_blocks, copied_terms};
use std::alloc::{AllocError, Global};
use std::marker::Model;
use xet_base::{FileRange, OutOfMemory};

/// Takes the events of a run, one behind the other.
pub trait EventLog: Drop {
    /// The events that it took, oldest first.
    ghost events: { Self → List EventValue };

    /// For how many more it has room.
    ghost room: { Self → ℕ };

    /// A log without events. It takes no memory.
    fn new(alloc: Global) -> Self
        ensures { events result ≡ [] };

    /// Makes room for so many events more. An error where an allocation was refused. The events stay in any case.
    fn reserve(&mut self, count: usize) -> Result<(), AllocError>
        ensures events { events self.new ≡ events self.old }
        ensures room { OnOk result (count ≤ room self.new) };

    /// Takes an event, for which there is room.
    fn push_reserved(&mut self, event: Event)
        requires { 0 < room self.old }
        ensures { events self.new ≡ events self.old ++ event ∷ [] };

    /// Takes the event of a query's plan, for which there is room, with the terms and blocks of the source. An error
    /// where an allocation was refused, and then the events stay.
    fn push_planned<S: PlanSource>(
        &mut self,
        alloc: Global,
        plan: u64,
        query: FileRange,
        source: &S,
    ) -> Result<(), OutOfMemory>
        requires { 0 < room self.old }
        ensures added { OnOk result (events self.new ≡ events self.old
            ++ Event.Planned plan query (S.terms source.now) (S.blocks source.now) ∷ []) }
        ensures kept { OnErr result (events self.new ≡ events self.old) };
}

/// Events that are kept in memory.
#[derive(Drop)]
pub struct KeptEvents {
    kept: Vec<Event>,
}

impl KeptEvents {
    /// The events, oldest first.
    pub fn as_slice(&self) -> &[Event]
        ensures { result.now ≡ self.now.kept.items }
    {
        self.kept.as_slice()
    }
}

impl EventLog for KeptEvents {
    ghost events = { λ log. log.kept.items };

    ghost room = { λ log. vec_capacity log.kept - vec_len log.kept };

    fn new(alloc: Global) -> KeptEvents {
        KeptEvents {
            kept: Vec::new(alloc),
        }
    }

    fn reserve(&mut self, count: usize) -> Result<(), AllocError> {
        self.kept.reserve(count)
    }

    fn push_reserved(&mut self, event: Event) {
        self.kept.push_reserved(event);
    }

    fn push_planned<S: PlanSource>(
        &mut self,
        alloc: Global,
        plan: u64,
        query: FileRange,
        source: &S,
    ) -> Result<(), OutOfMemory> {
        let terms = copied_terms(alloc, source)?;
        let blocks = copied_blocks(alloc, source)?;
        self.kept.push_reserved(Event::Planned {
            plan,
            query,
            terms,
            blocks,
        });
        Ok(())
    }
}

/// Events that only proofs read. They take no memory, and the calls do nothing at run time.
#[derive(Drop)]
pub struct ToldEvents {
    ghost told: { List EventValue },
}

impl Model for ToldEvents {
    ghost also_owns = { λ _. ftrue };
}

impl ToldEvents {
    /// No events.
    fn nothing() -> ToldEvents
        ensures { result.told ≡ [] }
    {
        ToldEvents {}
    }

    /// These events and one more.
    fn and(&self, _event: &Event) -> ToldEvents
        ensures { result.told ≡ self.now.told ++ _event.now ∷ [] }
    {
        ToldEvents {}
    }

    /// These events and that of a query's plan, with the terms and blocks of the source.
    fn and_planned<S: PlanSource>(&self, _plan: u64, _query: &FileRange, _source: &S) -> ToldEvents
        ensures { result.told ≡ self.now.told
            ++ Event.Planned _plan _query.now (S.terms _source.now) (S.blocks _source.now) ∷ [] }
    {
        ToldEvents {}
    }
}

impl EventLog for ToldEvents {
    ghost events = { λ log. log.told };

    ghost room = { λ _. 2 ^ 64 };

    fn new(_alloc: Global) -> ToldEvents {
        ToldEvents::nothing()
    }

    fn reserve(&mut self, _count: usize) -> Result<(), AllocError> {
        Ok(())
    }

    fn push_reserved(&mut self, event: Event) {
        *self = self.and(&event);
    }

    fn push_planned<S: PlanSource>(
        &mut self,
        _alloc: Global,
        plan: u64,
        query: FileRange,
        source: &S,
    ) -> Result<(), OutOfMemory> {
        *self = self.and_planned(plan, &query, source);
        Ok(())
    }
}
