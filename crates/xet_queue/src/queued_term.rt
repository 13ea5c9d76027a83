//! Terms in the queue of a writer.
use bytes::Bytes;
use xet_base::{FileRange, Keyed};
use xet_run::Admission;

/// A term that waits for its turn.
#[derive(Drop)]
pub struct QueuedTerm {
    /// The term's bytes by their places, half open.
    pub byte_range: FileRange,
    /// What a budget gave for it.
    pub admission: Option<Admission>,
    /// Its bytes; none while they are wanted.
    pub bytes: Option<Bytes>,
}

/// Where a term stands in the queue that waits for its bytes.
#[derive(Clone, Copy)]
pub(crate) struct WantedPlace {
    /// Where the term starts.
    pub(crate) start: u64,
    /// The term's number, counted from the writer's first term.
    pub(crate) number: u64,
}

impl Keyed<u64> for WantedPlace {
    ghost key_of = { λ p. p.start };

    fn key(&self) -> u64 {
        self.start
    }
}
