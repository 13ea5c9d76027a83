//! Fetches, and a write, that wait for one another.
use crate::row::Row;
use std::sync::atomic::{AtomicBool, AtomicU64, Ordering};
use std::thread::yield_now;
use xet_reconstruct::Gate;

/// How often one looks for the others.
const LOOKS: u64 = 50_000_000;

/// So many wait for one another: the fetches from the first on, and where one is beside them the first write.
#[derive(Drop)]
pub(crate) struct Crowd {
    first: u64,
    beside: bool,
    count: u64,
    begun: AtomicU64,
    gave_up: AtomicBool,
}

impl Crowd {
    /// The crowd of a row, of none where it says nothing of one.
    pub(crate) fn new(row: Row<'_>) -> Crowd {
        Crowd {
            first: row.number("first", 0),
            beside: row.has("beside"),
            count: row.number("meet", 0),
            begun: AtomicU64::new(0),
            gave_up: AtomicBool::new(false),
        }
    }

    /// Whether all of them met.
    pub(crate) fn met(&self) -> bool {
        self.begun.load(Ordering::SeqCst) >= self.count && !self.gave_up.load(Ordering::SeqCst)
    }

    /// One more has begun, and waits for the others.
    fn arrive(&self) {
        self.begun.fetch_add(1, Ordering::SeqCst);
        for _ in 0..LOOKS {
            if self.begun.load(Ordering::SeqCst) >= self.count {
                return;
            }
            if self.gave_up.load(Ordering::SeqCst) {
                return;
            }
            yield_now();
        }
        self.gave_up.store(true, Ordering::SeqCst);
    }

    /// The first write begins.
    pub(crate) fn write(&self) {
        if self.beside {
            self.arrive();
        }
    }
}

impl Gate for Crowd {
    fn before(&self, number: u64) {
        if self.first <= number {
            self.arrive();
        }
    }

    fn after(&self, _number: u64) {}
}
