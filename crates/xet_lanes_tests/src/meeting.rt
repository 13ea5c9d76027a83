//! Two fetches that wait for each other.
use std::sync::atomic::{AtomicU64, Ordering};
use std::thread::yield_now;
use xet_lanes::Gate;

/// How often one looks for the other.
const LOOKS: u64 = 50_000_000;

/// How often a slow fetch gives up the processor.
const TURNS: u64 = 10_000;

/// The fetches 0 and 1 wait for each other, and each later one lets others run for a while.
#[derive(Drop)]
pub(crate) struct Meeting {
    begun: AtomicU64,
}

impl Meeting {
    pub(crate) fn new() -> Meeting {
        Meeting {
            begun: AtomicU64::new(0),
        }
    }

    /// One begins, and looks for the other.
    fn meet(&self) {
        self.begun.fetch_add(1, Ordering::SeqCst);
        for _ in 0..LOOKS {
            if self.begun.load(Ordering::SeqCst) >= 2 {
                return;
            }
            yield_now();
        }
    }
}

impl Gate for Meeting {
    fn before(&self, number: u64) {
        if number < 2 {
            return self.meet();
        }
        for _ in 0..TURNS {
            yield_now();
        }
    }

    fn after(&self, _number: u64) {}
}
