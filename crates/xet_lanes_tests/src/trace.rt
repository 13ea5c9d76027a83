//! What a gate and a connection saw, in order.
use std::sync::atomic::{AtomicU64, Ordering};
use xet_lanes::Gate;

/// Digits in the order of the calls: 0 for a request, and for the fetch of number N 2 * N + 1 before it and 2 * N + 2
/// after it.
#[derive(Drop)]
pub(crate) struct Trace {
    digits: AtomicU64,
}

impl Trace {
    pub(crate) fn new() -> Trace {
        Trace {
            digits: AtomicU64::new(9),
        }
    }

    pub(crate) fn add(&self, digit: u64) {
        let digits = self.digits.load(Ordering::SeqCst);
        let more = digits.saturating_mul(10).saturating_add(digit);
        self.digits.store(more, Ordering::SeqCst);
    }

    /// The digits behind a 9.
    pub(crate) fn digits(&self) -> u64 {
        self.digits.load(Ordering::SeqCst)
    }
}

impl Gate for Trace {
    fn before(&self, number: u64) {
        self.add(number.saturating_mul(2).saturating_add(1));
    }

    fn after(&self, number: u64) {
        self.add(number.saturating_mul(2).saturating_add(2));
    }
}
