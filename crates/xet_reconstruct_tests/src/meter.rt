//! A meter that a writer shares with connections.
use crate::row::Row;
use crate::script::number;
use std::sync::atomic::{AtomicBool, AtomicU64, Ordering};

/// How many bytes are fetched and not yet written.
#[derive(Drop)]
pub(crate) struct Meter<'a> {
    lengths: &'a str,
    most: u64,
    fetches: AtomicU64,
    level: AtomicU64,
    passed: AtomicBool,
}

impl<'a> Meter<'a> {
    /// The meter of a row, which stands at nothing.
    pub(crate) fn new(row: Row<'a>) -> Meter<'a> {
        Meter {
            lengths: row.find("lengths").unwrap_or(""),
            most: row.number("most", u64::MAX),
            fetches: AtomicU64::new(0),
            level: AtomicU64::new(0),
            passed: AtomicBool::new(false),
        }
    }

    /// Whether it stood above the most.
    pub(crate) fn passed(&self) -> bool {
        self.passed.load(Ordering::SeqCst)
    }

    /// What it stands at.
    pub(crate) fn level(&self) -> u64 {
        self.level.load(Ordering::SeqCst)
    }

    /// A fetch begins.
    pub(crate) fn enter(&self) {
        let fetch = self.fetches.fetch_add(1, Ordering::SeqCst);
        if self.lengths.is_empty() {
            return;
        }
        let length = match self.lengths.split(' ').nth(fetch as usize) {
            Some(word) => number(word),
            None => 0,
        };
        let before = self.level.fetch_add(length, Ordering::SeqCst);
        if self.most < before.saturating_add(length) {
            self.passed.store(true, Ordering::SeqCst);
        }
    }

    /// So many bytes are written.
    pub(crate) fn leave(&self, count: usize) {
        if !self.lengths.is_empty() {
            self.level.fetch_sub(count as u64, Ordering::SeqCst);
        }
    }
}
