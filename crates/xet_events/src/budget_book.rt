//! A book of the running downloads, whose limit grows with them.
ghost use Rattle.std.specs.Prelude.{◌≡◌, ◌+◌, ◌-◌, ◌^◌, min, IfOk, IsOk, None, Some};
ghost use Rattle.std.specs.Arc.{arc_value};
ghost use Rattle.xet_events.specs.Books.{book_limit, target_of, IsTarget};

use crate::budget_source::BudgetSource;
use std::alloc::Global;
use std::sync::{Arc, Mutex, Wait};
use xet_base::OutOfMemory;

/// How a limit of unwritten bytes follows the running downloads. All numbers are in bytes.
#[derive(Clone, Copy)]
pub struct BudgetSettings {
    /// What is allowed in any case.
    pub base: u64,
    /// What each running download adds.
    pub per_file: u64,
    /// What is never passed.
    pub limit: u64,
}

/// The running downloads, and the limit that follows them.
///
/// In place of the process-wide semaphore of `xet-data`, which grows with the active downloads.
#[derive(Clone, Copy)]
pub struct BookState {
    settings: BudgetSettings,
    running: u64,
}

impl BookState {
    /// A book in which no download runs.
    pub fn new(settings: BudgetSettings) -> BookState
        ensures { result ≡ record { settings = settings; running = 0 } }
    {
        BookState {
            settings,
            running: 0,
        }
    }

    /// One download more runs. At `u64::MAX` the count stays.
    pub fn start(&mut self)
        ensures { self.new ≡ record self.old { running = min (self.old.running + 1) (2 ^ 64 - 1) } }
    {
        self.running = self.running.saturating_add(1);
    }

    /// One download less runs. At 0 the count stays.
    pub fn end(&mut self)
        ensures { self.new ≡ record self.old { running = self.old.running - 1 } }
    {
        self.running = self.running.saturating_sub(1);
    }

    /// The limit now, in bytes: the smaller of the settings' limit and of the base with `per_file` for each running
    /// download.
    pub fn target(&self) -> u64
        ensures { result ≡ target_of self.now.settings self.now.running }
    {
        let part = self.running.saturating_mul(self.settings.per_file);
        self.settings
            .limit
            .min(self.settings.base.saturating_add(part))
    }
}

/// A `BookState` that threads share. Its settings are fixed; the count of running downloads stands under a lock.
#[derive(Drop)]
pub struct BudgetBook {
    settings: BudgetSettings,
    running: Mutex<u64>,
}

impl BudgetBook {
    /// A book in which no download runs. It takes no memory.
    pub fn new(_alloc: Global, settings: BudgetSettings) -> Result<BudgetBook, OutOfMemory>
        ensures made { IsOk result }
        ensures settings { IfOk result (λ book. book.settings ≡ settings) }
    {
        Ok(BudgetBook {
            settings,
            running: Mutex::new(0),
        })
    }

    /// One download more runs.
    pub fn start<R: Wait>(&self, rt: &R) {
        let mut running = self.running.lock(rt);
        let mut state = self.state(*running);
        state.start();
        *running = state.running;
    }

    /// One download less runs.
    pub fn end<R: Wait>(&self, rt: &R) {
        let mut running = self.running.lock(rt);
        let mut state = self.state(*running);
        state.end();
        *running = state.running;
    }

    /// The limit now, in bytes: one that the settings give for some number of running downloads.
    pub fn target<R: Wait>(&self, rt: &R) -> u64
        ensures { IsTarget self.now.settings result }
    {
        let running = *self.running.lock(rt);
        self.state(running).target()
    }

    fn state(&self, running: u64) -> BookState
        ensures { result ≡ record { settings = self.now.settings; running = running } }
    {
        BookState {
            settings: self.settings,
            running,
        }
    }
}

/// A look into a shared book, as a source of limits. It tells the limit of all that the settings have, which no answer
/// passes, and nothing else, since other threads start and end downloads.
#[derive(Drop)]
pub struct BookView {
    book: Arc<BudgetBook, Global>,
}

impl BookView {
    /// A view of this book.
    pub fn new(book: Arc<BudgetBook, Global>) -> BookView
        ensures { result ≡ record { book = book } }
    {
        BookView { book }
    }
}

impl BudgetSource for BookView {
    ghost told = { λ v. record { fixed = None; most = Some (book_limit v); limits = None } };

    fn limit<R: Wait>(&mut self, rt: &R) -> u64
        ensures target { IsTarget (arc_value self.old.book).settings result }
        ensures same { self.new ≡ self.old }
    {
        self.book.target(rt)
    }
}
