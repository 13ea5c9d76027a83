//! The limits of a stream.
ghost use Rattle.std.specs.Prelude.{◌≡◌};
ghost use Rattle.xet_events.specs.Limits.{LimitCall};
ghost use Rattle.xet_streams.specs.Parts.{limits_told};

use std::sync::Wait;
use xet_run::{BookView, BudgetSource};

/// Where a stream's limits come from: a book, or the one limit of its settings.
#[derive(Drop)]
pub struct StreamLimits {
    pub limit: u64,
    pub book: Option<BookView>,
}

impl BudgetSource for StreamLimits {
    ghost told = { λ l. limits_told l.book l.limit };

    fn limit<R: Wait>(&mut self, rt: &R) -> u64 {
        match &mut self.book {
            Some(view) => view.limit(rt),
            None => self.limit,
        }
    }
}
