//! A shared book of the running downloads.
use std::alloc::Global;
use std::sync::{Arc, Wait};
use xet_base::OutOfMemory;
use xet_run::{BookView, BudgetBook, BudgetSettings, BudgetSource};

const SETTINGS: BudgetSettings = BudgetSettings {
    base: 10,
    per_file: 5,
    limit: 22,
};

/// Limits, and whether then a download starts, or else one ends.
const STEPS: [(u64, bool); 10] = [
    (10, true),
    (15, true),
    (20, true),
    (22, true),
    (22, false),
    (22, false),
    (20, false),
    (15, false),
    (10, false),
    (10, false),
];

/// How many steps the book and a view of it follow.
fn followed<R: Wait>(rt: &R, book: &BudgetBook, view: &mut BookView) -> usize {
    let mut followed = 0usize;
    for (limit, starts) in STEPS {
        if book.target(rt) == limit && view.limit(rt) == limit {
            followed = followed.saturating_add(1);
        }
        if starts {
            book.start(rt);
        } else {
            book.end(rt);
        }
    }
    followed
}

/// The same of a new view.
fn viewed<R: Wait>(rt: &R, book: &Arc<BudgetBook>) -> Result<usize, OutOfMemory> {
    let mut view = BookView::new(Arc::try_clone(book)?);
    Ok(followed(rt, book, &mut view))
}

fn shared<R: Wait>(rt: &R, alloc: Global) -> Result<usize, OutOfMemory> {
    let book = BudgetBook::new(alloc, SETTINGS)?;
    viewed(rt, &Arc::new(alloc, book)?)
}

#[test]
fn a_book_follows_the_running_downloads(rt: HostRuntime) {
    let steps = shared(&rt, rt.alloc());
    assert!(rt; steps == Ok(10), "{steps:?}");
}
