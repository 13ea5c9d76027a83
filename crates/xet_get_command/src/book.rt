//! A book of running downloads.
ghost use Rattle.std.specs.Prelude.{◌≡◌, IfOk};
ghost use Rattle.std.specs.Arc.{arc_value};

use std::alloc::Global;
use std::sync::{Arc, Wait};
use xet_base::OutOfMemory;
use xet_run::{BookView, BudgetBook, BudgetSettings};

/// A view of a new book of running downloads, in which one runs.
///
/// `OutOfMemory` where an allocation was refused.
pub fn new_book_view<R: Wait>(
    rt: &R,
    alloc: Global,
    settings: BudgetSettings,
) -> Result<BookView, OutOfMemory>
    ensures { IfOk result (λ view. (arc_value view.book).settings ≡ settings) }
{
    let book = Arc::new(alloc, BudgetBook::new(alloc, settings)?)?;
    book.start(rt);
    Ok(BookView::new(book))
}
