//! Which xorbs the terms of files name.
ghost use Rattle.std.specs.Prelude.{◌≡◌, ◌<◌, IfOk, IfSome, length};
ghost use Rattle.std.specs.Prelude.{false, replicate};
ghost use Rattle.xet_audit.specs.steps.Tables.{marked};

use std::alloc::Global;
use xet_base::OutOfMemory;

/// So many marks, none of which is set.
pub(crate) fn no_marks(alloc: Global, count: usize) -> Result<Vec<bool>, OutOfMemory>
    ensures { IfOk result (λ marks. marks.items ≡ replicate count false) }
{
    let mut marks = Vec::new(alloc);
    marks.resize(count, false)?;
    Ok(marks)
}

/// Sets the mark of this number, where there is one.
pub(crate) fn mark(marks: &mut Vec<bool>, number: Option<usize>)
    requires { IfSome number (λ n. n < length marks.old.items) }
    ensures { marks.new.items ≡ marked number marks.old.items }
{
    if let Some(n) = number {
        marks[n] = true;
    }
}
