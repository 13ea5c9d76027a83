//! The plans of a store in memory.
ghost use Rattle.std.specs.Prelude.{◌≡◌, ◌≤◌, IfOk};
ghost use Rattle.xet_base.specs.Store.{terms_of_file};
ghost use Rattle.xet_store.specs.MemUrls.{HasUrl, mem_url};
ghost use Rattle.xet_store.specs.MemPlans.{IsWalk};
ghost use Rattle.xet_outside.specs.Told.{IsHonest};

use std::alloc::Global;
use xet_base::{FileRange, MerkleHash, OutOfMemory};
use xet_outside::plan::{Plan, PlanAnswer};
use xet_store::MemStore;
use xet_store::mem_cut::{Walk, planned_terms};
use xet_store::mem_fetch::{PlannedXorbs, plan_xorbs};

/// An answer to a query.
#[derive(Drop)]
pub(crate) struct MemAnswer {
    pub(crate) answer: PlanAnswer,
    /// Where each xorb of the plan is looked for first.
    pub(crate) places: Vec<usize>,
    /// How far the walk over the file's terms came.
    pub(crate) reached: Walk,
}

impl MemAnswer {
    // An answer that is no plan. It takes no memory.
    fn without_plan(alloc: Global, answer: PlanAnswer) -> MemAnswer
        ensures answer { result.answer ≡ answer }
        ensures reached { result.reached ≡ record { passed = 0; place = 0 } }
    {
        MemAnswer {
            answer,
            places: Vec::new(alloc),
            reached: Walk::start(),
        }
    }
}

/// The answer of a store to a query. A plan's URL names it by its number. The walk over the file's terms goes on from
/// where an earlier one came, where that is before the range.
pub(crate) fn plan_answer(
    alloc: Global,
    store: &MemStore,
    file: &MerkleHash,
    from: Walk,
    range: FileRange,
    number: u64,
) -> Result<MemAnswer, OutOfMemory>
    requires walk { IsWalk store.now (terms_of_file store.now file.now) from.passed from.place }
    requires early { from.place ≤ range.start }
    ensures honest { IfOk result (λ a. IsHonest store.now file.now range a.answer) }
    ensures reached { IfOk result (λ a. IsWalk store.now (terms_of_file store.now file.now)
        a.reached.passed a.reached.place) }
    ensures url { IfOk result (λ a. HasUrl (mem_url number) a.answer) }
{
    let Some(stored) = store.file(file) else {
        return Ok(MemAnswer::without_plan(alloc, PlanAnswer::NoFile));
    };
    let planned = planned_terms(alloc, store, stored.terms(), stored.places(), from, range)?;
    if planned.place <= range.start {
        return Ok(MemAnswer::without_plan(alloc, PlanAnswer::PastEnd));
    }
    let PlannedXorbs { xorbs, places } = plan_xorbs(
        alloc,
        store,
        planned.terms.as_slice(),
        planned.places.as_slice(),
        number,
    )?;
    let answer = PlanAnswer::Found(Plan {
        offset_into_first_range: planned.offset,
        terms: planned.terms,
        xorbs,
    });
    Ok(MemAnswer {
        answer,
        places,
        reached: planned.reached,
    })
}
