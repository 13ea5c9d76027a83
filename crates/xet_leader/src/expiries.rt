//! Counts the expired answers of a round.
ghost use Rattle.std.specs.Prelude.{◌≡◌, false, map, true, IfErr, IfOk, OnErr, OnOk};
ghost use Rattle.xet_error.specs.declared.error.FileReconstructionError.TheVariants as error;
ghost use Rattle.xet_leader.specs.Expiries.{CountAll, CountFails, CountOne, CountedLate, one_more, spends_in};
ghost use Rattle.xet_leader.specs.Expiries.{with_stale};
ghost use Rattle.xet_leader.specs.Places.{place_at};

use crate::by_number::plan_index;
use crate::leader::{Leader, LedPlan};
use crate::missing_blocks::BlockAt;
use std::alloc::Global;
use std::collections::VecDeque;
use xet_base::{Keyed, KeyedList, OutOfMemory};
use xet_blocks::FetchPolicy;
use xet_error::{FileReconstructionError, Result};

/// A plan with a URL that expired.
#[derive(Clone, Copy, PartialEq, Eq)]
struct StalePlan {
    number: u64,
}

impl Keyed<u64> for StalePlan {
    ghost key_of = { λ s. s.number };

    fn key(&self) -> u64 {
        self.number
    }
}

/// Counts that the URL of each of these blocks expired once more, and answers the numbers of their plans, each once, in
/// the order of their first blocks here.
///
/// `UrlExpired` where the tries of a block are used up by that, of which there are so many. `OutOfMemory` where memory
/// was refused. After an error some of the blocks are counted.
///
/// The Rust crate counts the tries of a block in the call that fetches it.
pub fn count_expired<P: FetchPolicy>(
    alloc: Global,
    leader: &mut Leader<P>,
    late: &[BlockAt],
    tries: u32,
) -> Result<Vec<u64>>
    ensures ok { IfOk result (λ stale. CountedLate tries (map place_at late.now) leader.old leader.new stale.items) }
    ensures err { IfErr result (CountFails tries (map place_at late.now) leader.old.plans) }
{
    let mut stale = KeyedList::new(alloc);
    match count_all(&mut leader.plans, late, tries, &mut stale) {
        Ok(()) => Ok(numbers_of(alloc, stale.as_slice())?),
        Err(error) => Err(error),
    }
}

/// Counts each of these blocks, and adds its plan to the stale ones.
fn count_all(
    plans: &mut VecDeque<LedPlan>,
    late: &[BlockAt],
    tries: u32,
    stale: &mut KeyedList<u64, StalePlan>,
) -> Result<()>
    ensures { CountAll tries (map place_at late.now) plans.old.items plans.new.items
        (map (λ s. s.number) stale.old) (map (λ s. s.number) stale.new) result }
{
    for at in late {
        match count_one(plans, *at, tries) {
            Ok(()) => {}
            Err(error) => return Err(error),
        }
        match add_stale(stale, at.plan) {
            Ok(()) => {}
            Err(error) => return Err(FileReconstructionError::from(error)),
        }
    }
    Ok(())
}

/// Counts one block.
pub(crate) fn count_one(plans: &mut VecDeque<LedPlan>, at: BlockAt, tries: u32) -> Result<()>
    ensures { CountOne tries (place_at at) plans.old.items plans.new.items result }
{
    let place = plan_index(plans, at.plan);
    let Some(plan) = plans.get_mut(place) else {
        return Ok(());
    };
    if plan.number != at.plan {
        return Ok(());
    }
    count_in(plan, at.block, tries)
}

/// Counts a block of the plan. `UrlExpired` where it has no tries left.
fn count_in(plan: &mut LedPlan, block: usize, tries: u32) -> Result<()>
    ensures counted { OnOk result (plan.new ≡ one_more block plan.old) }
    ensures left { OnOk result (spends_in tries block plan.old ≡ false) }
    ensures spent { IfErr result (λ e. (e ≡ error.UrlExpired) × (spends_in tries block plan.old ≡ true)) }
{
    let Some(count) = plan.tries.get_mut(block) else {
        return Ok(());
    };
    let more = count.saturating_add(1);
    if tries <= more {
        return Err(FileReconstructionError::UrlExpired);
    }
    *count = more;
    Ok(())
}

/// Adds a plan, where it isn't there.
fn add_stale(
    stale: &mut KeyedList<u64, StalePlan>,
    number: u64,
) -> std::result::Result<(), OutOfMemory>
    ensures { OnOk result (map (λ s. s.number) stale.new ≡ with_stale number (map (λ s. s.number) stale.old)) }
{
    if stale.position(&number).is_some() {
        return Ok(());
    }
    stale.push(StalePlan { number })
}

/// The plans' numbers.
fn numbers_of(alloc: Global, stale: &[StalePlan]) -> std::result::Result<Vec<u64>, OutOfMemory>
    ensures { IfOk result (λ ns. ns.items ≡ map (λ s. s.number) stale.now) }
{
    let numbers = stale.iter().map(|plan| plan.number).collect(alloc)?;
    Ok(numbers)
}
