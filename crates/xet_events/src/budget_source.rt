//! Limits of a budget, asked anew for each admission.
ghost use Rattle.std.specs.Prelude.{◌≡◌, [], ◌∷◌, ◌++◌, length, min, None, Some, slice_get, unwrap_or};
ghost use Rattle.xet_events.specs.Limits.{LimitCall, LimitTold, scripted};

use crate::told_limits::ToldLimits;
use std::sync::Wait;

/// Says how many bytes may be admitted and unwritten. The limit may grow or shrink between two asks.
pub trait BudgetSource {
    /// The one limit that it always answers, the limit that it never passes, and its answers so far, each where that is
    /// told.
    ghost told: { Self → LimitTold };

    /// The limit of this moment, in bytes. It may wait for a lock.
    fn limit<R: Wait>(&mut self, rt: &R) -> u64
        ensures { LimitCall (told self.old) (told self.new) result };
}

/// One limit for good.
#[derive(Clone, Copy)]
pub struct FixedBudget {
    /// The limit, in bytes.
    pub limit: u64,
}

impl BudgetSource for FixedBudget {
    ghost told = { λ b. record { fixed = Some b.limit; most = Some b.limit; limits = None } };

    fn limit<R: Wait>(&mut self, _rt: &R) -> u64
        ensures fixed { result ≡ self.old.limit }
        ensures same { self.new ≡ self.old }
    {
        self.limit
    }
}

/// Limits from a script: its answers in order, and then 0. It is made for tests.
#[derive(Drop)]
pub struct ScriptBudget {
    answers: Vec<u64>,
    asked: usize,
    given: ToldLimits,
    ghost in_order: { given.limits ≡ scripted (length given.limits) answers.items },
    ghost next: { asked ≡ min (length given.limits) (length answers.items) },
}

impl ScriptBudget {
    /// A source that gives these answers in order, in bytes, and 0 to every later ask. It takes no memory.
    pub fn new(answers: Vec<u64>) -> ScriptBudget
        ensures script { result.answers ≡ answers }
        ensures none { result.given.limits ≡ [] }
    {
        ScriptBudget {
            answers,
            asked: 0,
            given: ToldLimits::new(),
        }
    }
}

impl BudgetSource for ScriptBudget {
    ghost told = { λ b. record { fixed = None; most = None; limits = Some b.given.limits } };

    fn limit<R: Wait>(&mut self, _rt: &R) -> u64
        ensures script { self.new.answers.items ≡ self.old.answers.items }
        ensures told { self.new.given.limits ≡ self.old.given.limits ++ result ∷ [] }
    {
        let limit = number_at(self.answers.as_slice(), self.asked);
        self.asked = (self.asked + 1).min(self.answers.len());
        self.given = self.given.and(&limit);
        limit
    }
}

/// The number at a place, or 0 past the end.
fn number_at(numbers: &[u64], place: usize) -> u64
    ensures { result ≡ unwrap_or (slice_get numbers.now place) 0 }
{
    match numbers.get(place).copied() {
        Some(number) => number,
        None => 0,
    }
}
