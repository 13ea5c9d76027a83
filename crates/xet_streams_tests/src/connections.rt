//! Connections by a text.
ghost use Rattle.std.specs.Prelude.{◌≤◌};

use crate::row::Row;
use crate::script::{answered, block, number};
use crate::told::cut;
use std::alloc::Global;
use xet_connections::{ClientStep, ScriptClient};
use xet_outside::PlanAnswer;
use xet_store::MemStore;

/// What a connection does at a call.
fn step(alloc: Global, row: Row<'_>, word: char) -> ClientStep {
    match word {
        'f' => ClientStep::Fail,
        'x' => ClientStep::Expire,
        'm' => ClientStep::NoMemory,
        'n' => ClientStep::SayPlan(PlanAnswer::NoFile),
        'e' => ClientStep::SayPlan(PlanAnswer::PastEnd),
        'p' => ClientStep::SayPlan(answered(alloc, row.find("plan").unwrap_or(""))),
        's' => match block(alloc, row.find("block").unwrap_or("")) {
            Some(bytes) => ClientStep::SayBlock(bytes),
            None => ClientStep::Fail,
        },
        _ => ClientStep::Honest,
    }
}

/// A connection that does this.
fn connection<'a>(
    alloc: Global,
    row: Row<'_>,
    words: &str,
    store: &'a MemStore,
) -> ScriptClient<'a> {
    let mut steps = Vec::new(alloc);
    for word in words.chars() {
        let _ = steps.push(step(alloc, row, word));
    }
    ScriptClient::new(alloc, store, steps)
}

/// The connections of a row, which has three at most, and behind them others.
pub(crate) fn connections<'a>(
    alloc: Global,
    row: Row<'_>,
    store: &'a MemStore,
) -> [ScriptClient<'a>; 3] {
    let (first, others) = cut(row.find("lanes").unwrap_or(""), ",");
    let (second, third) = cut(others, ",");
    [
        connection(alloc, row, first, store),
        connection(alloc, row, second, store),
        connection(alloc, row, third, store),
    ]
}

/// How many of them are lent to the pull of this number.
pub(crate) fn lent(row: Row<'_>, pull: u64) -> usize
    ensures { result ≤ 3 }
{
    let mut count = row.find("lanes").unwrap_or("").split(',').count() as u64;
    for (place, said) in row
        .find("lent")
        .unwrap_or("")
        .split_whitespace()
        .enumerate()
    {
        if place as u64 <= pull {
            count = number(said);
        }
    }
    count.min(3) as usize
}
