//! That no number is drawn after a seen stop.
ghost use Rattle.std.specs.Prelude.{◌≡◌, ◌^◌};
ghost use Rattle.xet_claims.specs.ClaimPasses.{IsFresh, IsPassOf};

use std::alloc::Global;
use std::marker::Brand;
use std::sync::Wait;
use std::sync::ledger::{Blank, Ledger};
use xet_base::{MerkleHash, OutOfMemory};
use xet_lanes::drawing::{Next, next_number};
use xet_run::{ClaimPass, Claims, RunPass, RunState};

/// Of two lanes the first draws the number 0, and the second one stops it. Whether the first is then over, and the
/// next draw gives 1.
fn is_over<L: Ledger, R: Wait>(
    rt: &R,
    claims: &Claims,
    first: &mut ClaimPass,
    second: &mut ClaimPass,
    state: &RunState<L>,
    pass: &mut RunPass<L>,
) -> bool
    requires first { IsPassOf claims.now first.old × IsFresh first.old }
    requires second { IsPassOf claims.now second.old × IsFresh second.old }
{
    let Some(0) = claims.draw(first) else {
        return false;
    };
    claims.stop(second);
    let next = next_number(rt, claims, state, first, pass);
    matches!(next, Next::Over) && claims.draw(second) == Some(1)
}

/// The same over five numbers.
fn is_over_of_five<L: Ledger, R: Wait>(
    rt: &R,
    alloc: Global,
    state: &RunState<L>,
    pass: &mut RunPass<L>,
) -> Result<bool, OutOfMemory> {
    let (claims, passes) = Claims::new(alloc, 5, 2)?;
    let mut passes = passes.into_inner();
    let (Some(mut first), Some(mut second)) = (passes.pop(), passes.pop()) else {
        return Ok(false);
    };
    Ok(is_over(rt, &claims, &mut first, &mut second, state, pass))
}

fn of_a_run<L: Ledger, R: Wait>(rt: &R, alloc: Global, blank: Blank) -> Result<bool, OutOfMemory>
    requires name { blank.name ≡ L.name }
    requires parts { (blank.parts ≡ L.parts) × (L.parts ≡ 2 ^ 32) }
{
    let (state, mut pass) = RunState::<L>::new(alloc, blank, MerkleHash([1; 32]))?;
    is_over_of_five(rt, alloc, &state, &mut pass)
}

fn of_own_run<R: Wait>(rt: &R, alloc: Global) -> Result<bool, OutOfMemory> {
    of_a_run::<Brand, R>(rt, alloc, Blank::new(1 << 32))
}

#[test]
fn no_draw_follows_a_seen_stop(rt: HostRuntime) {
    assert!(rt; of_own_run(&rt, rt.alloc()) == Ok(true));
}
