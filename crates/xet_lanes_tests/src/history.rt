//! The calls of a run under its lock, and what its history keeps of them.
ghost use Rattle.std.specs.Prelude.{◌≡◌, ◌^◌};

use std::alloc::Global;
use std::marker::Brand;
use std::sync::Wait;
use std::sync::ledger::{Blank, Ledger};
use xet_base::{List, MerkleHash, OutOfMemory};
use xet_error::FileReconstructionError;
use xet_run::{CallLog, KeptCalls, RunCall, RunError, RunPass, RunState};

/// Calls, a letter each: a small one by the run's first pass, and a great one by the pass that is split from it.
const CALLS: &str = "iUeTtsCBR";

/// What a history has of them.
const HISTORY: [RunCall; 9] = [
    RunCall::SetError(FileReconstructionError::IoError),
    RunCall::SetError(FileReconstructionError::UrlExpired),
    RunCall::CheckError(Some(FileReconstructionError::IoError)),
    RunCall::NewTerm(5),
    RunCall::NewTerm(7),
    RunCall::Scheduled(12),
    RunCall::Cancel,
    RunCall::NewBlock,
    RunCall::CheckRunState(Some(RunError::Error(FileReconstructionError::IoError))),
];

/// Makes the call of this letter.
fn make<L: Ledger, C: CallLog, R: Wait>(
    rt: &R,
    state: &RunState<L, C>,
    pass: &mut RunPass<L>,
    letter: char,
) -> Result<(), OutOfMemory> {
    match letter {
        'i' => state.set_error(rt, pass, FileReconstructionError::IoError),
        'U' => state.set_error(rt, pass, FileReconstructionError::UrlExpired),
        'T' => state.record_new_term(rt, pass, 5),
        't' => state.record_new_term(rt, pass, 7),
        'C' => state.cancel(rt, pass),
        'B' => state.record_new_block(rt, pass),
        'e' => {
            let _ = state.check_error(rt, pass);
            Ok(())
        }
        's' => {
            let _ = state.total_bytes_scheduled(rt, pass);
            Ok(())
        }
        _ => {
            let _ = state.check_run_state(rt, pass);
            Ok(())
        }
    }
}

/// Makes the call of this letter, and adds what the pass tells of it.
fn make_told<L: Ledger, C: CallLog, R: Wait>(
    rt: &R,
    state: &RunState<L, C>,
    pass: &mut RunPass<L>,
    letter: char,
    made: &mut Vec<RunCall>,
) {
    let _ = make(rt, state, pass, letter);
    if let Some(call) = pass.last() {
        let _ = made.push(call);
    }
}

/// Makes the calls, and adds what the passes tell of each.
fn make_all<L: Ledger, C: CallLog, R: Wait>(
    rt: &R,
    state: &RunState<L, C>,
    pass: &mut RunPass<L>,
    other: &mut RunPass<L>,
    made: &mut Vec<RunCall>,
) {
    for letter in CALLS.chars() {
        if letter.is_ascii_uppercase() {
            make_told(rt, state, other, letter, made);
        } else {
            make_told(rt, state, pass, letter, made);
        }
    }
}

/// What the passes tell of the calls.
fn told_of<L: Ledger, C: CallLog, R: Wait>(
    rt: &R,
    alloc: Global,
    state: &RunState<L, C>,
    pass: &mut RunPass<L>,
) -> Vec<RunCall>
    requires parts { pass.old.share.parts ≡ 2 ^ 32 }
{
    let mut made = Vec::new(alloc);
    let mut other = pass.split(1);
    make_all(rt, state, pass, &mut other, &mut made);
    pass.gather(other);
    made
}

/// The calls of a run that keeps them, as the passes tell them and as its history has them.
fn kept_calls<L: Ledger, R: Wait>(
    rt: &R,
    alloc: Global,
    blank: Blank,
) -> Result<(Vec<RunCall>, List<RunCall>), OutOfMemory>
    requires name { blank.name ≡ L.name }
    requires parts { (blank.parts ≡ L.parts) × (L.parts ≡ 2 ^ 32) }
{
    let (state, mut pass) = RunState::<L, KeptCalls>::new(alloc, blank, MerkleHash([1; 32]))?;
    let made = told_of(rt, alloc, &state, &mut pass);
    Ok((made, state.close(pass)))
}

fn kept_run<R: Wait>(rt: &R, alloc: Global) -> Result<(Vec<RunCall>, List<RunCall>), OutOfMemory> {
    kept_calls::<Brand, R>(rt, alloc, Blank::new(1 << 32))
}

#[test]
fn a_run_keeps_its_calls(rt: HostRuntime) {
    match kept_run(&rt, rt.alloc()) {
        Ok((made, kept)) => {
            assert!(rt; made.as_slice() == HISTORY.as_slice());
            assert!(rt; kept.as_slice() == HISTORY.as_slice());
        }
        Err(_) => panic!(rt; "memory"),
    }
}
