//! Events of a core of a run, a letter each, and the texts of refusals.
use crate::rows::{comes_to, put};
use std::alloc::Global;
use std::fmt::Display;
use xet_base::{FileRange, List, MerkleHash, ShortList};
use xet_error::FileReconstructionError;
use xet_run::{
    CoreRefusal, EventLog, KeptEvents, ListedPlan, PlannedBlock, PlannedTerm, RunCore, RunError,
    ToldEvents,
};

/// Events and the answers: a dot where it is added, `n` where it is not allowed. Each kind of event is added once.
const EVENTS: &str = "appfaawrerrffceWzwA: n.nn.nnn..n.nnnnn..
pacxywak: .....nnn
kpx: .nn";

/// Twelve bytes as two terms of one block.
fn plan(alloc: Global) -> ListedPlan {
    let mut terms = List::new(alloc);
    for (start, end) in [(0, 6), (6, 12)] {
        let _ = terms.push(PlannedTerm {
            byte_range: FileRange::new(start, end),
            block: 0,
            start_index: 0,
            offset: 0,
        });
    }
    let mut blocks = List::new(alloc);
    let _ = blocks.push(PlannedBlock {
        xorb: MerkleHash([1; 32]),
        ranges: ShortList::new(),
    });
    ListedPlan { terms, blocks }
}

/// Adds the event of this letter.
fn add<E: EventLog>(
    alloc: Global,
    core: &mut RunCore<E>,
    plan: &ListedPlan,
    letter: char,
) -> Result<(), CoreRefusal> {
    match letter {
        'p' => core.planned(alloc, FileRange::new(0, 12), plan),
        'a' => core.admit(10),
        'A' => core.admit(3),
        'f' => core.fetched(0, 1, 0),
        'c' => core.cached(1, 0),
        'e' => core.expired(0, 1, 0),
        'r' => core.refreshed(1),
        'w' => core.wrote(6),
        'W' => core.wrote(7),
        'z' => core.wrote(0),
        'x' => core.fail(FileReconstructionError::IoError),
        'y' => core.fail(FileReconstructionError::UrlExpired),
        _ => core.cancel(),
    }
}

/// What the events of these letters are answered.
fn answers<E: EventLog>(
    alloc: Global,
    core: &mut RunCore<E>,
    plan: &ListedPlan,
    letters: &str,
) -> String {
    let mut told = String::new(alloc);
    for letter in letters.chars() {
        match add(alloc, core, plan, letter) {
            Ok(()) => put(&mut told, '.'),
            Err(CoreRefusal::NotAllowed) => put(&mut told, 'n'),
            Err(CoreRefusal::OutOfMemory) => put(&mut told, 'm'),
        }
    }
    told
}

/// The same from the first event on, over a log of this kind.
fn played<E: EventLog>(alloc: Global, letters: &str) -> String {
    let plan = plan(alloc);
    answers(alloc, &mut RunCore::<E>::new(alloc), &plan, letters)
}

#[test]
fn each_event_is_allowed_in_its_place(rt: HostRuntime) {
    for line in EVENTS.lines() {
        if let Some((letters, wanted)) = line.split_once(": ") {
            comes_to(
                &rt,
                letters,
                played::<KeptEvents>(rt.alloc(), letters),
                wanted,
            );
            comes_to(
                &rt,
                letters,
                played::<ToldEvents>(rt.alloc(), letters),
                wanted,
            );
        }
    }
}

/// The texts of these errors, a line each.
fn lines<E: Display>(alloc: Global, errors: &[E]) -> String {
    let mut text = String::new(alloc);
    for error in errors {
        let _ = writeln!(text, "{error}");
    }
    text
}

#[test]
fn refusals_print_their_names(rt: HostRuntime) {
    let alloc = rt.alloc();
    let core = [CoreRefusal::NotAllowed, CoreRefusal::OutOfMemory];
    comes_to(
        &rt,
        "core",
        lines(alloc, &core),
        "NotAllowed\nOutOfMemory\n",
    );
    let error = FileReconstructionError::IoError;
    let run = [
        RunError::OutOfMemory,
        RunError::Error(error),
        RunError::Cancelled,
    ];
    comes_to(
        &rt,
        "run",
        lines(alloc, &run),
        "OutOfMemory\nError\nCancelled\n",
    );
}
