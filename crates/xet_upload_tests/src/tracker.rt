//! Calls of the completion tracker that users share, with their answers worked out by hand.
ghost use Rattle.std.specs.Prelude.{◌≡◌, ◌^◌};

use crate::group::sums;
use crate::rows::{Call, call_of, comes_to, cut, number, show};
use std::alloc::Global;
use std::marker::Brand;
use std::sync::ledger::{Blank, Ledger};
use std::sync::{Arc, Wait};
use xet_base::{MerkleHash, OutOfMemory, UniqueID};
use xet_progress::{
    CompletionTracker, FileXorbDependency, GroupProgress, ProgressError, TrackerCall, TrackerPass,
    TrackerStep,
};

/// How many bytes to be transferred the group has before; the calls by one pass, and those by another. `grower` is a
/// file that grows, a xorb goes by the byte of its hash, and dependencies in one list have a `+` between them. Then the
/// answers; the group's completed and all bytes, its transferred bytes and those to be transferred; the parts and the
/// calls of both passes, and whether the calls were kept, whose replies follow by a clause.
const TRACKERS: &str = "\
0|file 110;file 60;status;complete;ext 0 1 110;status;complete|dep 1 2 60;status;done 2;xorb 2 60;done \
2;status;complete;missing: Ok(0) Ok(1) Ok((0, 170)) Ok(false) Ok(()) Ok((110, 170)) Ok(false) Ok(()) Ok((110, 170)) \
Err(InvalidOperation(UnknownXorb { hash: MerkleHash([2, 2, 2, 2, 2, 2, 2, 2, 2, 2, 2, 2, 2, 2, 2, 2, 2, 2, 2, 2, 2, \
2, 2, 2, 2, 2, 2, 2, 2, 2, 2, 2]) })) Ok(true) Ok(()) Ok((170, 170)) Ok(true) Ok(Ok(())) (170, 170, 60, 60) \
(4294967296, 15, true)
0|file 70;xorb 9 900;done 9;status|dep 0 9 70;status;complete;missing: Ok(0) Ok(true) Ok(()) Ok((0, 70)) Ok(()) \
Ok((70, 70)) Ok(true) Ok(Ok(())) (70, 70, 900, 900) (4294967296, 8, true)
0|file 220;file 310;xorb 1 900;dep 0 1 120+ext 1 1 210;status;done 1;status;xorb 2 800|ext 0 2 100;status;dep 1 2 \
100;status;complete;missing;done 2;status;missing: Ok(0) Ok(1) Ok(true) Ok(()) Ok((210, 530)) Ok(()) Ok((330, 530)) \
Ok(true) Ok(()) Ok((430, 530)) Ok(()) Ok((430, 530)) Ok(false) Ok(Err(File { id: 1, completed: 210, total: 310 })) \
Ok(()) Ok((530, 530)) Ok(Ok(())) (530, 530, 1700, 1700) (4294967296, 17, true)
0|file 100;file 100;xorb 1 200|dep 0 1 100+dep 1 1 100;progress 1 50;status: Ok(0) Ok(1) Ok(true) Ok(()) Ok(()) \
Ok((50, 200)) (50, 200, 50, 200) (4294967296, 6, true)
0|file 110;xorb 5 1000;xorb 5 1000;xorb 5 900;done 5;progress 5 1|background 5 1;done 5;status;dep 0 5 \
110;status;missing: Ok(0) Ok(true) Ok(false) Err(InvalidOperation(OtherSize { registered: 1000, given: 900 })) \
Ok(()) Err(InvalidOperation(XorbCompleted { hash: MerkleHash([5, 5, 5, 5, 5, 5, 5, 5, 5, 5, 5, 5, 5, 5, 5, 5, 5, 5, \
5, 5, 5, 5, 5, 5, 5, 5, 5, 5, 5, 5, 5, 5]) })) Ok(()) Ok(()) Ok((0, 110)) Ok(()) Ok((110, 110)) Ok(Ok(())) (110, \
110, 1000, 1000) (4294967296, 12, true)
0|grower;status;xorb 1 500;xorb 2 600;grow 0 210;dep 0 1 210;done 1|status;grow 0 320;dep 0 2 320;status;done \
2;status;missing: Ok(0) Ok((0, 0)) Ok(true) Ok(true) Ok(()) Ok(()) Ok(()) Ok((210, 210)) Ok(()) Ok(()) Ok((210, \
530)) Ok(()) Ok((530, 530)) Ok(Ok(())) (530, 530, 1100, 1100) (4294967296, 14, true)
0|file 110;grow 0 777;grow 1 1;status;ext 0 1 111|ext 0 1 60+dep 0 2 51;ext 0 1 60+dep 4 2 51;status;ext 0 1 \
110;complete;missing: Ok(0) Ok(()) Err(InvalidOperation(UnknownFile { id: 1 })) Ok((0, 110)) \
Err(InvalidOperation(PastTotal { total: 110, counted: 0, increment: 111 })) Err(InvalidOperation(PastTotal { total: \
110, counted: 60, increment: 51 })) Err(InvalidOperation(UnknownFile { id: 4 })) Ok((0, 110)) Ok(()) Ok(true) \
Ok(Ok(())) (110, 110, 0, 0) (4294967296, 11, true)
0|grower;xorb 7 1000;grow 0 400;dep 0 7 400;progress 7 430;status|grow 0 200;ext 0 8 200;status;done \
7;status;missing: Ok(0) Ok(true) Ok(()) Ok(()) Ok(()) Ok((172, 400)) Ok(()) Ok(()) Ok((372, 600)) Ok(()) Ok((600, \
600)) Ok(Ok(())) (600, 600, 1000, 1000) (4294967296, 12, true)
0|file 100;xorb 7 3;dep 0 7 100;progress 7 1;status|background 7 1;status;progress 7 2;done 7;status: Ok(0) Ok(true) \
Ok(()) Ok(()) Ok((33, 100)) Ok(()) Ok((66, 100)) Err(InvalidOperation(PastTotal { total: 3, counted: 2, increment: 2 \
})) Ok(()) Ok((100, 100)) (100, 100, 3, 3) (4294967296, 10, true)
0|file 18446744073709551615;file 1;grower;grow 1 1;xorb 1 18446744073709551615|xorb 2 1;dep 0 1 \
18446744073709551615;progress 1 18446744073709551614;status;missing: Ok(0) Err(InvalidOperation(SumTooGreat { have: \
18446744073709551615, add: 1 })) Ok(1) Err(InvalidOperation(SumTooGreat { have: 18446744073709551615, add: 1 })) \
Ok(true) Err(InvalidOperation(SumTooGreat { have: 18446744073709551615, add: 1 })) Ok(()) Ok(()) \
Ok((18446744073709551614, 18446744073709551615)) Ok(Err(File { id: 0, completed: 18446744073709551614, total: \
18446744073709551615 })) (18446744073709551614, 18446744073709551615, 18446744073709551614, 18446744073709551615) \
(4294967296, 10, true)
0|file 0;dep 0 6 0+dep 0 4 0;ext 0 1 0;xorb 3 0|complete;missing;progress 3 0;done 3;missing: Ok(0) Ok(()) Ok(()) \
Ok(true) Ok(true) Ok(Err(Xorb { hash: MerkleHash([3, 3, 3, 3, 3, 3, 3, 3, 3, 3, 3, 3, 3, 3, 3, 3, 3, 3, 3, 3, 3, 3, \
3, 3, 3, 3, 3, 3, 3, 3, 3, 3]) })) Ok(()) Ok(()) Ok(Err(Xorb { hash: MerkleHash([4, 4, 4, 4, 4, 4, 4, 4, 4, 4, 4, 4, \
4, 4, 4, 4, 4, 4, 4, 4, 4, 4, 4, 4, 4, 4, 4, 4, 4, 4, 4, 4]) })) (0, 0, 0, 0) (4294967296, 9, true)
18446744073709551608|file 9;xorb 1 8;xorb 2 7;dep 0 1 9|progress 1 4;done 2;done 1;status: Ok(0) Ok(true) Ok(true) \
Ok(()) Ok(()) Ok(()) Ok(()) Ok((9, 9)) (9, 9, 7, 18446744073709551615) (4294967296, 8, true)
";

fn hash(xorb: u64) -> MerkleHash {
    MerkleHash([xorb.min(255) as u8; 32])
}

/// Registers a file, whose item is a new one of the group.
pub(crate) fn add_file<L: Ledger, R: Wait>(
    rt: &R,
    alloc: Global,
    tracker: &CompletionTracker<L>,
    pass: &mut TrackerPass<L>,
    group: &Arc<GroupProgress>,
    size: Option<u64>,
) -> Result<u64, ProgressError> {
    let id = UniqueID(pass.calls());
    match GroupProgress::new_item(group, rt, alloc, id, "file") {
        Ok(item) => tracker.register_new_file(rt, alloc, pass, item, size),
        Err(error) => Err(error),
    }
}

fn dependencies(alloc: Global, text: &str) -> Vec<FileXorbDependency> {
    let mut list = Vec::new(alloc);
    for part in text.split('+') {
        let call = call_of(part);
        let [file_id, xorb, n_bytes] = call.numbers;
        let _ = list.push(FileXorbDependency {
            file_id,
            xorb_hash: hash(xorb),
            n_bytes,
            is_external: call.word == "ext",
        });
    }
    list
}

/// Registers the dependencies of a text.
fn depend<L: Ledger, R: Wait>(
    rt: &R,
    alloc: Global,
    tracker: &CompletionTracker<L>,
    pass: &mut TrackerPass<L>,
    text: &str,
) -> Result<(), ProgressError> {
    let list = dependencies(alloc, text);
    tracker.register_dependencies(rt, alloc, pass, list.as_slice())
}

/// Makes a call on a xorb, and shows its answer.
fn ask_xorb<L: Ledger, R: Wait>(
    rt: &R,
    alloc: Global,
    tracker: &CompletionTracker<L>,
    pass: &mut TrackerPass<L>,
    call: Call,
    told: &mut String,
) {
    let [first, bytes, _] = call.numbers;
    let xorb = hash(first);
    let answer = match call.word {
        "done" => tracker.register_xorb_upload_completion(rt, alloc, pass, xorb),
        "progress" => tracker.register_xorb_upload_progress(rt, alloc, pass, xorb, bytes),
        _ => tracker.register_xorb_upload_progress_background(rt, alloc, pass, xorb, bytes),
    };
    show(told, &answer);
}

/// Makes a call, and shows its answer.
fn ask<L: Ledger, R: Wait>(
    rt: &R,
    alloc: Global,
    tracker: &CompletionTracker<L>,
    pass: &mut TrackerPass<L>,
    group: &Arc<GroupProgress>,
    text: &str,
    told: &mut String,
) {
    let call = call_of(text);
    let [first, bytes, _] = call.numbers;
    match call.word {
        "dep" | "ext" => show(told, &depend(rt, alloc, tracker, pass, text)),
        "file" => show(
            told,
            &add_file(rt, alloc, tracker, pass, group, Some(first)),
        ),
        "grower" => show(told, &add_file(rt, alloc, tracker, pass, group, None)),
        "grow" => show(
            told,
            &tracker.increment_file_size(rt, alloc, pass, first, bytes),
        ),
        "xorb" => show(
            told,
            &tracker.register_new_xorb(rt, alloc, pass, hash(first), bytes),
        ),
        "status" => show(told, &tracker.status(rt, alloc, pass)),
        "complete" => show(told, &tracker.is_complete(rt, alloc, pass)),
        "missing" => show(told, &tracker.assert_complete(rt, alloc, pass)),
        _ => ask_xorb(rt, alloc, tracker, pass, call, told),
    }
}

fn ask_all<L: Ledger, R: Wait>(
    rt: &R,
    alloc: Global,
    tracker: &CompletionTracker<L>,
    pass: &mut TrackerPass<L>,
    group: &Arc<GroupProgress>,
    calls: &str,
    told: &mut String,
) {
    for call in calls.split(';') {
        ask(rt, alloc, tracker, pass, group, call, told);
    }
}

/// Makes the calls of one pass, and those of another.
fn ask_both<L: Ledger, R: Wait>(
    rt: &R,
    alloc: Global,
    tracker: &CompletionTracker<L>,
    passes: (&mut TrackerPass<L>, &mut TrackerPass<L>),
    group: &Arc<GroupProgress>,
    calls: &str,
    told: &mut String,
) {
    let (calls, others) = cut(calls, "|");
    ask_all(rt, alloc, tracker, passes.0, group, calls, told);
    ask_all(rt, alloc, tracker, passes.1, group, others, told);
}

/// Writes dependencies as a row has them.
fn spell_dependencies(out: &mut String, dependencies: &[FileXorbDependency]) {
    for (number, part) in dependencies.iter().enumerate() {
        let plus = if number > 0 { "+" } else { "" };
        let word = if part.is_external { "ext" } else { "dep" };
        let (file, xorb, bytes) = (part.file_id, xorb_number(&part.xorb_hash), part.n_bytes);
        let _ = write!(out, "{plus}{word} {file} {xorb} {bytes}");
    }
}

/// Writes a call on a file or a xorb as a row has it.
fn spell(out: &mut String, word: &str, first: u64, bytes: u64) {
    let _ = write!(out, "{word} {first} {bytes}");
}

/// The number of a xorb.
fn xorb_number(xorb: &MerkleHash) -> u64 {
    u64::from(xorb.0[0])
}

/// Writes a call as a row has it.
fn spell_call(out: &mut String, step: &TrackerStep) {
    match step {
        TrackerStep::RegisterNewFile { n_bytes: None } => {
            let _ = out.push_str("grower");
        }
        TrackerStep::RegisterNewFile { n_bytes: Some(n) } => {
            let _ = write!(out, "file {n}");
        }
        TrackerStep::IncrementFileSize {
            file_id,
            size_increment,
        } => spell(out, "grow", *file_id, *size_increment),
        TrackerStep::RegisterNewXorb {
            xorb_hash,
            xorb_size,
        } => spell(out, "xorb", xorb_number(xorb_hash), *xorb_size),
        TrackerStep::RegisterDependencies { dependencies } => {
            spell_dependencies(out, dependencies.as_slice())
        }
        TrackerStep::RegisterXorbUploadCompletion { xorb_hash } => {
            let _ = write!(out, "done {}", xorb_number(xorb_hash));
        }
        TrackerStep::RegisterXorbUploadProgress {
            xorb_hash,
            new_byte_progress,
        } => spell(out, "progress", xorb_number(xorb_hash), *new_byte_progress),
        TrackerStep::RegisterXorbUploadProgressBackground {
            xorb_hash,
            new_byte_progress,
        } => spell(
            out,
            "background",
            xorb_number(xorb_hash),
            *new_byte_progress,
        ),
        TrackerStep::Status => {
            let _ = out.push_str("status");
        }
        TrackerStep::IsComplete => {
            let _ = out.push_str("complete");
        }
        TrackerStep::AssertComplete => {
            let _ = out.push_str("missing");
        }
    }
}

/// Writes calls as a row has them, each with an end.
fn spell_each(out: &mut String, history: &[TrackerCall]) {
    for call in history {
        spell_call(out, &call.step);
        let _ = out.push_str(";");
    }
}

/// Whether these are the kept calls.
fn are_asked(alloc: Global, history: &[TrackerCall], calls: &str) -> bool {
    let mut kept = String::new(alloc);
    spell_each(&mut kept, history);
    let (calls, others) = cut(calls, "|");
    let kept = kept.as_str();
    match kept.strip_prefix(calls) {
        Some(rest) => rest.strip_prefix(';').unwrap_or("").strip_suffix(';') == Some(others),
        None => false,
    }
}

/// Shows the sums of the group, what the passes count, and whether the calls were kept.
fn show_end<R: Wait>(
    rt: &R,
    alloc: Global,
    group: &GroupProgress,
    counts: (u64, u64),
    history: &[TrackerCall],
    calls: &str,
    told: &mut String,
) {
    show(told, &sums(group.report(rt)));
    show(
        told,
        &(counts.0, counts.1, are_asked(alloc, history, calls)),
    );
}

/// Makes the calls by two passes, and gathers and closes these.
fn ended<L: Ledger, R: Wait>(
    rt: &R,
    alloc: Global,
    tracker: CompletionTracker<L>,
    mut pass: TrackerPass<L>,
    group: &Arc<GroupProgress>,
    calls: &str,
    told: &mut String,
)
    requires { pass.parts ≡ 2 ^ 32 }
{
    let mut other = pass.split(1);
    ask_both(
        rt,
        alloc,
        &tracker,
        (&mut pass, &mut other),
        group,
        calls,
        told,
    );
    pass.gather(other);
    let counts = (pass.parts(), pass.calls());
    let history = tracker.close(pass);
    show_end(rt, alloc, group, counts, history.as_slice(), calls, told);
}

/// Makes the calls on a tracker of a group. The calls are no `&str`, since a call that picks a ledger has none.
fn tracked<L: Ledger, R: Wait>(
    rt: &R,
    alloc: Global,
    blank: Blank,
    group: &Arc<GroupProgress>,
    calls: &String,
    told: &mut String,
) -> Result<(), OutOfMemory>
    requires name { blank.name ≡ L.name }
    requires parts { blank.parts ≡ L.parts }
    requires all { L.parts ≡ 2 ^ 32 }
{
    let (tracker, pass) = GroupProgress::new_completion_tracker::<L>(group, alloc, blank)?;
    ended(rt, alloc, tracker, pass, group, calls.as_str(), told);
    Ok(())
}

/// The same, of a tracker with a name of its own.
fn of_own_tracker<R: Wait>(
    rt: &R,
    alloc: Global,
    group: &Arc<GroupProgress>,
    calls: &String,
    told: &mut String,
) -> Result<(), OutOfMemory> {
    tracked::<Brand, R>(rt, alloc, Blank::new(1 << 32), group, calls, told)
}

/// Makes the calls on a tracker of a group that has so many bytes to transfer already, and shows where memory was
/// wanting for the tracker.
fn show_tracker<R: Wait>(
    rt: &R,
    alloc: Global,
    group: &Arc<GroupProgress>,
    before: u64,
    calls: &String,
    told: &mut String,
) {
    let _ = group.add_transfer(rt, before, 0);
    if of_own_tracker(rt, alloc, group, calls, told).is_err() {
        show(told, &OutOfMemory);
    }
}

/// Makes the calls on a tracker of a new group.
fn show_group<R: Wait>(rt: &R, alloc: Global, before: u64, calls: &String, told: &mut String) {
    match GroupProgress::new(alloc) {
        Ok(group) => show_tracker(rt, alloc, &group, before, calls, told),
        Err(OutOfMemory) => show(told, &OutOfMemory),
    }
}

/// Makes the calls of a row.
fn told_tracker<R: Wait>(rt: &R, alloc: Global, row: &str) -> String {
    let (before, calls) = cut(row, "|");
    let mut told = String::new(alloc);
    if let Ok(calls) = String::from_str(alloc, calls) {
        show_group(rt, alloc, number(before), &calls, &mut told);
    }
    told
}

#[test]
fn trackers(rt: HostRuntime) {
    for line in TRACKERS.lines() {
        if let Some((row, wanted)) = line.split_once(':') {
            comes_to(&rt, row, told_tracker(&rt, rt.alloc(), row), wanted);
        }
    }
}
