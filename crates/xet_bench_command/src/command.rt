//! The command `bench`.
ghost use Rattle.std.specs.Prelude.{◌≡◌, IfErr, IfOk, List, None, OnOk, string_bytes};
ghost use Rattle.xet_outside.specs.Told.{SourceTold};
ghost use Rattle.xet_store.specs.Taps.{TapTold};
ghost use Rattle.xet_room.specs.Outcome.{IsFlushed, IsUnfailed, TellsFault};
ghost use Rattle.xet_bench.specs.Bench.{bench_text};
ghost use Rattle.xet_bench.specs.Running.{BenchCause};
ghost use Rattle.xet_bench_command.specs.Bench.{BenchOutcome, run_of, unmet_bench};

use crate::wanted::BenchWanted;
use std::alloc::Global;
use std::sync::Wait;
use std::thread::Threads;
use xet_bench::{BenchError, run_bench};
use xet_get_command::new_book_view;
use xet_room::{Status, print_text, say};
use xet_store::Sink;

// The lines of a run within the limits of a new book.
fn lines<R: Threads + Wait + Sync>(
    rt: &R,
    alloc: Global,
    wanted: BenchWanted,
) -> Result<String, BenchError>
    ensures met { OnOk result (unmet_bench wanted ≡ None) }
    ensures text { IfOk result (λ text. string_bytes text ≡ bench_text wanted.terms) }
    ensures cause { IfErr result (BenchCause (run_of wanted)) }
{
    let view = new_book_view(rt, alloc, wanted.options.budget_settings())?;
    run_bench(rt, alloc, wanted.run(), view)
}

/// Makes a store with a file of so many terms, runs all of it, and prints four lines: how many terms and how many bytes
/// it has, the sum of these, and their SHA-256. They are the same for all options that don't fail. Nothing is read, and
/// no tap is asked.
pub fn bench<R: Threads + Wait + Sync, O: Sink>(
    rt: &R,
    alloc: Global,
    wanted: BenchWanted,
    out: &mut O,
) -> Status
    ensures outcome { (source : SourceTold) (taps : List TapTold) → BenchOutcome wanted
        (record { source = source; sink = O.told out.old; taps = taps })
        (record { source = source; sink = O.told out.new; taps = taps }) result }
    ensures flushed { IsFlushed result (O.told out.new) }
    ensures unfailed { IsUnfailed result (O.told out.old) (O.told out.new) }
    ensures short { TellsFault result (O.told out.old) (O.told out.new) }
{
    match lines(rt, alloc, wanted) {
        Ok(text) => print_text(out, Status::Done, text.as_bytes()),
        Err(BenchError::OutOfMemory) => say(out, Status::NoMemory),
        Err(BenchError::Settings(setting)) => say(out, Status::BadSettings(setting)),
    }
}
