//! The digits of a range of a file.
ghost use Rattle.std.specs.Prelude.{◌≡◌, length, map};
ghost use Rattle.xet_get_command.specs.steps.PrintedDigits.{DigitsBehind, Driven, Ran};
ghost use Rattle.xet_get_command.specs.steps.TapRuns.{IsBookOf};

use crate::connections::run_on_store;
use crate::wanted::Wanted;
use std::alloc::Global;
use std::sync::Wait;
use std::thread::Threads;
use xet_error::{FileReconstructionError, Setting};
use xet_room::LaterFlush;
use xet_run::BookView;
use xet_store::{HexSink, MemStore, Sink, SinkError, Tap};

/// How far the bytes of a range were printed.
#[derive(Clone, Copy)]
pub enum Printed {
    /// All of them, cut to the file's end: so many bytes.
    All(u64),
    /// None: the range isn't empty, and the store has no such file.
    NoFile,
    /// Some first ones: an allocation was refused.
    Part,
    /// Some first ones: the output takes no more.
    Stopped(SinkError),
    /// Some first ones: a block that the tap handed on failed the test of this number.
    BadBlock(u8),
    /// None: this setting fails first.
    BadSettings(Setting),
}

// The run, with how far the bytes were printed.
fn run<R: Threads + Wait + Sync, T: Tap + Send, O: Sink>(
    rt: &R,
    alloc: Global,
    wanted: Wanted,
    view: BookView,
    store: &MemStore,
    taps: &mut Vec<T>,
    out: &mut O,
) -> Printed
    requires count { length taps.old.items ≡ 64 }
    requires book { IsBookOf wanted view }
    ensures { Ran store.now wanted (map T.told taps.old.items) (map T.told taps.new.items)
        (O.told out.old) (O.told out.new) result }
{
    match run_on_store(rt, alloc, wanted, view, store, taps, out) {
        Ok(count) => Printed::All(count),
        Err(FileReconstructionError::FileNotFound) => Printed::NoFile,
        Err(FileReconstructionError::OutOfMemory) => Printed::Part,
        Err(FileReconstructionError::IoError) => Printed::Stopped(SinkError::Failed),
        Err(FileReconstructionError::CorruptedReconstruction(test)) => {
            Printed::BadBlock(test.number())
        }
        Err(FileReconstructionError::ConfigurationError(setting)) => Printed::BadSettings(setting),
        // connections to a valid store, without faults and expired answers, and no signal
        Err(FileReconstructionError::ClientError) => unreachable!(),
        Err(FileReconstructionError::UrlExpired) => unreachable!(),
        Err(FileReconstructionError::Cancelled) => unreachable!(),
        Err(FileReconstructionError::InternalWriterError(_)) => unreachable!(),
    }
}

// The run through a sink of digits, which then sends a digit that is missing, unless it failed.
fn drive<R: Threads + Wait + Sync, T: Tap + Send, O: Sink>(
    rt: &R,
    alloc: Global,
    wanted: Wanted,
    view: BookView,
    store: &MemStore,
    taps: &mut Vec<T>,
    digits: &mut HexSink<O>,
) -> Printed
    requires count { length taps.old.items ≡ 64 }
    requires book { IsBookOf wanted view }
    ensures { Driven store.now wanted (map T.told taps.old.items) (map T.told taps.new.items)
        (⟦<HexSink<O> as Sink>⟧.told digits.old) (⟦<HexSink<O> as Sink>⟧.told digits.new)
        (O.told digits.new.start.value).took (O.told digits.new.inner).took result }
{
    let printed = run(rt, alloc, wanted, view, store, taps, digits);
    if let Printed::Stopped(_) = printed {
        return printed;
    }
    match digits.flush() {
        Ok(()) => printed,
        Err(error) => Printed::Stopped(error),
    }
}

/// Prints the lower-case digits of the bytes that are wanted, from blocks that the taps handed on. They are not
/// flushed.
pub fn print_digits<R: Threads + Wait + Sync, T: Tap + Send, O: Sink>(
    rt: &R,
    alloc: Global,
    wanted: Wanted,
    view: BookView,
    store: &MemStore,
    taps: &mut Vec<T>,
    out: &mut O,
) -> Printed
    requires count { length taps.old.items ≡ 64 }
    requires book { IsBookOf wanted view }
    ensures { DigitsBehind store.now wanted (map T.told taps.old.items) (map T.told taps.new.items)
        (O.told out.old) (O.told out.new) result }
{
    let mut digits = HexSink::new(LaterFlush::new(out));
    let printed = drive(rt, alloc, wanted, view, store, taps, &mut digits);
    let _out = digits.into_inner().into_inner();
    printed
}
