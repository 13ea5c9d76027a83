//! The command `mirror`.
ghost use Rattle.std.specs.Prelude.{◌≡◌, ◌<◌, Bool, Err, List, length, ℕ};
ghost use Rattle.xet_store.specs.Taps.{TapTold};
ghost use Rattle.xet_room.specs.Ends.{input_limit};
ghost use Rattle.xet_room.specs.Inputs.{InputOutcome, SomePrinted, TextPrinted};
ghost use Rattle.xet_room.specs.Outcome.{IsFlushed, IsReadUnfailed, IsUnfailed, TellsFault};
ghost use Rattle.xet_base.specs.Store.{Store};
ghost use Rattle.xet_mirror_parts.specs.declared.report.MirrorError.TheVariants as mirror_error;
ghost use Rattle.xet_shelves.specs.After.{Agree};
ghost use Rattle.xet_mirror_command.specs.Mirror.{MirrorPrints, StoresPrint};
ghost use Rattle.xet_mirror_command.specs.steps.Ends.{Ends};

use crate::input::{MirrorInput, input_of_text};
use crate::report::{print_misnamed, print_missing, print_report};
use crate::run::run;
use std::alloc::Global;
use xet_base::MerkleHash;
use xet_mirror::{MirrorError, MirrorReport};
use xet_room::{Status, read_text, say};
use xet_store::{Sink, Source};

// Prints how a run over these files ended.
fn print_answer<O: Sink>(
    alloc: Global,
    answer: Result<MirrorReport, MirrorError>,
    files: &[MerkleHash],
    out: &mut O,
) -> Status
    requires { (place : ℕ) → answer ≡ Err (mirror_error.FileMissing place) → place < length files.now }
    ensures printed { (verify : Bool) (s t : Store) → Ends verify s t files.now answer
        → SomePrinted (StoresPrint verify s t files.now) (O.told out.old) (O.told out.new) result }
    ensures flushed { IsFlushed result (O.told out.new) }
    ensures unfailed { IsUnfailed result (O.told out.old) (O.told out.new) }
    ensures short { TellsFault result (O.told out.old) (O.told out.new) }
{
    match answer {
        Ok(report) => print_report(alloc, &report, out),
        Err(MirrorError::FileMissing { place }) => print_missing(
            alloc,
            &files[place as usize],
            out,
        ),
        Err(MirrorError::HashDiffers { xorb }) => print_misnamed(alloc, &xorb, out),
        Err(_) => say(out, Status::NoMemory),
    }
}

// Copies what an input asks for, and prints what that came to.
fn print_input<O: Sink>(alloc: Global, verify: bool, input: MirrorInput, out: &mut O) -> Status
    requires { Agree input.stores.source input.stores.target }
    ensures printed { SomePrinted (StoresPrint verify input.stores.source input.stores.target input.files)
        (O.told out.old) (O.told out.new) result }
    ensures flushed { IsFlushed result (O.told out.new) }
    ensures unfailed { IsUnfailed result (O.told out.old) (O.told out.new) }
    ensures short { TellsFault result (O.told out.old) (O.told out.new) }
{
    let MirrorInput { stores, files } = input;
    let answer = run(alloc, verify, stores, files.as_slice());
    print_answer(alloc, answer, files.as_slice(), out)
}

// Copies what a text asks for, and prints what that came to.
fn print<O: Sink>(alloc: Global, verify: bool, text: Vec<u8>, out: &mut O) -> Status
    ensures printed { TextPrinted (MirrorPrints verify) text.items (O.told out.old) (O.told out.new) result }
    ensures flushed { IsFlushed result (O.told out.new) }
    ensures unfailed { IsUnfailed result (O.told out.old) (O.told out.new) }
    ensures short { TellsFault result (O.told out.old) (O.told out.new) }
{
    match input_of_text(alloc, text) {
        Ok(Some(input)) => print_input(alloc, verify, input, out),
        Ok(None) => say(out, Status::BadStore),
        Err(_) => say(out, Status::NoMemory),
    }
}

/// Reads the input to its end, copies the files that it lists from its source to its target where that lacks them, in
/// memory, and prints how many files, xorbs and bytes that took. With `verify` the hash of each xorb that the target
/// gets is compared with that of its chunks. The stores have to be valid and to agree. No tap is asked.
pub fn mirror<I: Source, O: Sink>(alloc: Global, verify: bool, input: &mut I, out: &mut O) -> Status
    ensures outcome { (taps : List TapTold) → InputOutcome (MirrorPrints verify) input_limit
        (record { source = I.told input.old; sink = O.told out.old; taps = taps })
        (record { source = I.told input.new; sink = O.told out.new; taps = taps }) result }
    ensures flushed { IsFlushed result (O.told out.new) }
    ensures unfailed { IsUnfailed result (O.told out.old) (O.told out.new) }
    ensures short { TellsFault result (O.told out.old) (O.told out.new) }
    ensures read { IsReadUnfailed result (I.told input.old) (I.told input.new) }
{
    match read_text(alloc, input, out) {
        Ok(text) => print(alloc, verify, text, out),
        Err(status) => status,
    }
}
