//! The command `compact`.
ghost use Rattle.std.specs.Prelude.{◌≡◌, ◌++◌, ◌∷◌, IfOk, List, string_bytes};
ghost use Rattle.xet_store.specs.Taps.{TapTold};
ghost use Rattle.xet_audit.specs.Raws.{store_of_raw};
ghost use Rattle.xet_compact.specs.Documents.{IsInOrder};
ghost use Rattle.xet_room.specs.declared.status.Status.TheVariants.{BadHash, Done};
ghost use Rattle.xet_room.specs.Ends.{input_limit};
ghost use Rattle.xet_room.specs.Inputs.{InputOutcome, SomePrinted, TextPrinted};
ghost use Rattle.xet_room.specs.Outcome.{Finished, IsFlushed, IsReadUnfailed, IsUnfailed, TellsFault};
ghost use Rattle.xet_room.specs.Texts.{hash_line};
ghost use Rattle.xet_compact_command.specs.Compact.{CompactPrints};
ghost use Rattle.xet_compact_command.specs.steps.Printing.{OnePrinted, StorePrinted, StorePrints, counts_line};

use std::alloc::Global;
use std::mem::forget;
use xet_audit::{RawStore, raw_of_text};
use xet_base::{MerkleHash, OutOfMemory};
use xet_compact::{CompactError, Compacted, document};
use xet_room::{Status, finish, print_text, read_text, say, stopped};
use xet_store::{Sink, Source, write_plainly};

// The last line of a compacted store.
fn line_of_kept(alloc: Global, compacted: &Compacted) -> Result<String, OutOfMemory>
    ensures { IfOk result (λ text. string_bytes text ≡ counts_line compacted.now) }
{
    let kept = compacted.store.xorbs.len();
    let dropped = compacted.dropped_chunks;
    Ok(format!(in alloc; "ok {kept} {dropped}\n")?)
}

// The line of a hash under which lists of chunks that differ would stand.
fn line_of_clash(alloc: Global, hash: &MerkleHash) -> Result<String, OutOfMemory>
    ensures { IfOk result (λ text. string_bytes text ≡ hash_line hash.now.0) }
{
    let digits = hex::encode(alloc, hash.0.as_slice())?;
    Ok(format!(in alloc; "error hash {digits}\n")?)
}

// Prints a text, a line end and a last line.
fn print_both<O: Sink>(text: &[u8], last: &[u8], out: &mut O) -> Status
    ensures text { Finished (text.now ++ 10 ∷ last.now) Done (O.told out.old) (O.told out.new) result }
    ensures flushed { IsFlushed result (O.told out.new) }
    ensures unfailed { IsUnfailed result (O.told out.old) (O.told out.new) }
    ensures short { TellsFault result (O.told out.old) (O.told out.new) }
{
    match write_plainly(out, text) {
        Ok(()) => finish(out, Status::Done, last),
        Err(error) => stopped(error),
    }
}

// Prints the document of a compacted store, which stands in order, and the last line.
fn print_compacted<O: Sink>(alloc: Global, compacted: &Compacted, out: &mut O) -> Status
    requires { IsInOrder (store_of_raw compacted.now.store) }
    ensures text { StorePrinted compacted.now (O.told out.old) (O.told out.new) result }
    ensures flushed { IsFlushed result (O.told out.new) }
    ensures unfailed { IsUnfailed result (O.told out.old) (O.told out.new) }
    ensures short { TellsFault result (O.told out.old) (O.told out.new) }
{
    let Ok(text) = document(alloc, &compacted.store) else {
        return say(out, Status::NoMemory);
    };
    match line_of_kept(alloc, compacted) {
        Ok(last) => print_both(text.as_str().as_bytes(), last.as_bytes(), out),
        Err(_) => say(out, Status::NoMemory),
    }
}

// Prints the line of a hash under which lists of chunks that differ would stand.
fn print_clash<O: Sink>(alloc: Global, hash: &MerkleHash, out: &mut O) -> Status
    ensures text { OnePrinted (hash_line hash.now.0) BadHash (O.told out.old) (O.told out.new) result }
    ensures flushed { IsFlushed result (O.told out.new) }
    ensures unfailed { IsUnfailed result (O.told out.old) (O.told out.new) }
    ensures short { TellsFault result (O.told out.old) (O.told out.new) }
{
    match line_of_clash(alloc, hash) {
        Ok(line) => print_text(out, Status::BadHash, line.as_bytes()),
        Err(_) => say(out, Status::NoMemory),
    }
}

// Compacts a store, and prints the result.
fn print_store<O: Sink>(alloc: Global, raw: &RawStore, out: &mut O) -> Status
    ensures printed { SomePrinted (StorePrints (store_of_raw raw.now)) (O.told out.old) (O.told out.new) result }
    ensures flushed { IsFlushed result (O.told out.new) }
    ensures unfailed { IsUnfailed result (O.told out.old) (O.told out.new) }
    ensures short { TellsFault result (O.told out.old) (O.told out.new) }
{
    match xet_compact::compact(alloc, raw) {
        Ok(compacted) => print_compacted(alloc, &compacted, out),
        Err(CompactError::OutOfMemory) => say(out, Status::NoMemory),
        Err(CompactError::NotValid) => say(out, Status::BadStore),
        Err(CompactError::Clash(hash)) => print_clash(alloc, &hash, out),
    }
}

// Compacts the store that a text lists, and prints the result.
fn print<O: Sink>(alloc: Global, text: Vec<u8>, out: &mut O) -> Status
    ensures printed { TextPrinted CompactPrints text.items (O.told out.old) (O.told out.new) result }
    ensures flushed { IsFlushed result (O.told out.new) }
    ensures unfailed { IsUnfailed result (O.told out.old) (O.told out.new) }
    ensures short { TellsFault result (O.told out.old) (O.told out.new) }
{
    match raw_of_text(alloc, text) {
        Ok(Some(raw)) => {
            let status = print_store(alloc, &raw, out);
            // The process ends after a command and gives its memory back as a whole, which takes less time.
            forget(raw);
            status
        }
        Ok(None) => say(out, Status::BadStore),
        Err(_) => say(out, Status::NoMemory),
    }
}

/// Reads the input to its end, and prints the document of the store that it lists without the xorbs that no file names
/// and the chunks that no term holds, and how many xorbs are left and how many chunks were dropped. The store has to
/// be valid. No tap is asked.
pub fn compact<I: Source, O: Sink>(alloc: Global, input: &mut I, out: &mut O) -> Status
    ensures outcome { (taps : List TapTold) → InputOutcome CompactPrints input_limit
        (record { source = I.told input.old; sink = O.told out.old; taps = taps })
        (record { source = I.told input.new; sink = O.told out.new; taps = taps }) result }
    ensures flushed { IsFlushed result (O.told out.new) }
    ensures unfailed { IsUnfailed result (O.told out.old) (O.told out.new) }
    ensures short { TellsFault result (O.told out.old) (O.told out.new) }
    ensures read { IsReadUnfailed result (I.told input.old) (I.told input.new) }
{
    match read_text(alloc, input, out) {
        Ok(text) => print(alloc, text, out),
        Err(status) => status,
    }
}
