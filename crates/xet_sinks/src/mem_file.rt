//! Files in memory.
ghost use Rattle.std.specs.Prelude.{◌≡◌, ◌+◌, ◌-◌, ◌<◌, ◌≤◌, ◌++◌, [], IfOk, Ok, OnErr, OnOk, Some, drop};
ghost use Rattle.std.specs.Prelude.{length, option_map, replicate, take};
ghost use Rattle.xet_sinks.specs.MemFiles.{MemStands, mem_told};
ghost use Rattle.xet_outside.specs.Places.{PlaceCall, at_place, emptied, placed_of, put_at};
ghost use Rattle.xet_outside.specs.Told.{FlushCall, WriteCall, into_place};

use std::alloc::Global;
use std::snapshot::Snapshot;
use xet_base::OutOfMemory;
use xet_outside::PlaceSink;
use xet_outside::sink::{Sink, SinkError};

/// A file in memory: a content, a place, and the bytes that were taken. It has no faults.
#[derive(Drop)]
pub struct MemFile {
    content: Vec<u8>,
    place: u64,
    taken: Vec<u8>,
    // how many of the taken bytes are flushed
    flushed: usize,
    // the content, the place and the number of taken bytes when the place was last set
    set_content: Snapshot<Vec<u8>>,
    set_place: Snapshot<u64>,
    set_taken: Snapshot<usize>,
    pub ghost stands: { MemStands content.items place taken.items
        set_content.value.items set_place.value set_taken.value },
}

impl MemFile {
    /// A file with this content, whose place is 0. It takes no memory yet.
    pub fn new(alloc: Global, content: Vec<u8>) -> MemFile
        ensures { ⟦<MemFile as Sink>⟧.told result ≡ record {
          took = Some [];
          flushed = Some 0;
          faults = 0;
          link = into_place (record { content = content.items; place = 0; taken = 0 });
        } }
    {
        let set_content = Snapshot::of(&content);
        let set_place = Snapshot::of(&0);
        let set_taken = Snapshot::of(&0);
        MemFile {
            content,
            place: 0,
            taken: Vec::new(alloc),
            flushed: 0,
            set_content,
            set_place,
            set_taken,
        }
    }

    /// The content.
    pub fn content(&self) -> &[u8]
        ensures { option_map (λ p. p.content) (placed_of (⟦<MemFile as Sink>⟧.told self.now)) ≡ Some result.now }
    {
        self.content.as_slice()
    }
}

// Makes a content at least so long, with zeros at its end. `OutOfMemory` leaves it as it was.
fn grow(content: &mut Vec<u8>, end: usize) -> Result<(), OutOfMemory>
    ensures grown { OnOk result (content.new.items
        ≡ content.old.items ++ replicate (end - length content.old.items) 0) }
    ensures kept { OnErr result (content.new.items ≡ content.old.items) }
{
    if content.len() < end {
        content.resize(end, 0)?;
    }
    Ok(())
}

// Writes a piece over the bytes from a place on.
fn overwrite(content: &mut Vec<u8>, place: usize, piece: &[u8])
    requires { place + length piece.now ≤ length content.old.items }
    ensures { content.new.items
        ≡ take place content.old.items ++ piece.now ++ drop (place + length piece.now) content.old.items }
{
    let end = place + piece.len();
    content[place..end].copy_from_slice(piece);
}

// Puts a piece into the content at a place, with zeros between the content's end and the place. Answers the place
// after it. `OutOfMemory` leaves the content as it was.
fn put(content: &mut Vec<u8>, place: u64, piece: &[u8]) -> Result<u64, OutOfMemory>
    requires { 0 < length piece.now }
    ensures put { IfOk result (λ end. (end ≡ place + length piece.now)
        × (content.new.items ≡ put_at content.old.items place piece.now)) }
    ensures kept { OnErr result (content.new.items ≡ content.old.items) }
{
    let Some(end) = place.checked_add(piece.len() as u64) else {
        return Err(OutOfMemory);
    };
    grow(content, end as usize)?;
    overwrite(content, place as usize, piece);
    Ok(end)
}

impl Sink for MemFile {
    ghost told = { λ s. mem_told s.taken.items s.flushed
        s.set_content.value.items s.set_place.value s.set_taken.value };

    /// Takes the whole piece. Want of memory is the only error.
    fn write(&mut self, piece: &[u8]) -> Result<usize, SinkError>
        ensures call { WriteCall (⟦<MemFile as Sink>⟧.told self.old)
            (⟦<MemFile as Sink>⟧.told self.new) piece.now result }
        ensures whole { IfOk result (λ count. count ≡ length piece.now) }
    {
        if piece.is_empty() {
            return Ok(0);
        }
        let taken = self.taken.len();
        if self.taken.extend_from_slice(piece).is_err() {
            return Err(SinkError::OutOfMemory);
        }
        match put(&mut self.content, self.place, piece) {
            Ok(end) => {
                self.place = end;
                Ok(piece.len())
            }
            Err(_) => {
                self.taken.truncate(taken);
                Err(SinkError::OutOfMemory)
            }
        }
    }

    /// Succeeds.
    fn flush(&mut self) -> Result<(), SinkError>
        ensures call { FlushCall (⟦<MemFile as Sink>⟧.told self.old)
            (⟦<MemFile as Sink>⟧.told self.new) result }
        ensures ok { result ≡ Ok tt }
    {
        self.flushed = self.taken.len();
        Ok(())
    }
}

impl PlaceSink for MemFile {
    /// Succeeds.
    fn empty(&mut self) -> Result<(), SinkError>
        ensures call { PlaceCall (⟦<MemFile as Sink>⟧.told self.old)
            (⟦<MemFile as Sink>⟧.told self.new) emptied result }
        ensures ok { result ≡ Ok tt }
    {
        self.content.clear();
        self.place = 0;
        self.set_content = Snapshot::of(&self.content);
        self.set_place = Snapshot::of(&self.place);
        self.set_taken = Snapshot::of(&self.taken.len());
        Ok(())
    }

    /// Succeeds.
    fn seek(&mut self, place: u64) -> Result<(), SinkError>
        ensures call { PlaceCall (⟦<MemFile as Sink>⟧.told self.old)
            (⟦<MemFile as Sink>⟧.told self.new) (at_place place) result }
        ensures ok { result ≡ Ok tt }
    {
        self.place = place;
        self.set_content = Snapshot::of(&self.content);
        self.set_place = Snapshot::of(&self.place);
        self.set_taken = Snapshot::of(&self.taken.len());
        Ok(())
    }

    ghost counted = { λ s. s.stands.within };
}
