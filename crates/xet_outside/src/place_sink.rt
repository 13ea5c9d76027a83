//! Sinks with a content and a place.
ghost use Rattle.std.specs.Prelude.{◌≡◌, List, ℕ};
ghost use Rattle.xet_outside.specs.Places.{IsPlaced, IsWritten, PlaceCall, at_place, emptied};
ghost use Rattle.xet_outside.specs.Told.{SinkTold, Took};

use crate::sink::{Sink, SinkError};

/// A sink that writes into a content at a place, as a file does. Where it tells both, they stand in its `told`: its
/// link says how the place was last set, and what it took since then stands in the content from that place on, with
/// zeros between the old end and the place. So every call that keeps the link says of the content what it says of the
/// taken bytes.
pub trait PlaceSink: Sink {
    /// Makes the content empty and the place 0, and leaves what was taken. `Failed` comes only where the count of
    /// faults rose. An Ok and want of memory leave that count. A refused call leaves content and place, where they are
    /// told.
    fn empty(&mut self) -> Result<(), SinkError>
        ensures { PlaceCall (Self.told self.old) (Self.told self.new) emptied result };

    /// Makes this the place, also past the content's end, and leaves the content and what was taken. `Failed` comes
    /// only where the count of faults rose. An Ok and want of memory leave that count. A refused call leaves content
    /// and place, where they are told.
    fn seek(&mut self, place: u64) -> Result<(), SinkError>
        ensures { PlaceCall (Self.told self.old) (Self.told self.new) (at_place place) result };

    /// A place that is told was set before the bytes were taken that stand from there on.
    ghost counted: { (s : Self) → IsPlaced (Self.told s) };
}

impl<F: PlaceSink> PlaceSink for &mut F {
    fn empty(&mut self) -> Result<(), SinkError> {
        (**self).empty()
    }

    fn seek(&mut self, place: u64) -> Result<(), SinkError> {
        (**self).seek(place)
    }

    ghost counted = { λ s. F.counted s.now };
}

/// A law of every sink with a place: from here on, what it takes stands at its place, as long as its link stands,
/// which no write and no flush changes.
pub fn place_follows<F: PlaceSink>(file: &F)
    ensures { (later : SinkTold) (bytes : List ℕ)
        → Took (F.told file.now).took later.took bytes → later.link ≡ (F.told file.now).link
        → IsWritten (F.told file.now) later bytes }
{
    let _ = file;
}
