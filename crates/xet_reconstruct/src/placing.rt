//! Makes a file ready for the bytes of a run.
ghost use Rattle.std.specs.Prelude.{◌≡◌};
ghost use Rattle.xet_outside.specs.Places.{PlaceCall, at_place};
ghost use Rattle.xet_reconstruct.specs.steps.Placing.{ClearCall, Follows, ReadyCall};

use xet_error::{FileReconstructionError, Result};
use xet_outside::{PlaceSink, SinkError, place_follows};

/// Empties a file where that is wanted.
fn clear<F: PlaceSink>(file: &mut F, truncate: bool) -> std::result::Result<(), SinkError>
    ensures { ClearCall truncate (F.told file.old) (F.told file.new) result }
{
    if truncate {
        return file.empty();
    }
    Ok(())
}

/// Sets a file's place. What it takes from then on stands there.
fn set_place<F: PlaceSink>(file: &mut F, place: u64) -> std::result::Result<(), SinkError>
    ensures seek { PlaceCall (F.told file.old) (F.told file.new) (at_place place) result }
    ensures follows { Follows (F.told file.new) }
{
    let answer = file.seek(place);
    place_follows(&*file);
    answer
}

/// Makes a file ready: emptied where it is to be truncated, and at its place.
///
/// `IoError` where the file's faults rose, `OutOfMemory` where it found no memory.
pub(crate) fn make_ready<F: PlaceSink>(file: &mut F, place: u64, truncate: bool) -> Result<()>
    ensures { ReadyCall truncate place (F.told file.old) (F.told file.new) result }
{
    match clear(file, truncate) {
        Ok(()) => match set_place(file, place) {
            Ok(()) => Ok(()),
            Err(error) => Err(FileReconstructionError::from(error)),
        },
        Err(error) => Err(FileReconstructionError::from(error)),
    }
}
