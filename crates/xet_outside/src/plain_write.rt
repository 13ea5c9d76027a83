//! Writes of whole pieces.
ghost use Rattle.xet_outside.specs.Written.{WroteAll};

use crate::sink::{Sink, SinkError};

/// Writes one piece until it is taken. `Failed` comes only where the sink's count of faults rose; an Ok and want of
/// memory leave that count. After an error a prefix of the piece was taken.
pub fn write_plainly<S: Sink>(sink: &mut S, piece: &[u8]) -> Result<(), SinkError>
    ensures { WroteAll (S.told sink.old) (S.told sink.new) piece.now result }
{
    let mut at = 0usize;
    while at < piece.len() {
        at += sink.write(&piece[at..])?;
    }
    Ok(())
}
