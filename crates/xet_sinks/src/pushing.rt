//! The loop over one piece, which counts what went out.
ghost use Rattle.xet_sinks.specs.steps.Pushed.{Pushed};

use xet_outside::sink::{Sink, SinkError};

/// How much of a piece went out: all of it, so many bytes before memory ran out, or some prefix.
#[derive(Clone, Copy, PartialEq, Eq)]
pub(crate) enum Sent {
    Whole,
    Memory(usize),
    Fault,
}

/// Writes the piece until all of it is taken, or the sink fails or finds no memory.
pub(crate) fn push<S: Sink>(sink: &mut S, piece: &[u8]) -> Sent
    ensures { Pushed (S.told sink.old) (S.told sink.new) piece.now result }
{
    let mut at = 0usize;
    while at < piece.len() {
        match sink.write(&piece[at..]) {
            Ok(count) => at += count,
            Err(SinkError::OutOfMemory) => return Sent::Memory(at),
            Err(SinkError::Failed) => return Sent::Fault,
        }
    }
    Sent::Whole
}
