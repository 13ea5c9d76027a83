//! Where bytes go.
ghost use Rattle.std.specs.List.{concat};
ghost use Rattle.xet_outside.specs.Told.{FlushCall, SinkTold, WriteCall, through};

use bytes::Bytes;
use thiserror::Error;

/// Why a sink took no more.
#[derive(Clone, Copy, PartialEq, Eq, Debug, Drop, Error)]
pub enum SinkError {
    /// An allocation was refused, and nothing was taken.
    #[error("OutOfMemory")]
    OutOfMemory,
    /// The sink failed, and its count of faults rose. It may have taken a prefix of the piece.
    #[error("Failed")]
    Failed,
}

/// An output of bytes. A sink that grows keeps its own allocator.
pub trait Sink {
    /// The bytes that were taken and how many of them are flushed, where that is told, the count of faults, and what
    /// it writes through.
    ghost told: { Self → SinkTold };

    /// Takes a prefix of the piece, and answers its length: at least one byte of a nonempty piece. `Failed` comes only
    /// where the count of faults rose, and then an unknown prefix was taken. An Ok and want of memory leave that count.
    fn write(&mut self, piece: &[u8]) -> Result<usize, SinkError>
        ensures { WriteCall (told self.old) (told self.new) piece.now result };

    /// Flushes all that was taken. `Failed` comes only where the count of faults rose. An Ok and want of memory leave
    /// that count. After an error as many of the taken bytes are flushed as before.
    fn flush(&mut self) -> Result<(), SinkError>
        ensures { FlushCall (told self.old) (told self.new) result };

    /// Takes a prefix of the joined pieces, and answers its length: at least one byte, where they have any. `Failed`
    /// comes only where the count of faults rose, and then an unknown prefix was taken. An Ok and want of memory leave
    /// that count.
    ///
    /// Where a sink has no body of its own, the pieces are written one after another, up to one that isn't taken whole,
    /// that finds no memory after others were taken, or with which the count would not fit.
    fn write_vectored(&mut self, pieces: &[Bytes]) -> Result<usize, SinkError>
        ensures { WriteCall (told self.old) (told self.new) (concat pieces.now) result }
    {
        let mut taken = 0usize;
        for piece in pieces {
            if taken > usize::MAX - piece.len() {
                return Ok(taken);
            }
            match self.write(piece.as_slice()) {
                Ok(count) => {
                    taken += count;
                    if count < piece.len() {
                        return Ok(taken);
                    }
                }
                Err(SinkError::OutOfMemory) => {
                    if taken == 0 {
                        return Err(SinkError::OutOfMemory);
                    }
                    return Ok(taken);
                }
                Err(SinkError::Failed) => return Err(SinkError::Failed),
            }
        }
        Ok(taken)
    }
}

impl<S: Sink> Sink for &mut S {
    ghost told = { λ s. record (S.told s.now) { link = through s.ghost_name (S.told s.now).link } };

    fn write(&mut self, piece: &[u8]) -> Result<usize, SinkError> {
        (**self).write(piece)
    }

    fn flush(&mut self) -> Result<(), SinkError> {
        (**self).flush()
    }

    fn write_vectored(&mut self, pieces: &[Bytes]) -> Result<usize, SinkError> {
        (**self).write_vectored(pieces)
    }
}
