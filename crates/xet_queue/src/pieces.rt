//! The two loops that write pieces into a sink.
ghost use Rattle.std.specs.List.{concat};
ghost use Rattle.std.specs.Prelude.{◌≡◌, ◌+◌, ◌^◌, ◌<◌, ◌≤◌, [], drop, get_or, length, take};
ghost use Rattle.xet_outside.specs.Told.{WriteCall};
ghost use Rattle.xet_queue.specs.Pieces.{WrotePieces, bytes_before};
ghost use Rattle.xet_queue.specs.Queues.{ready, ready_bytes};
ghost use Rattle.xet_queue.specs.steps.PieceSteps.{WrotePiece};

use crate::queued_term::QueuedTerm;
use bytes::Bytes;
use std::collections::VecDeque;
use std::mem;
use xet_outside::{Sink, SinkError};

/// The most pieces that one vectored write is given.
pub(crate) const PIECES: usize = 24;

/// How many bytes were written for sure, and how it ended.
#[derive(Drop)]
pub struct Sent {
    /// The bytes that went out for sure.
    pub count: u64,
    /// The error of the write that failed, if one did.
    pub end: Result<(), SinkError>,
}

/// Where the rest of some pieces starts.
#[derive(Clone, Copy)]
struct Place {
    /// The number of the first piece with bytes left.
    piece: usize,
    /// How many of its bytes were taken.
    taken: usize,
}

/// Writes one piece until it is taken.
fn write_piece<S: Sink>(sink: &mut S, piece: &[u8]) -> Result<(), SinkError>
    ensures { WrotePiece (S.told sink.old) (S.told sink.new) piece.now result }
{
    let mut at = 0usize;
    while at < piece.len() {
        at += sink.write(&piece[at..])?;
    }
    Ok(())
}

/// Writes the bytes of the terms before the first wanted one, each until they are taken. They stay where they are.
pub(crate) fn write_each<S: Sink>(sink: &mut S, queue: &VecDeque<QueuedTerm>) -> Sent
    requires { length (ready_bytes queue.now.items) < 2 ^ 64 }
    ensures { WrotePieces 1 (S.told sink.old) (S.told sink.new) (ready queue.now.items) result.count result.end }
{
    let mut count = 0u64;
    for i in 0..queue.len() {
        let Some(bytes) = &queue[i].bytes else {
            return Sent { count, end: Ok(()) };
        };
        match write_piece(sink, bytes.as_slice()) {
            Ok(()) => count += bytes.len() as u64,
            Err(error) => {
                return Sent {
                    count,
                    end: Err(error),
                };
            }
        }
    }
    Sent { count, end: Ok(()) }
}

/// Passes over the pieces from number `at` on that these first bytes fill.
fn pass(pieces: &[Bytes], at: usize, taken: usize) -> Place
    requires within { at ≤ length pieces.now }
    requires short { taken ≤ length (concat (drop at pieces.now)) }
    ensures within { result.piece ≤ length pieces.now }
    ensures place { bytes_before result.piece pieces.now + result.taken ≡ bytes_before at pieces.now + taken }
    ensures inside { result.piece < length pieces.now → result.taken < length (get_or pieces.now result.piece []) }
{
    let mut at = at;
    let mut left = taken;
    while at < pieces.len() && pieces[at].len() <= left {
        left -= pieces[at].len();
        at += 1;
    }
    Place {
        piece: at,
        taken: left,
    }
}

/// Hands at most 24 pieces, from number `at` on, to one write.
fn write_some<S: Sink>(sink: &mut S, pieces: &[Bytes], at: usize) -> Result<usize, SinkError>
    requires { at < length pieces.now }
    ensures { WriteCall (S.told sink.old) (S.told sink.new) (concat (take 24 (drop at pieces.now))) result }
{
    let end = at + (pieces.len() - at).min(PIECES);
    sink.write_vectored(&pieces[at..end])
}

/// Hands at most 24 pieces to one write, from a place on, the first one cut.
fn write_rest<S: Sink>(sink: &mut S, pieces: &mut [Bytes], place: Place) -> Result<usize, SinkError>
    requires within { place.piece < length pieces.old }
    requires inside { place.taken < length (get_or pieces.old place.piece []) }
    ensures call { WriteCall (S.told sink.old) (S.told sink.new)
        (drop place.taken (concat (take 24 (drop place.piece pieces.old)))) result }
    ensures pieces { pieces.new ≡ pieces.old }
{
    let Place { piece, taken } = place;
    if taken == 0 {
        return write_some(sink, pieces, piece);
    }
    let Ok(mut rest) = pieces[piece].clone() else {
        return Err(SinkError::OutOfMemory);
    };
    rest.advance(taken);
    let whole = mem::replace(&mut pieces[piece], rest);
    let answer = write_some(sink, pieces, piece);
    pieces[piece] = whole;
    answer
}

/// Writes at most 24 pieces at a time. After a write the pieces that were taken are left out, and the front one is cut.
/// At the end the pieces are as they were.
pub(crate) fn write_together<S: Sink>(sink: &mut S, pieces: &mut [Bytes]) -> Sent
    requires { length (concat pieces.old) < 2 ^ 64 }
    ensures sent { WrotePieces 24 (S.told sink.old) (S.told sink.new) pieces.old result.count result.end }
    ensures pieces { pieces.new ≡ pieces.old }
{
    let mut count = 0u64;
    let mut place = pass(pieces, 0, 0);
    while place.piece < pieces.len() {
        match write_rest(sink, pieces, place) {
            Ok(taken) => {
                count += taken as u64;
                place = pass(pieces, place.piece, place.taken + taken);
            }
            Err(error) => {
                return Sent {
                    count,
                    end: Err(error),
                };
            }
        }
    }
    Sent { count, end: Ok(()) }
}
