//! The queue of a writer in order: its terms before its sink.
ghost use Rattle.std.specs.List.{position_from};
ghost use Rattle.std.specs.Prelude.{◌≡◌, ◌+◌, ◌<◌, ◌≤◌, ◌^◌, ◌++◌, [], ◌∷◌, IfErr, IfOk, None, OnErr, OnOk, Some};
ghost use Rattle.std.specs.Prelude.{false, length, true};
ghost use Rattle.std.specs.Vec.{vec_capacity};
ghost use Rattle.std.specs.VecDeque.{deque_capacity, deque_len};
ghost use Rattle.xet_error.specs.declared.error.FileReconstructionError.TheVariants as error;
ghost use Rattle.xet_error.specs.Errors.{of_sink_error};
ghost use Rattle.xet_outside.specs.Told.{FlushCall};
ghost use Rattle.xet_queue.specs.Calls.{closed_by, finish_fault, kept_fault};
ghost use Rattle.xet_queue.specs.Queues.{fits, is_wanted_at, ready_bytes, wanted};
ghost use Rattle.xet_queue.specs.Sequential.{TookReleased, most_pieces, told_of};
ghost use Rattle.xet_queue.specs.steps.Batches.{BatchCall, SentReady};
ghost use Rattle.xet_queue.specs.steps.QueueSteps.{GiveCall, PassedFront};
ghost use Rattle.xet_queue.specs.Sequential.{PassedAll};
ghost use Rattle.xet_queue.specs.steps.WantedPlaces.{places_of};

use crate::faults::{error_to_keep, test_length};
use crate::leaving::{give_back, let_go};
use crate::lending::{lend, put_back, put_bytes, write_list};
use crate::pieces::{PIECES, Sent, write_each};
use crate::queued_term::{QueuedTerm, WantedPlace};
use crate::waiting::Waiting;
use bytes::Bytes;
use std::alloc::Global;
use std::collections::VecDeque;
use std::marker::Model;
use xet_base::OutOfMemory;
use xet_error::{FileReconstructionError, Result, WriterFault};
use xet_outside::{Sink, SinkError};
use xet_run::Admission;

/// The terms of a writer in order before its sink, with what it keeps besides. The first term starts at place 0, and
/// each one where the one before it ends.
///
/// Taking a term takes constant time, and logarithmic time in the wanted terms where it is wanted. Writing takes linear
/// time in the pieces and the bytes that go out; bytes are shared and never copied.
#[derive(Drop)]
pub struct TermQueue<S> {
    sink: S,
    use_vectorized: bool,
    // the terms that are not wholly written
    queue: VecDeque<QueuedTerm>,
    // how many terms left the queue, which is the number of its first term
    passed: u64,
    // the wanted terms of the queue, by their starts
    waiting: Waiting<WantedPlace>,
    // the admissions of written terms, with room for those of the queue
    released: VecDeque<Admission>,
    // the place at which the next term must start
    expected: u64,
    // the bytes of the written terms
    delivered: u64,
    kept: Option<FileReconstructionError>,
    finished: bool,
}

impl<S> Model for TermQueue<S> {
    ghost use Rattle.std.specs.Prelude.{◌≡◌, ◌+◌, ◌^◌, ◌<◌, ◌≤◌, Some};
    ghost use Rattle.std.specs.VecDeque.{deque_len, deque_capacity};
    ghost use Rattle.xet_queue.specs.Queues.{chain_end};
    ghost use Rattle.xet_queue.specs.Sequential.{Sequential};
    ghost use Rattle.xet_queue.specs.steps.WantedPlaces.{places_of};

    ghost Value = { Sequential S };

    ghost view = { λ w. record {
      sink = w.sink;
      vectored = w.use_vectorized;
      queue = w.queue.items;
      released = w.released.items;
      expected = w.expected;
      delivered = w.delivered;
      kept = w.kept;
      finished = w.finished;
    } };

    ghost invariant = { λ w. (chain_end w.delivered w.queue.items ≡ Some w.expected)
        × (deque_len w.released + deque_len w.queue ≤ deque_capacity w.released)
        × (w.waiting ≡ places_of w.passed w.queue.items)
        × (w.passed + deque_len w.queue < 2 ^ 64) };
}

/// Notes a term that waits for its bytes, by its number.
fn note_wanted(
    waiting: &mut Waiting<WantedPlace>,
    term: &QueuedTerm,
    number: u64,
) -> std::result::Result<(), OutOfMemory>
    ensures ok { OnOk result (waiting.new ≡ waiting.old ++ places_of number (term.now ∷ [])) }
    ensures err { OnErr result (waiting.new ≡ waiting.old) }
{
    if term.bytes.is_some() {
        return Ok(());
    }
    let start = term.byte_range.start;
    waiting.add(WantedPlace { start, number })
}

/// What a write of the bytes of some terms came to.
#[derive(Drop)]
struct Batch {
    /// How many terms these were, the first of the queue.
    terms: usize,
    /// How much was written for sure.
    sent: Sent,
}

impl<S> TermQueue<S> {
    /// No terms before this sink. It takes no memory yet. `use_vectorized` chooses the loop that hands many pieces to
    /// one write.
    pub fn new(alloc: Global, sink: S, use_vectorized: bool) -> TermQueue<S>
        ensures { result ≡ record {
          sink = sink;
          vectored = use_vectorized;
          queue = [];
          released = [];
          expected = 0;
          delivered = 0;
          kept = None;
          finished = false;
        } }
    {
        TermQueue {
            sink,
            use_vectorized,
            queue: VecDeque::new(alloc),
            passed: 0,
            waiting: Waiting::new(alloc),
            released: VecDeque::new(alloc),
            expected: 0,
            delivered: 0,
            kept: None,
            finished: false,
        }
    }

    /// The sink.
    pub fn into_inner(self) -> S
        ensures { result ≡ self.sink }
    {
        self.sink
    }

    /// The oldest admission of a wholly written term that was not given back yet; none exactly where there is none. An
    /// empty term counts as written when its place in the order is reached.
    pub fn take_released(&mut self) -> Option<Admission>
        ensures { TookReleased self.old self.new result }
    {
        self.released.pop_front()
    }

    /// The place at which the next term must start, which is the bytes of all terms that were taken.
    pub fn next_start(&self) -> u64
        ensures { result ≡ self.now.expected }
    {
        self.expected
    }

    /// The places of the queue: the terms follow one another from the written bytes to the next term's start.
    pub fn recall_places(&self)
        ensures { wanted self.now.queue ≡ []
            → self.now.delivered + length (ready_bytes self.now.queue) ≡ self.now.expected }
    {
        let _place = self.delivered;
    }

    /// The error of every call, if there is one.
    pub fn closed(&self) -> Option<FileReconstructionError>
        ensures { result ≡ closed_by (told_of self.now) }
    {
        if self.kept.is_some() {
            return self.kept;
        }
        if self.finished {
            return Some(FileReconstructionError::InternalWriterError(WriterFault::Finished));
        }
        None
    }

    /// Refuses a call for a fault.
    pub fn refuse(&mut self, fault: WriterFault) -> FileReconstructionError
        ensures error { result ≡ error.InternalWriterError fault }
        ensures kept { self.new ≡ record self.old { kept = kept_fault fault } }
    {
        self.kept = error_to_keep(fault);
        FileReconstructionError::InternalWriterError(fault)
    }

    /// Keeps an error of the sink.
    pub fn keep(&mut self, error: SinkError) -> FileReconstructionError
        ensures error { result ≡ of_sink_error error }
        ensures kept { self.new ≡ record self.old { kept = Some (of_sink_error error) } }
    {
        let error = FileReconstructionError::from(error);
        self.kept = Some(error);
        error
    }

    /// Takes no more terms, and answers the bytes delivered.
    pub fn end(&mut self) -> u64
        ensures count { result ≡ self.old.delivered }
        ensures ended { self.new ≡ record self.old { finished = true } }
    {
        self.finished = true;
        self.delivered
    }

    /// Takes a term into the queue, with room for its admission.
    pub fn queue_term(&mut self, term: QueuedTerm) -> Result<()>
        requires start { term.byte_range.start ≡ self.old.expected }
        requires fits { fits term.bytes term.byte_range ≡ true }
        ensures done { OnOk result (self.new ≡ record self.old {
          queue = self.old.queue ++ term ∷ [];
          expected = term.byte_range.end;
        }) }
        ensures memory { IfErr result (λ e. (e ≡ error.OutOfMemory) × (self.new ≡ self.old)) }
    {
        let end = term.byte_range.end;
        let number = self.passed + self.queue.len() as u64;
        let full = number == u64::MAX;
        if full
            || self.released.reserve(self.queue.len() + 1).is_err()
            || self.queue.reserve(1).is_err()
        {
            return Err(FileReconstructionError::OutOfMemory);
        }
        note_wanted(&mut self.waiting, &term, number)?;
        self.queue.push_back_reserved(term);
        self.expected = end;
        Ok(())
    }

    /// The place in the queue of the first wanted term with this start.
    fn find_wanted(&self, start: u64) -> Option<usize>
        ensures { result ≡ position_from (is_wanted_at start) 0 self.now.queue }
    {
        match self.waiting.find(start) {
            Some(place) => Some((place.number - self.passed) as usize),
            None => None,
        }
    }

    /// The fault of an end while a term waits for its bytes.
    pub fn test_end(&self) -> Option<WriterFault>
        ensures { result ≡ finish_fault (wanted self.now.queue) }
    {
        match self.waiting.first() {
            Some(place) => Some(WriterFault::StillWanted { start: place.start }),
            None => None,
        }
    }

    /// Gives the first wanted term with this start its bytes, which are as many as its range has, or tells the fault.
    pub fn give(&mut self, start: u64, bytes: Bytes) -> Option<WriterFault>
        ensures { GiveCall self.old self.new start bytes result }
    {
        let Some(place) = self.find_wanted(start) else {
            return Some(WriterFault::NotWanted { start });
        };
        if let Some(fault) = test_length(self.queue[place].byte_range, &bytes) {
            return Some(fault);
        }
        put_bytes(&mut self.queue, place, bytes);
        let _ = self.waiting.take(start);
        None
    }

    /// Passes over the first term, where it has at most so many bytes. Answers how many bytes are left.
    fn pass_front(&mut self, left: u64) -> Option<u64>
        ensures { PassedFront self.old self.new left result }
    {
        let length = match self.queue.front() {
            Some(
                QueuedTerm {
                    bytes: Some(bytes),
                    ..
                },
            ) => bytes.len() as u64,
            _ => return None,
        };
        if left < length {
            return None;
        }
        let Some(QueuedTerm { admission, .. }) = self.queue.pop_front() else {
            return None;
        };
        self.delivered += length;
        self.passed += 1;
        give_back(&mut self.released, admission);
        Some(left - length)
    }

    /// Passes over the terms that these first bytes fill.
    fn pass(&mut self, count: u64)
        ensures { PassedAll self.old self.new count }
    {
        let mut left = count;
        while let Some(rest) = self.pass_front(left) {
            left = rest;
        }
    }
}

impl<S: Sink> TermQueue<S> {
    /// Writes the bytes of the first terms, up to the first wanted one, at most 24 that have any. They are lent to the
    /// list for the write. After it the terms are gone; after an error those that were written wholly, and the others
    /// have their bytes again.
    fn write_batch(&mut self, pieces: &mut Vec<Bytes>) -> Batch
        requires empty { pieces.old.items ≡ [] }
        requires room { 24 ≤ vec_capacity pieces.old }
        requires short { length (ready_bytes self.old.queue) < 2 ^ 64 }
        ensures call { BatchCall S.told self.old self.new result.terms result.sent.count result.sent.end }
        ensures pieces { pieces.new.items ≡ [] }
        ensures capacity { vec_capacity pieces.new ≡ vec_capacity pieces.old }
    {
        let terms = lend(&mut self.queue, pieces);
        let sent = write_list(&mut self.sink, pieces);
        if sent.end.is_err() {
            put_back(&mut self.queue, terms, pieces);
            self.pass(sent.count);
            return Batch { terms, sent };
        }
        pieces.clear();
        let_go(&mut self.queue, &mut self.released, terms);
        self.delivered += sent.count;
        self.passed += terms as u64;
        Batch { terms, sent }
    }

    /// Writes the terms before the first wanted one, those of at most 24 terms by one write, and passes over those that
    /// were written wholly.
    fn send_batches(&mut self, pieces: &mut Vec<Bytes>) -> Sent
        requires empty { pieces.old.items ≡ [] }
        requires room { 24 ≤ vec_capacity pieces.old }
        requires short { length (ready_bytes self.old.queue) < 2 ^ 64 }
        ensures { SentReady S.told 24 self.old self.new result.count result.end }
    {
        let mut count = 0u64;
        while !self.queue.is_empty() {
            let Batch { terms, sent } = self.write_batch(pieces);
            count += sent.count;
            if let Err(error) = sent.end {
                return Sent {
                    count,
                    end: Err(error),
                };
            }
            if terms == 0 {
                return Sent { count, end: Ok(()) };
            }
        }
        Sent { count, end: Ok(()) }
    }

    /// The same by the loop that hands many pieces to one write.
    fn send_together(&mut self, alloc: Global) -> std::result::Result<Sent, OutOfMemory>
        requires { length (ready_bytes self.old.queue) < 2 ^ 64 }
        ensures sent { IfOk result (λ sent. SentReady S.told 24 self.old self.new sent.count sent.end) }
        ensures memory { OnErr result (self.new ≡ self.old) }
    {
        let Ok(mut pieces) = Vec::with_capacity(alloc, PIECES) else {
            return Err(OutOfMemory);
        };
        Ok(self.send_batches(&mut pieces))
    }

    /// The same by the loop that hands one piece to a write.
    fn send_each(&mut self) -> Sent
        requires { length (ready_bytes self.old.queue) < 2 ^ 64 }
        ensures { SentReady S.told 1 self.old self.new result.count result.end }
    {
        let sent = write_each(&mut self.sink, &self.queue);
        self.pass(sent.count);
        sent
    }

    /// Writes the terms before the first wanted one by one of the two loops, and passes over those that were written
    /// wholly.
    pub fn send(&mut self, alloc: Global) -> std::result::Result<Sent, OutOfMemory>
        ensures sent { IfOk result (λ sent. SentReady S.told (most_pieces self.old) self.old self.new sent.count
            sent.end) }
        ensures memory { OnErr result (self.new ≡ self.old) }
    {
        if self.use_vectorized {
            return self.send_together(alloc);
        }
        Ok(self.send_each())
    }

    /// Flushes what was written.
    pub fn flush(&mut self) -> std::result::Result<(), SinkError>
        ensures call { FlushCall (S.told self.old.sink) (S.told self.new.sink) result }
        ensures rest { self.new ≡ record self.old { sink = self.new.sink } }
    {
        self.sink.flush()
    }
}
