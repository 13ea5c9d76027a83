//! The bytes of the first terms of a queue, lent for a write.
ghost use Rattle.std.specs.List.{concat};
ghost use Rattle.std.specs.Prelude.{◌≡◌, ◌+◌, ◌^◌, ◌<◌, ◌≤◌, ◌++◌, [], ◌∷◌, List, Some, get_or, is_some, length, ℕ};
ghost use Rattle.std.specs.Vec.{vec_capacity, vec_len};
ghost use Rattle.std.specs.VecDeque.{deque_len};
ghost use Rattle.xet_queue.specs.declared.queued_term.QueuedTerm.{QueuedTerm as Term};
ghost use Rattle.xet_queue.specs.Pieces.{WrotePieces, nonempty};
ghost use Rattle.xet_queue.specs.Queues.{bytes_then, ready, ready_bytes};
ghost use Rattle.xet_queue.specs.steps.Lending.{Lends, lent_at};
ghost use Rattle.xet_queue.specs.steps.QueueSteps.{with_bytes};

use crate::pieces::{PIECES, Sent, write_together};
use crate::queued_term::QueuedTerm;
use bytes::Bytes;
use std::collections::VecDeque;
use xet_outside::Sink;

/// Gives a term of the queue its bytes.
pub(crate) fn put_bytes(queue: &mut VecDeque<QueuedTerm>, place: usize, bytes: Bytes)
    requires { place < length queue.old.items }
    ensures items { queue.new.items ≡ with_bytes queue.old.items place bytes }
    ensures len { deque_len queue.new ≡ deque_len queue.old }
{
    queue[place].bytes = Some(bytes);
}

/// Takes the bytes of a term out of the queue.
fn take_bytes(queue: &mut VecDeque<QueuedTerm>, place: usize) -> Option<Bytes>
    requires { place < length queue.old.items }
    ensures bytes { (d : Term) → result ≡ (get_or queue.old.items place d).bytes }
    ensures items { (p : List ℕ) → result ≡ Some p → 0 < length p → queue.new.items ≡ lent_at queue.old.items place }
    ensures len { deque_len queue.new ≡ deque_len queue.old }
{
    queue[place].bytes.take()
}

/// Lends the bytes of a term, if it has any. Whether the term is ready.
fn lend_one(queue: &mut VecDeque<QueuedTerm>, place: usize, pieces: &mut Vec<Bytes>) -> bool
    requires place { place < length queue.old.items }
    requires room { vec_len pieces.old < vec_capacity pieces.old }
    ensures ready { (d : Term) → result ≡ is_some (get_or queue.old.items place d).bytes }
    ensures queue { queue.new.items ≡ lent_at queue.old.items place }
    ensures pieces { (d : Term)
        → pieces.new.items ≡ pieces.old.items ++ nonempty (bytes_then (get_or queue.old.items place d).bytes []) }
    ensures len { deque_len queue.new ≡ deque_len queue.old }
    ensures count { vec_len pieces.new ≤ vec_len pieces.old + 1 }
    ensures capacity { vec_capacity pieces.new ≡ vec_capacity pieces.old }
{
    match &queue[place].bytes {
        None => return false,
        Some(bytes) => {
            if bytes.is_empty() {
                return true;
            }
        }
    }
    if let Some(bytes) = take_bytes(queue, place) {
        pieces.push_reserved(bytes);
    }
    true
}

/// Lends the bytes of the first terms, up to the first wanted one, at most 24 that have any. Answers how many terms
/// these are.
pub(crate) fn lend(queue: &mut VecDeque<QueuedTerm>, pieces: &mut Vec<Bytes>) -> usize
    requires empty { pieces.old.items ≡ [] }
    requires room { 24 ≤ vec_capacity pieces.old }
    ensures lent { Lends 0 result queue.old.items queue.new.items pieces.new.items }
    ensures some { 0 < length (ready queue.old.items) → 0 < result }
    ensures len { deque_len queue.new ≡ deque_len queue.old }
    ensures capacity { vec_capacity pieces.new ≡ vec_capacity pieces.old }
{
    let mut end = 0usize;
    while end < queue.len() {
        if pieces.len() >= PIECES {
            return end;
        }
        if !lend_one(queue, end, pieces) {
            return end;
        }
        end += 1;
    }
    end
}

/// Puts back what this term lent, if it lent anything: the last piece.
fn put_one(queue: &mut VecDeque<QueuedTerm>, place: usize, pieces: &mut Vec<Bytes>)
    requires { place < length queue.old.items }
    ensures back { (ts : List Term) (ps : List (List ℕ)) (p : List ℕ) (d : Term) → queue.old.items ≡ lent_at ts place
        → (get_or ts place d).bytes ≡ Some p → pieces.old.items ≡ ps ++ nonempty (p ∷ [])
        → (queue.new.items ≡ ts) × (pieces.new.items ≡ ps) }
    ensures len { deque_len queue.new ≡ deque_len queue.old }
    ensures capacity { vec_capacity pieces.new ≡ vec_capacity pieces.old }
{
    if queue[place].bytes.is_some() {
        return;
    }
    if let Some(bytes) = pieces.pop() {
        put_bytes(queue, place, bytes);
    }
}

/// Puts back what the first terms lent, so many of them.
pub(crate) fn put_back(queue: &mut VecDeque<QueuedTerm>, end: usize, pieces: &mut Vec<Bytes>)
    requires { end ≤ length queue.old.items }
    ensures back { (ts : List Term) → Lends 0 end ts queue.old.items pieces.old.items
        → (queue.new.items ≡ ts) × (pieces.new.items ≡ []) }
    ensures len { deque_len queue.new ≡ deque_len queue.old }
    ensures capacity { vec_capacity pieces.new ≡ vec_capacity pieces.old }
{
    let mut i = end;
    while 0 < i {
        i -= 1;
        put_one(queue, i, pieces);
    }
}

/// Writes the list of pieces, which stays as it is.
pub(crate) fn write_list<S: Sink>(sink: &mut S, pieces: &mut Vec<Bytes>) -> Sent
    requires { length (concat pieces.old.items) < 2 ^ 64 }
    ensures sent { WrotePieces 24 (S.told sink.old) (S.told sink.new) pieces.old.items result.count result.end }
    ensures pieces { pieces.new.items ≡ pieces.old.items }
    ensures capacity { vec_capacity pieces.new ≡ vec_capacity pieces.old }
{
    write_together(sink, pieces.as_mut_slice())
}
