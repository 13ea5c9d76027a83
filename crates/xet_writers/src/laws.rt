//! Laws of the writers, as functions that do what the law speaks of.
ghost use Rattle.std.specs.Prelude.{◌≡◌, ◌++◌, [], ◌∷◌, List, OnOk, Some, length, ℕ};
ghost use Rattle.xet_queue.specs.declared.queued_term.QueuedTerm.{QueuedTerm};
ghost use Rattle.xet_queue.specs.Queues.{ready};

use crate::data_writer::sequential_writer::SequentialWriter;
use std::alloc::Global;
use xet_error::Result;
use xet_outside::Sink;

/// Both loops append the same bytes, however the sinks part their writes: of two writers that hold the same terms, each
/// with either loop, the sinks took the same where both answer Ok and they had taken the same before.
pub fn loops_append_the_same<P: Sink, Q: Sink>(
    alloc: Global,
    one: &mut SequentialWriter<P>,
    other: &mut SequentialWriter<Q>,
) -> (Result<u64>, Result<u64>)
    requires queue { one.old.queue ≡ other.old.queue }
    requires took { (P.told one.old.sink).took ≡ (Q.told other.old.sink).took }
    ensures took { OnOk result.0 (OnOk result.1 ((P.told one.new.sink).took ≡ (Q.told other.new.sink).took)) }
    ensures count { OnOk result.0 (OnOk result.1 (result.0 ≡ result.1)) }
{
    let first = one.write_ready(alloc);
    let second = other.write_ready(alloc);
    (first, second)
}

/// Where all terms of a queue are ready, they are so with one more that has its bytes.
pub fn ready_with_one_more()
    ensures { (ts : List QueuedTerm) (t : QueuedTerm) (bytes : List ℕ)
        → length (ready ts) ≡ length ts → t.bytes ≡ Some bytes
        → (ready (ts ++ t ∷ []) ≡ ready ts ++ bytes ∷ []) × (length (ready (ts ++ t ∷ [])) ≡ length (ts ++ t ∷ [])) }
{}

fn sent<T: Send>(value: T) -> T
    ensures { result ≡ value }
{
    value
}

/// A writer over a sink that may be handed to another thread may be, too.
pub fn writer_is_sent<S: Send>(writer: SequentialWriter<S>) -> SequentialWriter<S>
    ensures { result ≡ writer }
{
    sent(writer)
}
