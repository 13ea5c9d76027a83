//! Terms that leave the front of a queue, with their admissions.
ghost use Rattle.std.specs.Prelude.{◌≡◌, ◌+◌, ◌<◌, ◌≤◌, ◌++◌, drop, length, option_to_list, take};
ghost use Rattle.std.specs.VecDeque.{deque_capacity, deque_len};
ghost use Rattle.xet_queue.specs.Queues.{admissions};

use crate::queued_term::QueuedTerm;
use std::collections::VecDeque;
use xet_run::Admission;

/// Adds the admission of a written term, for which there is room.
pub(crate) fn give_back(released: &mut VecDeque<Admission>, admission: Option<Admission>)
    requires { deque_len released.old < deque_capacity released.old }
    ensures items { released.new.items ≡ released.old.items ++ option_to_list admission }
    ensures room { deque_len released.new ≤ deque_len released.old + 1 }
    ensures capacity { deque_capacity released.new ≡ deque_capacity released.old }
{
    if let Some(admission) = admission {
        released.push_back_reserved(admission);
    }
}

/// Lets the first term go, if there is one, with its admission.
fn let_one_go(queue: &mut VecDeque<QueuedTerm>, released: &mut VecDeque<Admission>)
    requires { deque_len released.old + deque_len queue.old ≤ deque_capacity released.old }
    ensures queue { queue.new.items ≡ drop 1 queue.old.items }
    ensures released { released.new.items ≡ released.old.items ++ admissions (take 1 queue.old.items) }
    ensures room { deque_len released.new + deque_len queue.new ≤ deque_capacity released.new }
{
    let Some(QueuedTerm { admission, .. }) = queue.pop_front() else {
        return;
    };
    give_back(released, admission);
}

/// Lets the first terms go, so many, with their admissions.
pub(crate) fn let_go(
    queue: &mut VecDeque<QueuedTerm>,
    released: &mut VecDeque<Admission>,
    count: usize,
)
    requires { deque_len released.old + deque_len queue.old ≤ deque_capacity released.old }
    ensures queue { queue.new.items ≡ drop count queue.old.items }
    ensures released { released.new.items ≡ released.old.items ++ admissions (take count queue.old.items) }
    ensures room { deque_len released.new + deque_len queue.new ≤ deque_capacity released.new }
{
    let mut gone = 0usize;
    while gone < count {
        let_one_go(queue, released);
        gone += 1;
    }
}
