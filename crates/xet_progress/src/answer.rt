//! The answers that replies stand for.
ghost use Rattle.std.specs.Prelude.{◌≡◌, true, IfOk, Ok, Err};
ghost use Rattle.xet_progress_state.specs.declared.step.TrackerReply.TheVariants.{Done, FileId, Flag, Sums};
ghost use Rattle.xet_progress_state.specs.Replies.{gives_done, gives_flag, gives_id, gives_plain, gives_sums};
ghost use Rattle.xet_progress_state.specs.Replies.{gives_whole};
ghost use Rattle.xet_progress_state.specs.Replies.{said, said_complete};

use xet_base::OutOfMemory;
use xet_progress_state::{Incomplete, ProgressError, TrackerReply};

/// The answer of a call that gives an id.
pub(crate) fn id_answer(reply: Result<TrackerReply, OutOfMemory>) -> Result<u64, ProgressError>
    requires { IfOk reply (λ r. gives_id r ≡ true) }
    ensures { reply ≡ said FileId result }
{
    match reply {
        Ok(TrackerReply::FileId(id)) => Ok(id),
        Ok(TrackerReply::Refused(why)) => Err(ProgressError::InvalidOperation(why)),
        Ok(_) => unreachable!(),
        Err(OutOfMemory) => Err(ProgressError::OutOfMemory),
    }
}

/// The answer of a call that says whether something is new.
pub(crate) fn flag_answer(reply: Result<TrackerReply, OutOfMemory>) -> Result<bool, ProgressError>
    requires { IfOk reply (λ r. gives_flag r ≡ true) }
    ensures { reply ≡ said Flag result }
{
    match reply {
        Ok(TrackerReply::Flag(flag)) => Ok(flag),
        Ok(TrackerReply::Refused(why)) => Err(ProgressError::InvalidOperation(why)),
        Ok(_) => unreachable!(),
        Err(OutOfMemory) => Err(ProgressError::OutOfMemory),
    }
}

/// The answer of a call that gives nothing.
pub(crate) fn done_answer(reply: Result<TrackerReply, OutOfMemory>) -> Result<(), ProgressError>
    requires { IfOk reply (λ r. gives_done r ≡ true) }
    ensures { reply ≡ said (λ _. Done) result }
{
    match reply {
        Ok(TrackerReply::Done) => Ok(()),
        Ok(TrackerReply::Refused(why)) => Err(ProgressError::InvalidOperation(why)),
        Ok(_) => unreachable!(),
        Err(OutOfMemory) => Err(ProgressError::OutOfMemory),
    }
}

/// The answer of a call that gives the sums.
pub(crate) fn sums_answer(reply: TrackerReply) -> (u64, u64)
    requires { gives_sums reply ≡ true }
    ensures { reply ≡ Sums result.0 result.1 }
{
    match reply {
        TrackerReply::Sums { completed, total } => (completed, total),
        _ => unreachable!(),
    }
}

/// The answer of a call that asks what is missing.
pub(crate) fn whole_answer(reply: TrackerReply) -> Result<(), Incomplete>
    requires { gives_whole reply ≡ true }
    ensures { reply ≡ said_complete result }
{
    match reply {
        TrackerReply::Done => Ok(()),
        TrackerReply::Unfinished(what) => Err(what),
        _ => unreachable!(),
    }
}

/// The answer of a call that asks whether all is completed.
pub(crate) fn plain_answer(reply: TrackerReply) -> bool
    requires { gives_plain reply ≡ true }
    ensures { reply ≡ Flag result }
{
    match reply {
        TrackerReply::Flag(flag) => flag,
        _ => unreachable!(),
    }
}
