//! Any call of the tracker as a value, and its reply.
ghost use Rattle.std.specs.Prelude.{◌≡◌};
ghost use Rattle.xet_progress_state.specs.declared.step.TrackerReply.TheVariants.{Done, FileId, Flag};
ghost use Rattle.xet_progress_state.specs.declared.step.TrackerStep.TheVariants.{RegisterDependencies};
ghost use Rattle.xet_progress_state.specs.Replies.{StepOf, said, said_complete};

use crate::error::{Incomplete, ProgressError};
use crate::state::TrackerState;
use crate::step::{FileXorbDependency, TrackerReply, TrackerStep};
use std::alloc::Global;
use xet_base::OutOfMemory;

/// The reply of a call that gives an id.
fn id_reply(answer: Result<u64, ProgressError>) -> Result<TrackerReply, OutOfMemory>
    ensures { result ≡ said FileId answer }
{
    match answer {
        Ok(id) => Ok(TrackerReply::FileId(id)),
        Err(ProgressError::InvalidOperation(why)) => Ok(TrackerReply::Refused(why)),
        Err(ProgressError::OutOfMemory) => Err(OutOfMemory),
    }
}

/// The reply of a call that says whether something is new.
fn flag_reply(answer: Result<bool, ProgressError>) -> Result<TrackerReply, OutOfMemory>
    ensures { result ≡ said Flag answer }
{
    match answer {
        Ok(flag) => Ok(TrackerReply::Flag(flag)),
        Err(ProgressError::InvalidOperation(why)) => Ok(TrackerReply::Refused(why)),
        Err(ProgressError::OutOfMemory) => Err(OutOfMemory),
    }
}

/// The reply of a call that gives nothing.
fn done_reply(answer: Result<(), ProgressError>) -> Result<TrackerReply, OutOfMemory>
    ensures { result ≡ said (λ _. Done) answer }
{
    match answer {
        Ok(()) => Ok(TrackerReply::Done),
        Err(ProgressError::InvalidOperation(why)) => Ok(TrackerReply::Refused(why)),
        Err(ProgressError::OutOfMemory) => Err(OutOfMemory),
    }
}

/// The reply of a call that asks what is missing.
fn complete_reply(answer: Result<(), Incomplete>) -> TrackerReply
    ensures { result ≡ said_complete answer }
{
    match answer {
        Ok(()) => TrackerReply::Done,
        Err(what) => TrackerReply::Unfinished(what),
    }
}

impl TrackerState {
    /// Registers dependencies, which are lent, and gives the reply, as `step` does.
    ///
    /// `OutOfMemory` where an allocation was refused, and then no call was made.
    ///
    /// The Rust crate has no such call.
    pub fn step_dependencies(
        &mut self,
        alloc: Global,
        dependencies: &[FileXorbDependency],
    ) -> Result<TrackerReply, OutOfMemory>
        ensures { StepOf self.old self.new (RegisterDependencies dependencies.now) result }
    {
        done_reply(self.register_dependencies(alloc, dependencies))
    }

    /// Makes any call, and gives its reply. A refusal is a reply too.
    ///
    /// `OutOfMemory` where an allocation was refused, and then no call was made.
    ///
    /// The Rust crate has no such call.
    pub fn step(&mut self, alloc: Global, step: &TrackerStep) -> Result<TrackerReply, OutOfMemory>
        ensures { StepOf self.old self.new step.now result }
    {
        match step {
            TrackerStep::RegisterNewFile { n_bytes } => {
                id_reply(self.register_new_file(*n_bytes))
            }
            TrackerStep::IncrementFileSize {
                file_id,
                size_increment,
            } => { done_reply(self.increment_file_size(*file_id, *size_increment)) }
            TrackerStep::RegisterNewXorb {
                xorb_hash,
                xorb_size,
            } => { flag_reply(self.register_new_xorb(alloc, *xorb_hash, *xorb_size)) }
            TrackerStep::RegisterDependencies { dependencies } => {
                self.step_dependencies(alloc, dependencies.as_slice())
            }
            TrackerStep::RegisterXorbUploadCompletion { xorb_hash } => {
                done_reply(self.register_xorb_upload_completion(*xorb_hash))
            }
            TrackerStep::RegisterXorbUploadProgress {
                xorb_hash,
                new_byte_progress,
            } => { done_reply(self.register_xorb_upload_progress(*xorb_hash, *new_byte_progress)) }
            TrackerStep::RegisterXorbUploadProgressBackground {
                xorb_hash,
                new_byte_progress,
            } => {
                done_reply(self.register_xorb_upload_progress_background(
                    *xorb_hash,
                    *new_byte_progress,
                ))
            }
            TrackerStep::Status => {
                let (completed, total) = self.status();
                Ok(TrackerReply::Sums { completed, total })
            }
            TrackerStep::IsComplete => Ok(TrackerReply::Flag(self.is_complete())),
            TrackerStep::AssertComplete => { Ok(complete_reply(self.assert_complete())) }
        }
    }
}
