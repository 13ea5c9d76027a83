//! The writer that gives terms out in the order of completion.
ghost use Rattle.std.specs.Prelude.{◌≡◌, ◌^◌, ◌-◌, ◌++◌, [], ◌∷◌, IfErr, None, OnOk, false, length, map, min};
ghost use Rattle.xet_error.specs.declared.error.FileReconstructionError.TheVariants as error;
ghost use Rattle.xet_queue.specs.Calls.{FinishCall, SetCall, SetSums, SupplyCall, closed_by, finish_fault};
ghost use Rattle.xet_queue.specs.Calls.{kept_fault, supply_fault};
ghost use Rattle.xet_queue.specs.Unordered.{
  FinishUnordered,
  SetUnordered,
  SupplyUnordered,
  Taken,
  completed_with,
  range_of,
  sums_of,
  told_of,
  total_length,
};
ghost use Rattle.xet_queue.specs.steps.UnorderedSteps.{CompletedFirst};

use crate::completed_term::{CompletedTerm, WantedTerm};
use crate::data_writer::DataWriter;
use crate::faults::{error_to_keep, test_length, test_term};
use crate::waiting::Waiting;
use bytes::Bytes;
use std::alloc::Global;
use std::collections::VecDeque;
use std::marker::Model;
use xet_base::FileRange;
use xet_blocks::DataSource;
use xet_error::{FileReconstructionError, Result, WriterFault};
use xet_run::Admission;

/// Terms that wait for bytes, and their lengths summed, a sum that stops at `u64::MAX`.
///
/// In the Rust crate: `file_reconstruction::data_writer::unordered_writer::UnorderedWriterProgress`.
#[derive(Clone, Copy, PartialEq, Eq)]
pub struct UnorderedWriterProgress {
    /// How many terms wait.
    pub terms_in_progress: u64,
    /// Their bytes.
    pub bytes_in_progress: u64,
}

/// Takes terms in any order, and gives them out in the order in which they are completed: a term whose bytes are there
/// at once, a wanted one when its bytes are supplied.
///
/// A call takes constant time, and logarithmic time in the wanted terms where it speaks of one.
///
/// In the Rust crate: `file_reconstruction::data_writer::unordered_writer::UnorderedWriter`.
#[derive(Drop)]
pub struct UnorderedWriter {
    wanted: Waiting<WantedTerm>,
    // the lengths of the wanted terms, summed
    wanted_bytes: u128,
    completed: VecDeque<CompletedTerm>,
    // the bytes of all terms that were completed, a sum that stops at u64::MAX
    total: u64,
    kept: Option<FileReconstructionError>,
    finished: bool,
}

impl Model for UnorderedWriter {
    ghost use Rattle.std.specs.Prelude.{◌≡◌};
    ghost use Rattle.xet_queue.specs.Unordered.{Unordered, total_length};

    ghost Value = { Unordered };

    ghost view = { λ w. record {
      wanted = w.wanted;
      completed = w.completed.items;
      total = w.total;
      kept = w.kept;
      finished = w.finished;
    } };

    ghost invariant = { λ w. w.wanted_bytes ≡ total_length w.wanted };
}

impl UnorderedWriter {
    /// A writer without terms, which takes no memory yet.
    ///
    /// In the Rust crate: `file_reconstruction::data_writer::unordered_writer::UnorderedWriter::new`.
    pub fn new(alloc: Global) -> UnorderedWriter
        ensures { result ≡ record { wanted = []; completed = []; total = 0; kept = None; finished = false } }
    {
        UnorderedWriter {
            wanted: Waiting::new(alloc),
            wanted_bytes: 0,
            completed: VecDeque::new(alloc),
            total: 0,
            kept: None,
            finished: false,
        }
    }

    /// The oldest completed term that was not taken, before or after the end; none exactly where there is none.
    pub fn take(&mut self) -> Option<CompletedTerm>
        ensures { Taken self.old self.new result }
    {
        self.completed.pop_front()
    }

    /// How many terms wait for bytes.
    pub fn terms_in_progress(&self) -> u64
        ensures { result ≡ length self.now.wanted }
    {
        self.wanted.len() as u64
    }

    /// The lengths of the terms that wait for bytes, a sum that stops at `u64::MAX`.
    pub fn bytes_in_progress(&self) -> u64
        ensures { result ≡ min (total_length self.now.wanted) (2 ^ 64 - 1) }
    {
        self.wanted_bytes.min(u64::MAX as u128) as u64
    }

    /// Both numbers.
    pub fn progress(&self) -> UnorderedWriterProgress
        ensures { result ≡ record {
          terms_in_progress = length self.now.wanted;
          bytes_in_progress = min (total_length self.now.wanted) (2 ^ 64 - 1);
        } }
    {
        UnorderedWriterProgress {
            terms_in_progress: self.terms_in_progress(),
            bytes_in_progress: self.bytes_in_progress(),
        }
    }

    /// The error of every call, if there is one.
    fn closed(&self) -> Option<FileReconstructionError>
        ensures { result ≡ closed_by (told_of self.now) }
    {
        if self.kept.is_some() {
            return self.kept;
        }
        if self.finished {
            return Some(FileReconstructionError::InternalWriterError(WriterFault::Finished));
        }
        None
    }

    /// Refuses a call for a fault.
    fn refuse(&mut self, fault: WriterFault) -> FileReconstructionError
        ensures error { result ≡ error.InternalWriterError fault }
        ensures kept { self.new ≡ record self.old { kept = kept_fault fault } }
    {
        self.kept = error_to_keep(fault);
        FileReconstructionError::InternalWriterError(fault)
    }

    /// Adds a completed term.
    fn complete(
        &mut self,
        byte_range: FileRange,
        admission: Option<Admission>,
        bytes: Bytes,
    ) -> Result<()>
        ensures done { OnOk result (self.new ≡ completed_with self.old byte_range bytes admission) }
        ensures memory { IfErr result (λ e. (e ≡ error.OutOfMemory) × (self.new ≡ self.old)) }
    {
        let count = bytes.len() as u64;
        let term = CompletedTerm {
            byte_range,
            bytes,
            admission,
        };
        if self.completed.push_back(term).is_err() {
            return Err(FileReconstructionError::OutOfMemory);
        }
        self.total = self.total.saturating_add(count);
        Ok(())
    }

    /// Adds a term that waits for its bytes.
    fn wait(&mut self, byte_range: FileRange, admission: Option<Admission>) -> Result<()>
        ensures done { OnOk result (self.new ≡ record self.old {
          wanted = self.old.wanted ++ record { byte_range = byte_range; admission = admission } ∷ [];
        }) }
        ensures memory { IfErr result (λ e. (e ≡ error.OutOfMemory) × (self.new ≡ self.old)) }
    {
        let length = byte_range.end.saturating_sub(byte_range.start);
        let Some(wanted_bytes) = self.wanted_bytes.checked_add(length as u128) else {
            return Err(FileReconstructionError::OutOfMemory);
        };
        self.wanted.add(WantedTerm {
            byte_range,
            admission,
        })?;
        self.wanted_bytes = wanted_bytes;
        Ok(())
    }

    /// The first test that bytes fail which are supplied for a start.
    fn test_supply(&self, start: u64, bytes: &Bytes) -> Option<WriterFault>
        ensures { result ≡ supply_fault (map range_of self.now.wanted) start bytes.now }
    {
        match self.wanted.find(start) {
            Some(term) => test_length(term.byte_range, bytes),
            None => Some(WriterFault::NotWanted { start }),
        }
    }

    /// The fault of an end while a term waits for its bytes.
    fn test_end(&self) -> Option<WriterFault>
        ensures { result ≡ finish_fault (map range_of self.now.wanted) }
    {
        match self.wanted.first() {
            Some(term) => Some(WriterFault::StillWanted {
                start: term.byte_range.start,
            }),
            None => None,
        }
    }

    /// Completes the first waiting term with this start, if there is one.
    fn complete_first(&mut self, start: u64, bytes: Bytes) -> Result<()>
        ensures { CompletedFirst self.old self.new start bytes result }
    {
        if self.completed.reserve(1).is_err() {
            return Err(FileReconstructionError::OutOfMemory);
        }
        let Some(
            WantedTerm {
                byte_range,
                admission,
            },
        ) = self.wanted.take(start)
        else {
            return Ok(());
        };
        self.wanted_bytes -= byte_range.end.saturating_sub(byte_range.start) as u128;
        self.total = self.total.saturating_add(bytes.len() as u64);
        self.completed.push_back_reserved(CompletedTerm {
            byte_range,
            bytes,
            admission,
        });
        Ok(())
    }
}

impl DataWriter for UnorderedWriter {
    ghost told = { λ w. told_of w };

    ghost sums = { λ w. sums_of w };

    fn set_next_term_data_source(
        &mut self,
        alloc: Global,
        byte_range: FileRange,
        admission: Option<Admission>,
        source: DataSource,
    ) -> Result<()>
        ensures told { SetCall (told_of self.old) (told_of self.new) byte_range source result }
        ensures sums { SetSums (sums_of self.old) (sums_of self.new) byte_range result }
        ensures call { SetUnordered self.old self.new byte_range admission source result }
    {
        let _ = alloc;
        if let Some(error) = self.closed() {
            return Err(error);
        }
        if let Some(fault) = test_term(None, byte_range, &source) {
            return Err(self.refuse(fault));
        }
        match source {
            DataSource::Ready(bytes) => self.complete(byte_range, admission, bytes),
            DataSource::Wanted(_) => self.wait(byte_range, admission),
        }
    }

    fn supply(&mut self, alloc: Global, start: u64, bytes: Bytes) -> Result<()>
        ensures told { SupplyCall (told_of self.old) (told_of self.new) start bytes result }
        ensures sums { sums_of self.new ≡ sums_of self.old }
        ensures call { SupplyUnordered self.old self.new start bytes result }
    {
        let _ = alloc;
        if let Some(error) = self.closed() {
            return Err(error);
        }
        if let Some(fault) = self.test_supply(start, &bytes) {
            return Err(self.refuse(fault));
        }
        self.complete_first(start, bytes)
    }

    fn finish(&mut self, alloc: Global) -> Result<u64>
        ensures told { FinishCall (told_of self.old) (told_of self.new) (sums_of self.old) (sums_of self.new) result }
        ensures call { FinishUnordered self.old self.new result }
    {
        let _ = alloc;
        if let Some(error) = self.closed() {
            return Err(error);
        }
        if let Some(fault) = self.test_end() {
            return Err(self.refuse(fault));
        }
        self.finished = true;
        Ok(self.total)
    }
}
