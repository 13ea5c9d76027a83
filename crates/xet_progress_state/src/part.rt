//! The parts of files that wait for a xorb.
ghost use Rattle.std.specs.Prelude.{◌≡◌, ◌+◌, ◌^◌, ◌<◌, [], map, length, position, nat_eq, slice_index_or, slice_set};
ghost use Rattle.std.specs.Prelude.{MatchOption, OnOk, IfErr};
ghost use Rattle.xet_progress_state.specs.steps.Credits.{CanCredit, Credited, completed_in, with_share};
ghost use Rattle.xet_progress_state.specs.steps.Depends.{PartFits, PartsAlike, WithPart, with_waiting};

use crate::credit::credit;
use crate::error::ProgressError;
use crate::file::TrackedFile;
use crate::recent::Recent;
use std::alloc::Global;
use std::marker::Model;

/// The bytes of a file that wait for a xorb, and those of them that count as completed.
#[derive(Clone, Copy, Drop)]
pub(crate) struct Part {
    pub(crate) file: u64,
    pub(crate) waiting: u64,
    pub(crate) credited: u64,
}

/// Parts of different files in the order in which they came, each found by its file's id.
#[derive(Drop)]
pub(crate) struct Parts {
    list: Vec<Part>,
    places: Recent<u64>,
}

impl Model for Parts {
    ghost use Rattle.std.specs.Prelude.{List, map};
    ghost use Rattle.std.specs.Ordering.{nat_cmp};
    ghost use Rattle.xet_progress_state.specs.steps.Indexes.{Indexes};
    ghost use Rattle.xet_progress_state.specs.declared.part.Part.{Part};

    ghost Value = { List Part };

    ghost view = { λ s. s.list.items };

    ghost invariant = { λ s. Indexes nat_cmp (map (λ p. p.file) s.list.items) s.places };
}

impl Parts {
    /// No parts. It takes no memory.
    pub(crate) fn new(alloc: Global) -> Parts
        ensures { result ≡ [] }
    {
        Parts {
            list: Vec::new(alloc),
            places: Recent::new(alloc),
        }
    }

    /// How many there are.
    pub(crate) fn len(&self) -> usize
        ensures { result ≡ length self.now }
    {
        self.list.len()
    }

    /// The file of the part at a place.
    pub(crate) fn file_at(&self, place: usize) -> Option<u64> {
        Some(self.list.get(place)?.file)
    }

    /// The place of a file's part.
    fn number_of(&self, file: u64) -> Option<usize>
        ensures { result ≡ position (λ p. nat_eq p.file file) self.now }
    {
        self.places.number_of(&file)
    }

    /// Adds an empty part of a file, where it has none.
    pub(crate) fn add_empty(&mut self, file: u64) -> Result<(), ProgressError>
        ensures ok { OnOk result (WithPart file self.old self.new) }
        ensures alike { PartsAlike file self.old self.new }
        ensures memory { IfErr result (λ e. e ≡ ProgressError.OutOfMemory) }
    {
        self.places.remember(&file);
        if self.places.number_of(&file).is_some() {
            return Ok(());
        }
        let number = self.list.len();
        if self.list.reserve(1).is_err() || self.places.push(file, number).is_err() {
            return Err(ProgressError::OutOfMemory);
        }
        let part = Part {
            file,
            waiting: 0,
            credited: 0,
        };
        if self.list.push(part).is_err() {
            unreachable!()
        }
        Ok(())
    }

    /// Adds bytes to the part of a file, and counts them where its xorb is done.
    pub(crate) fn wait(&mut self, file: u64, bytes: u64, done: bool)
        requires { PartFits file bytes self.old }
        ensures { MatchOption (position (λ p. nat_eq p.file file) self.old) (self.new ≡ self.old)
            (λ k. self.new ≡ slice_set self.old k
            (with_waiting done bytes (slice_index_or self.old k
            (record { file = 0; waiting = 0; credited = 0 })))) }
    {
        if let Some(number) = self.number_of(file) {
            add_bytes(&mut self.list[number], bytes, done);
        }
    }

    /// Credits each part with its share of the bytes sent.
    pub(crate) fn credit(
        &mut self,
        files: &mut Vec<TrackedFile>,
        completed: &mut u64,
        sent: u64,
        size: u64,
    )
        requires can { CanCredit files.old.items self.old sent size }
        requires sum { completed.old ≡ completed_in files.old.items }
        ensures parts { self.new ≡ map (with_share sent size) self.old }
        ensures files { Credited files.old.items files.new.items self.old sent size }
        ensures count { length files.new.items ≡ length files.old.items }
        ensures sum { completed.new ≡ completed_in files.new.items }
    {
        credit(files, self.list.as_mut_slice(), completed, sent, size);
    }
}

/// Adds bytes to a part, and counts them or not.
fn add_bytes(part: &mut Part, bytes: u64, done: bool)
    requires waiting { part.old.waiting + bytes < 2 ^ 64 }
    requires credited { part.old.credited + bytes < 2 ^ 64 }
    ensures { part.new ≡ with_waiting done bytes part.old }
{
    part.waiting += bytes;
    if done {
        part.credited += bytes;
    }
}
