//! The plain state of the completion tracker.
ghost use Rattle.std.specs.Prelude.{◌≡◌, ℕ, List, [], ◌∷◌, length, unwrap_or, is_some, Some, None, nat_eq, not};
ghost use Rattle.xet_progress_state.specs.declared.step.TrackerStep.TheVariants.{RegisterNewFile, IncrementFileSize};
ghost use Rattle.xet_progress_state.specs.declared.step.TrackerStep.TheVariants.{RegisterNewXorb, RegisterDependencies};
ghost use Rattle.xet_progress_state.specs.declared.step.TrackerStep.TheVariants.{RegisterXorbUploadCompletion};
ghost use Rattle.xet_progress_state.specs.declared.step.TrackerStep.TheVariants.{RegisterXorbUploadProgress};
ghost use Rattle.xet_progress_state.specs.declared.step.TrackerStep.TheVariants.{RegisterXorbUploadProgressBackground};
ghost use Rattle.xet_progress_state.specs.Accepted.{CallOf};
ghost use Rattle.xet_progress_state.specs.Replies.{complete_or, incomplete_of};
ghost use Rattle.xet_progress_state.specs.Counts.{sizes, size_of, tracker_counts, all_completed, all_total};

use crate::calls::Calls;
use crate::depend::{depend, past_total, unknown_file};
use crate::error::{Incomplete, ProgressError};
use crate::file::{TrackedFile, file_of, grow};
use crate::marks::Marks;
use crate::name::Names;
use crate::step::{FileXorbDependency, Note};
use crate::xorb::{Found, Xorbs};
use std::alloc::Global;
use std::marker::Model;
use xet_base::{Invalid, MerkleHash};

/// Which bytes of which files stand in uploaded xorbs. Contracts see it as the list of its accepted calls, which
/// takes no memory; a refused call changes nothing.
///
/// In the Rust crate: the state under the lock of `progress_tracking::upload_tracking::CompletionTracker`.
#[derive(Drop)]
pub struct TrackerState {
    files: Vec<TrackedFile>,
    xorbs: Xorbs,
    names: Names,
    marks: Marks,
    total: u64,
    completed: u64,
    sizes: u64,
    calls: Calls,
}

impl Model for TrackerState {
    ghost use Rattle.std.specs.Prelude.{List};
    ghost use Rattle.xet_progress_state.specs.declared.step.TrackerStep.{TrackerStep};

    ghost Value = { List TrackerStep };

    ghost use Rattle.xet_progress_state.specs.steps.Kept.{IsState};

    ghost view = { λ s. s.calls.items };

    ghost invariant = { λ s. IsState s.calls.items s.files.items s.xorbs s.names s.marks s.total s.completed s.sizes };
}

impl TrackerState {
    /// No files and no xorbs. It takes no memory.
    pub fn new(alloc: Global) -> TrackerState
        ensures { result ≡ [] }
    {
        TrackerState {
            files: Vec::new(alloc),
            xorbs: Xorbs::new(alloc),
            names: Names::new(alloc),
            marks: Marks::new(alloc),
            total: 0,
            completed: 0,
            sizes: 0,
            calls: Calls::new(),
        }
    }

    /// What is counted of the file of an id, or none where no file has it.
    pub fn file(&self, id: u64) -> Option<TrackedFile> {
        file_of(self.files.as_slice(), id)
    }

    /// What the entry of a registered xorb says, or none where it isn't registered.
    pub fn xorb(&self, hash: &MerkleHash) -> Option<Found> {
        self.xorbs.find(hash)
    }

    /// How many files wait for the xorb of an entry.
    pub fn waiting_count(&self, place: usize) -> usize {
        self.xorbs.waiting_count(place)
    }

    /// One of the files that wait for the xorb of an entry.
    pub fn waiting_file(&self, place: usize, number: usize) -> Option<u64> {
        self.xorbs.waiting_file(place, number)
    }

    /// The sums of completed and total bytes over all files.
    ///
    /// In the Rust crate: `CompletionTracker::status`.
    pub fn status(&mut self) -> (u64, u64)
        ensures counts { result ≡ tracker_counts self.old }
        ensures same { self.new ≡ self.old }
    {
        (self.completed, self.total)
    }

    /// Whether all bytes of all files are completed.
    ///
    /// In the Rust crate: `CompletionTracker::is_complete`.
    pub fn is_complete(&mut self) -> bool
        ensures counts { result ≡ nat_eq (all_completed self.old) (all_total self.old) }
        ensures same { self.new ≡ self.old }
    {
        self.completed == self.total
    }

    /// What is missing: the first file that isn't complete, then the first xorb by its hash that isn't completed, of
    /// those that a registration or a dependency that isn't external named.
    ///
    /// Such calls together pass each file once, and once more each time that it grew, and each name of a xorb once.
    ///
    /// In the Rust crate: `CompletionTracker::assert_complete`.
    pub fn assert_complete(&mut self) -> Result<(), Incomplete>
        ensures answer { result ≡ complete_or (incomplete_of self.old) }
        ensures same { self.new ≡ self.old }
    {
        if let Some(open) = self.marks.first_open(self.files.as_slice()) {
            return Err(open);
        }
        if let Some(hash) = self.names.least_open(&self.xorbs) {
            return Err(Incomplete::Xorb { hash });
        }
        Ok(())
    }

    /// Registers a file: `n_bytes` fixes its size, and with none it starts at 0 and grows. Answers its id, counted
    /// from 0.
    ///
    /// `SumTooGreat` exactly where the sum of all files' totals would pass `u64::MAX`, but for `OutOfMemory`.
    ///
    /// In the Rust crate: `CompletionTracker::register_new_file`.
    pub fn register_new_file(&mut self, n_bytes: Option<u64>) -> Result<u64, ProgressError>
        ensures { CallOf self.old self.new (RegisterNewFile n_bytes) (length (sizes self.old)) result }
    {
        let size = n_bytes.unwrap_or(0);
        let Some(total) = self.total.checked_add(size) else {
            return Err(ProgressError::InvalidOperation(Invalid::SumTooGreat {
                have: self.total,
                add: size,
            }));
        };
        let id = self.files.len() as u64;
        let file = TrackedFile {
            fixed: n_bytes.is_some(),
            total: size,
            registered: 0,
            completed: 0,
        };
        if self.files.push(file).is_err() {
            return Err(ProgressError::OutOfMemory);
        }
        self.total = total;
        self.calls = self.calls.and(&Note::NewFile(n_bytes));
        Ok(id)
    }

    /// Adds to the size of a file that grows. A fixed size stays.
    ///
    /// `UnknownFile` exactly where no file has this id, then, for one that grows, `SumTooGreat` exactly where the sum
    /// of all files' totals would pass `u64::MAX`, but for `OutOfMemory`.
    ///
    /// In the Rust crate: `CompletionTracker::increment_file_size`.
    pub fn increment_file_size(
        &mut self,
        file_id: u64,
        size_increment: u64,
    ) -> Result<(), ProgressError>
        ensures { CallOf self.old self.new (IncrementFileSize file_id size_increment) tt result }
    {
        let Some(file) = file_of(self.files.as_slice(), file_id) else {
            return Err(ProgressError::InvalidOperation(Invalid::UnknownFile { id: file_id }));
        };
        if file.fixed {
            self.calls = self.calls.and(&Note::Growth(file_id, size_increment));
            return Ok(());
        }
        let Some(total) = self.total.checked_add(size_increment) else {
            return Err(ProgressError::InvalidOperation(Invalid::SumTooGreat {
                have: self.total,
                add: size_increment,
            }));
        };
        self.marks.reopen(file_id)?;
        grow(&mut self.files, file_id, size_increment);
        self.total = total;
        self.calls = self.calls.and(&Note::Growth(file_id, size_increment));
        Ok(())
    }

    /// Registers a xorb with its size: true at its first registration, also where a dependency named it before.
    ///
    /// `OtherSize` exactly where it was registered with another size, and where it is new `SumTooGreat` exactly where
    /// the sum of the sizes of all xorbs would pass `u64::MAX`, but for `OutOfMemory`.
    ///
    /// In the Rust crate: `CompletionTracker::register_new_xorb`.
    pub fn register_new_xorb(
        &mut self,
        alloc: Global,
        xorb_hash: MerkleHash,
        xorb_size: u64,
    ) -> Result<bool, ProgressError>
        ensures { CallOf self.old self.new (RegisterNewXorb xorb_hash xorb_size)
            (not (is_some (size_of self.old xorb_hash))) result }
    {
        self.xorbs.remember(&xorb_hash);
        if let Some(found) = self.xorbs.find(&xorb_hash) {
            if found.size != xorb_size {
                return Err(ProgressError::InvalidOperation(Invalid::OtherSize {
                    registered: found.size,
                    given: xorb_size,
                }));
            }
            self.calls = self.calls.and(&Note::NewXorb(xorb_hash, xorb_size));
            return Ok(false);
        }
        let Some(sizes) = self.sizes.checked_add(xorb_size) else {
            return Err(ProgressError::InvalidOperation(Invalid::SumTooGreat {
                have: self.sizes,
                add: xorb_size,
            }));
        };
        let place = self.xorbs.entry(alloc, xorb_hash)?;
        self.names.add(xorb_hash)?;
        self.xorbs.register(place, xorb_size);
        self.sizes = sizes;
        self.calls = self.calls.and(&Note::NewXorb(xorb_hash, xorb_size));
        Ok(true)
    }

    /// Registers dependencies of files on xorbs: all of them or none. External ones and those on a completed xorb
    /// count at once, the others wait.
    ///
    /// `UnknownFile` exactly where one names no file, else `PastTotal` exactly where a file's dependencies would pass
    /// its total, each with the first such place in the list, but for `OutOfMemory`.
    ///
    /// In the Rust crate: `CompletionTracker::register_dependencies`.
    pub fn register_dependencies(
        &mut self,
        alloc: Global,
        dependencies: &[FileXorbDependency],
    ) -> Result<(), ProgressError>
        ensures { CallOf self.old self.new (RegisterDependencies dependencies.now) tt result }
    {
        let count = self.files.len();
        if let Some(why) = unknown_file(count, dependencies) {
            return Err(ProgressError::InvalidOperation(why));
        }
        if let Some(why) = past_total(&mut self.files, dependencies) {
            return Err(ProgressError::InvalidOperation(why));
        }
        self.xorbs.make_rooms(alloc, count, dependencies)?;
        self.names.add_all(dependencies)?;
        for dependency in dependencies {
            depend(
                &mut self.files,
                &mut self.xorbs,
                &mut self.completed,
                dependency,
            );
        }
        self.calls = self.calls.and(&Note::Dependencies(dependencies));
        Ok(())
    }

    /// Looks for a xorb, so that the look after this one is short.
    fn look(&mut self, xorb_hash: &MerkleHash)
        ensures { self.new ≡ self.old }
    {
        self.xorbs.remember(xorb_hash);
    }

    /// Counts more bytes of a xorb as sent, and credits each part that waits for it with its share, rounded down.
    ///
    /// `UnknownXorb` exactly where it was never registered, `XorbCompleted` exactly where it is completed, else
    /// `PastTotal` exactly where the bytes sent would pass its size.
    ///
    /// In the Rust crate: `CompletionTracker::register_xorb_upload_progress`.
    pub fn register_xorb_upload_progress(
        &mut self,
        xorb_hash: MerkleHash,
        new_byte_progress: u64,
    ) -> Result<(), ProgressError>
        ensures { CallOf self.old self.new (RegisterXorbUploadProgress xorb_hash new_byte_progress) tt result }
    {
        self.look(&xorb_hash);
        self.send(xorb_hash, new_byte_progress)
    }

    /// `register_xorb_upload_progress`, after the look.
    fn send(&mut self, xorb_hash: MerkleHash, new_byte_progress: u64) -> Result<(), ProgressError>
        ensures { CallOf self.old self.new (RegisterXorbUploadProgress xorb_hash new_byte_progress) tt result }
    {
        let Some(found) = self.xorbs.find(&xorb_hash) else {
            return Err(ProgressError::InvalidOperation(Invalid::UnknownXorb { hash: xorb_hash }));
        };
        if found.completed {
            return Err(ProgressError::InvalidOperation(Invalid::XorbCompleted { hash: xorb_hash }));
        }
        if new_byte_progress > found.size - found.sent {
            return Err(ProgressError::InvalidOperation(Invalid::PastTotal {
                total: found.size,
                counted: found.sent,
                increment: new_byte_progress,
            }));
        }
        let sent = found.sent + new_byte_progress;
        self.xorbs.advance(
            found.place,
            &mut self.files,
            &mut self.completed,
            sent,
            found.size,
        );
        self.calls = self
            .calls
            .and(&Note::Progress(xorb_hash, new_byte_progress));
        Ok(())
    }

    /// Counts more bytes of a xorb as sent, as `register_xorb_upload_progress` does. It is ignored where the xorb is
    /// completed.
    ///
    /// `UnknownXorb` exactly where it was never registered, and where it isn't completed `PastTotal` exactly where
    /// the bytes sent would pass its size.
    ///
    /// In the Rust crate: `CompletionTracker::register_xorb_upload_progress_background`.
    pub fn register_xorb_upload_progress_background(
        &mut self,
        xorb_hash: MerkleHash,
        new_byte_progress: u64,
    ) -> Result<(), ProgressError>
        ensures { CallOf self.old self.new
            (RegisterXorbUploadProgressBackground xorb_hash new_byte_progress) tt result }
    {
        self.look(&xorb_hash);
        self.send_in_background(xorb_hash, new_byte_progress)
    }

    /// `register_xorb_upload_progress_background`, after the look.
    fn send_in_background(
        &mut self,
        xorb_hash: MerkleHash,
        new_byte_progress: u64,
    ) -> Result<(), ProgressError>
        ensures { CallOf self.old self.new
            (RegisterXorbUploadProgressBackground xorb_hash new_byte_progress) tt result }
    {
        let Some(found) = self.xorbs.find(&xorb_hash) else {
            return Err(ProgressError::InvalidOperation(Invalid::UnknownXorb { hash: xorb_hash }));
        };
        if found.completed {
            self.calls = self
                .calls
                .and(&Note::Background(xorb_hash, new_byte_progress));
            return Ok(());
        }
        if new_byte_progress > found.size - found.sent {
            return Err(ProgressError::InvalidOperation(Invalid::PastTotal {
                total: found.size,
                counted: found.sent,
                increment: new_byte_progress,
            }));
        }
        let sent = found.sent + new_byte_progress;
        self.xorbs.advance(
            found.place,
            &mut self.files,
            &mut self.completed,
            sent,
            found.size,
        );
        self.calls = self
            .calls
            .and(&Note::Background(xorb_hash, new_byte_progress));
        Ok(())
    }

    /// Counts a xorb as completed, and credits the rest of each part that waits for it. It is ignored where it is
    /// completed already.
    ///
    /// `UnknownXorb` exactly where it was never registered.
    ///
    /// In the Rust crate: `CompletionTracker::register_xorb_upload_completion`.
    pub fn register_xorb_upload_completion(
        &mut self,
        xorb_hash: MerkleHash,
    ) -> Result<(), ProgressError>
        ensures { CallOf self.old self.new (RegisterXorbUploadCompletion xorb_hash) tt result }
    {
        self.look(&xorb_hash);
        self.complete_xorb(xorb_hash)
    }

    /// `register_xorb_upload_completion`, after the look.
    fn complete_xorb(&mut self, xorb_hash: MerkleHash) -> Result<(), ProgressError>
        ensures { CallOf self.old self.new (RegisterXorbUploadCompletion xorb_hash) tt result }
    {
        let Some(found) = self.xorbs.find(&xorb_hash) else {
            return Err(ProgressError::InvalidOperation(Invalid::UnknownXorb { hash: xorb_hash }));
        };
        if found.completed {
            self.calls = self.calls.and(&Note::Completion(xorb_hash));
            return Ok(());
        }
        self.xorbs
            .finish(found.place, &mut self.files, &mut self.completed);
        self.calls = self.calls.and(&Note::Completion(xorb_hash));
        Ok(())
    }
}
