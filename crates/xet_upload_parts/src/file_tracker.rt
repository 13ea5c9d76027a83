//! The tracker of a session's files and xorbs.
ghost use Rattle.std.specs.Prelude.{◌≡◌, ◌++◌, ◌∷◌, [], IfErr, IfOk, OnErr, OnOk, is_some, length, not};
ghost use Rattle.xet_base.specs.Records.{Describes};
ghost use Rattle.xet_progress_state.specs.Accepted.{CallOf};
ghost use Rattle.xet_progress_state.specs.Counts.{size_of, sizes};
ghost use Rattle.xet_progress_state.specs.declared.step.TrackerStep.TheVariants.{IncrementFileSize};
ghost use Rattle.xet_progress_state.specs.declared.step.TrackerStep.TheVariants.{RegisterDependencies};
ghost use Rattle.xet_progress_state.specs.declared.step.TrackerStep.TheVariants.{RegisterNewFile, RegisterNewXorb};
ghost use Rattle.xet_progress_state.specs.declared.step.TrackerStep.TheVariants.{RegisterXorbUploadCompletion};
ghost use Rattle.xet_upload.specs.declared.data_error.DataError.TheVariants as data_error;
ghost use Rattle.xet_upload_parts.specs.TrackerCalls.{with_call};
ghost use Rattle.xet_upload_parts.specs.Tracked.{Tracks, xorb_calls};
ghost use Rattle.xet_upload_parts.specs.CutNotes.{NotesCut, parts_of};

use crate::file_items::FileItems;
use crate::hash_list::HashList;
use std::alloc::Global;
use std::sync::{Arc, Wait};
use xet_base::{List, MerkleHash, OutOfMemory, UniqueID};
use xet_progress::{
    FileXorbDependency, GroupProgress, ItemProgressUpdater, ProgressError, TrackerState,
};
use xet_upload::{DataError, PendingFile, RawXorbData};

/// Which bytes of which files stand in xorbs that were put, and the files' items, which are told of it.
#[derive(Drop)]
pub struct FileTracker {
    tracker: TrackerState,
    items: FileItems,
}

impl FileTracker {
    /// No files and no xorbs. It takes no memory.
    pub fn new(alloc: Global) -> FileTracker
        ensures { result.tracker ≡ [] }
    {
        FileTracker {
            tracker: TrackerState::new(alloc),
            items: FileItems::new(alloc),
        }
    }

    /// Registers a file, of a fixed size or of one that grows from 0, and answers its id. `item` is the file's.
    ///
    /// `SumTooGreat` where the sum of all files' sizes would pass `u64::MAX`. `OutOfMemory` where an allocation was
    /// refused.
    fn add_item<W: Wait>(
        &mut self,
        rt: &W,
        item: ItemProgressUpdater,
        size: Option<u64>,
    ) -> Result<u64, ProgressError>
        ensures { CallOf self.old.tracker self.new.tracker (RegisterNewFile size) (length (sizes self.old.tracker))
            result }
    {
        self.items.reserve()?;
        let id = self.tracker.register_new_file(size)?;
        self.items.add(rt, item, size);
        Ok(id)
    }

    /// Registers a file, of a fixed size or of one that grows from 0, with an item of the group that has this id and
    /// name; a group that has one with the id goes on with it. It answers the item's id and the file's.
    ///
    /// `SumTooGreat` where the sum of all files' sizes would pass `u64::MAX`. `OutOfMemory` where an allocation was
    /// refused.
    pub fn add_file<W: Wait>(
        &mut self,
        rt: &W,
        alloc: Global,
        group: &Arc<GroupProgress>,
        id: UniqueID,
        name: &str,
        size: Option<u64>,
    ) -> Result<(UniqueID, u64), DataError>
        ensures tracks { Tracks self.old.tracker self.new.tracker (RegisterNewFile size ∷ []) result }
        ensures id { IfOk result (λ r. r.0 ≡ id) }
        ensures number { IfOk result (λ r. r.1 ≡ length (sizes self.old.tracker)) }
    {
        let Ok(item) = make_item(group, rt, alloc, id, name) else {
            return Err(DataError::OutOfMemory);
        };
        match self.add_item(rt, item, size) {
            Ok(file_id) => Ok((id, file_id)),
            Err(error) => Err(DataError::from(error)),
        }
    }

    /// Adds to the size of a file. A fixed size stays.
    ///
    /// `UnknownFile` where no file has this id, then, for one that grows, `SumTooGreat` where the sum of all files'
    /// sizes would pass `u64::MAX`. `OutOfMemory` where an allocation was refused.
    pub fn grow_file<W: Wait>(&mut self, rt: &W, file_id: u64, bytes: u64) -> Result<(), DataError>
        ensures { Tracks self.old.tracker self.new.tracker (IncrementFileSize file_id bytes ∷ []) result }
    {
        match self.tracker.increment_file_size(file_id, bytes) {
            Ok(()) => {
                self.items.tell_size(rt, &self.tracker, file_id);
                Ok(())
            }
            Err(error) => Err(DataError::from(error)),
        }
    }

    /// Registers a xorb of so many bytes: true at the first time.
    ///
    /// `OtherSize` where it was registered with another size, and where it is new `SumTooGreat` where the sum of all
    /// xorbs' sizes would pass `u64::MAX`. `OutOfMemory` where an allocation was refused.
    fn register_xorb(
        &mut self,
        alloc: Global,
        hash: MerkleHash,
        size: u64,
    ) -> Result<bool, ProgressError>
        ensures { CallOf self.old.tracker self.new.tracker (RegisterNewXorb hash size)
            (not (is_some (size_of self.old.tracker hash))) result }
    {
        self.tracker.register_new_xorb(alloc, hash, size)
    }

    /// Registers what files have in xorbs, all of it or nothing.
    ///
    /// `UnknownFile` where one names no file, else `PastTotal` where a file's dependencies would pass its size.
    /// `OutOfMemory` where an allocation was refused.
    fn depend<W: Wait>(
        &mut self,
        rt: &W,
        alloc: Global,
        dependencies: &[FileXorbDependency],
    ) -> Result<(), ProgressError>
        ensures { CallOf self.old.tracker self.new.tracker (RegisterDependencies dependencies.now) tt result }
    {
        self.tracker.register_dependencies(alloc, dependencies)?;
        self.items
            .tell_dependencies(rt, &self.tracker, dependencies);
        Ok(())
    }

    /// Registers what files have in xorbs, all of it or nothing.
    ///
    /// `UnknownFile` where one names no file, else `PastTotal` where a file's dependencies would pass its size.
    /// `OutOfMemory` where an allocation was refused.
    pub fn register_dependencies<W: Wait>(
        &mut self,
        rt: &W,
        alloc: Global,
        dependencies: &[FileXorbDependency],
    ) -> Result<(), DataError>
        ensures { Tracks self.old.tracker self.new.tracker (RegisterDependencies dependencies.now ∷ []) result }
    {
        match self.depend(rt, alloc, dependencies) {
            Ok(()) => Ok(()),
            Err(error) => Err(DataError::from(error)),
        }
    }

    /// Registers a xorb where none of its hash was put before, and then what files have in xorbs. `put` has the xorbs
    /// that were put.
    ///
    /// `OtherSize` or `SumTooGreat` by the xorb's size, then `UnknownFile` or `PastTotal` by the dependencies.
    /// `OutOfMemory` where an allocation was refused.
    pub fn register_given<W: Wait>(
        &mut self,
        rt: &W,
        alloc: Global,
        raw: &RawXorbData,
        dependencies: &[FileXorbDependency],
        put: &HashList,
    ) -> Result<(), DataError>
        requires { Describes raw.now.xorb_info raw.now.xorb }
        ensures { Tracks self.old.tracker self.new.tracker
            (xorb_calls put.now.hashes.items raw.now.xorb dependencies.now) result }
    {
        if put.contains(&raw.xorb.hash) {
            return self.register_dependencies(rt, alloc, dependencies);
        }
        match self.register_xorb(alloc, raw.xorb.hash, raw.num_bytes()) {
            Ok(_new) => self.register_dependencies(rt, alloc, dependencies),
            Err(error) => Err(DataError::from(error)),
        }
    }

    /// Counts a xorb as complete. A refusal changes nothing. `OutOfMemory` where an allocation was refused.
    pub fn complete<W: Wait>(&mut self, rt: &W, hash: &MerkleHash) -> Result<(), OutOfMemory>
        ensures ok { OnOk result (self.new.tracker
            ≡ with_call self.old.tracker (RegisterXorbUploadCompletion hash.now)) }
        ensures err { OnErr result (self.new.tracker ≡ self.old.tracker) }
    {
        let before = self.tracker.xorb(hash);
        if let Err(ProgressError::OutOfMemory) = self
            .tracker
            .register_xorb_upload_completion(*hash)
        {
            return Err(OutOfMemory);
        }
        self.items.tell_xorb(rt, &self.tracker, before);
        Ok(())
    }

    /// Registers a xorb of so many bytes. A refusal changes nothing. `OutOfMemory` where an allocation was refused.
    fn note_xorb(&mut self, alloc: Global, hash: MerkleHash, size: u64) -> Result<(), DataError>
        ensures ok { OnOk result (self.new.tracker ≡ with_call self.old.tracker (RegisterNewXorb hash size)) }
        ensures err { OnErr result (self.new.tracker ≡ self.old.tracker) }
        ensures memory { IfErr result (λ e. e ≡ data_error.OutOfMemory) }
    {
        match self.register_xorb(alloc, hash, size) {
            Err(ProgressError::OutOfMemory) => Err(DataError::OutOfMemory),
            _ => Ok(()),
        }
    }

    /// Registers what files have in xorbs. A refusal changes nothing. `OutOfMemory` where an allocation was refused.
    fn note_parts<W: Wait>(
        &mut self,
        rt: &W,
        alloc: Global,
        dependencies: &[FileXorbDependency],
    ) -> Result<(), DataError>
        ensures ok { OnOk result (self.new.tracker
            ≡ with_call self.old.tracker (RegisterDependencies dependencies.now)) }
        ensures err { OnErr result (self.new.tracker ≡ self.old.tracker) }
        ensures memory { IfErr result (λ e. e ≡ data_error.OutOfMemory) }
    {
        match self.depend(rt, alloc, dependencies) {
            Err(ProgressError::OutOfMemory) => Err(DataError::OutOfMemory),
            _ => Ok(()),
        }
    }

    /// Registers a xorb that is cut, and what files have in it; a xorb without chunks isn't. A refusal changes nothing.
    /// `OutOfMemory` where an allocation was refused.
    pub fn register_cut<W: Wait>(
        &mut self,
        rt: &W,
        alloc: Global,
        raw: &RawXorbData,
        files: &[PendingFile],
    ) -> Result<(), DataError>
        ensures notes { NotesCut self.old.tracker self.new.tracker raw.now files.now result }
        ensures memory { IfErr result (λ e. e ≡ data_error.OutOfMemory) }
    {
        if raw.xorb.chunks.len() == 0 {
            return Ok(());
        }
        let hash = raw.xorb.hash;
        let dependencies = parts_in(alloc, hash, files)?;
        self.note_xorb(alloc, hash, raw.num_bytes())?;
        self.note_parts(rt, alloc, dependencies.as_slice())
    }
}

/// An item of the group with this id and name; a group that has one with the id goes on with it.
fn make_item<W: Wait>(
    group: &Arc<GroupProgress>,
    rt: &W,
    alloc: Global,
    id: UniqueID,
    name: &str,
) -> Result<ItemProgressUpdater, OutOfMemory> {
    match GroupProgress::new_item(group, rt, alloc, id, name) {
        Ok(item) => Ok(item),
        Err(ProgressError::OutOfMemory) => Err(OutOfMemory),
        Err(ProgressError::InvalidOperation(_)) => GroupProgress::updater(group, id),
    }
}

/// What files have in the xorb that their waiting chunks became.
#[tactic(auto, using(crate::proofs::CutNotes::parts_more))]
fn parts_in(
    alloc: Global,
    xorb_hash: MerkleHash,
    files: &[PendingFile],
) -> Result<List<FileXorbDependency>, OutOfMemory>
    ensures { IfOk result (λ parts. parts ≡ parts_of xorb_hash files.now) }
{
    let mut parts = List::new(alloc);
    for file in files {
        add_part(&mut parts, xorb_hash, file)?;
    }
    Ok(parts)
}

/// Adds what a file has in the xorb, where it has something in it.
fn add_part(
    parts: &mut List<FileXorbDependency>,
    xorb_hash: MerkleHash,
    file: &PendingFile,
) -> Result<(), OutOfMemory>
    ensures { OnOk result (parts.new ≡ parts.old ++ parts_of xorb_hash (file.now ∷ [])) }
{
    if file.bytes_in_xorb == 0 {
        return Ok(());
    }
    parts.push(FileXorbDependency {
        file_id: file.file_id,
        xorb_hash,
        n_bytes: file.bytes_in_xorb,
        is_external: false,
    })?;
    Ok(())
}
