//! The end of a file in a session.
ghost use Rattle.std.specs.Prelude.{◌≡◌, ◌<◌, ◌≤◌, ℕ, All, Contains, None, false};
ghost use Rattle.xet_upload_session.specs.Calls.{Backs};
ghost use Rattle.xet_upload_session.specs.Completions.{TakesFile};
ghost use Rattle.xet_upload_parts.specs.Storable.{IsStorable};
ghost use Rattle.xet_upload_parts.specs.Thresholds.{FitTogether, waiting_bytes};
ghost use Rattle.xet_upload_session.specs.Sessions.{waiting_names};
ghost use Rattle.xet_upload_session.specs.Trackings.{TracksFile};

use crate::session::FileUploadSession;
use std::alloc::Global;
use std::sync::Wait;
use xet_shards::ShardStore;
use xet_upload::{DataAggregator, DataError};
use xet_uploader::Uploader;

impl<U: Uploader, R: ShardStore> FileUploadSession<U, R> {
    ghost use Rattle.xet_upload_session.specs.Telling.{KeepsGroup, told_by};

    // Cuts the data of a file, while what waits is kept aside.
    fn cut_file<W: Wait>(
        &mut self,
        rt: &W,
        alloc: Global,
        file_data: DataAggregator,
        now: u64,
    ) -> Result<(), DataError>
        requires named { self.old.failed ≡ None → self.old.finalized ≡ false
            → All (Contains self.old.listed.hashes.items) (waiting_names file_data.files) }
        requires storable { IsStorable file_data.chunks }
        requires passes { FitTogether self.old.thresholds self.old.waiting file_data → ⊥ }
        requires larger { waiting_bytes self.old.waiting ≤ waiting_bytes file_data }
        ensures call { TakesFile (told_by self.old) (told_by self.new) file_data now result }
        ensures tracks { TracksFile (told_by self.old) (told_by self.new) file_data
            self.old.files.tracker self.new.files.tracker result }
        ensures group { KeepsGroup self.old self.new }
    {
        let waiting = self.replace_waiting(file_data);
        let answer = self.checkpoint(rt, alloc, now);
        let _ = self.replace_waiting(waiting);
        answer
    }

    // Cuts what waits, and then the data of the file waits.
    fn cut_waiting<W: Wait>(
        &mut self,
        rt: &W,
        alloc: Global,
        file_data: DataAggregator,
        now: u64,
    ) -> Result<(), DataError>
        requires named { self.old.failed ≡ None → self.old.finalized ≡ false
            → All (Contains self.old.listed.hashes.items) (waiting_names file_data.files) }
        requires storable { IsStorable file_data.chunks }
        requires passes { FitTogether self.old.thresholds self.old.waiting file_data → ⊥ }
        requires larger { waiting_bytes file_data < waiting_bytes self.old.waiting }
        ensures call { TakesFile (told_by self.old) (told_by self.new) file_data now result }
        ensures tracks { TracksFile (told_by self.old) (told_by self.new) file_data
            self.old.files.tracker self.new.files.tracker result }
        ensures group { KeepsGroup self.old self.new }
    {
        match self.checkpoint(rt, alloc, now) {
            Ok(()) => {
                let _ = self.replace_waiting(file_data);
                Ok(())
            }
            Err(error) => Err(error),
        }
    }

    // The data of a file joins what waits.
    fn join_waiting(&mut self, alloc: Global, file_data: DataAggregator) -> Result<(), DataError>
        requires named { self.old.failed ≡ None → self.old.finalized ≡ false
            → All (Contains self.old.listed.hashes.items) (waiting_names file_data.files) }
        requires storable { IsStorable file_data.chunks }
        requires fits { FitTogether self.old.thresholds self.old.waiting file_data }
        ensures call { (now : ℕ) → TakesFile (told_by self.old) (told_by self.new) file_data now result }
        ensures tracks { TracksFile (told_by self.old) (told_by self.new) file_data
            self.old.files.tracker self.new.files.tracker result }
        ensures group { KeepsGroup self.old self.new }
    {
        match self.merge_waiting(alloc, file_data) {
            Ok(()) => Ok(()),
            Err(error) => Err(DataError::from(error)),
        }
    }

    /// The data of a file joins what waits, where both together pass no threshold of the settings and no limit of a
    /// xorb. Else the larger side is cut as a xorb and put, of equal sides that of the file. The caller sees to it that
    /// each stored xorb that the file's terms name is on the list. `now` is a moment in seconds.
    ///
    /// After a put that failed it answers so where it would cut, and puts nothing: `ClientError` where the uploader
    /// failed. `IOError` comes only where a store of records failed.
    ///
    /// In the Rust crate xet-data: `FileUploadSession::register_single_file_clean_completion`.
    pub fn register_single_file_clean_completion<W: Wait>(
        &mut self,
        rt: &W,
        alloc: Global,
        file_data: DataAggregator,
        now: u64,
    ) -> Result<(), DataError>
        requires named { self.old.failed ≡ None → self.old.finalized ≡ false
            → All (Contains self.old.listed.hashes.items) (waiting_names file_data.files) }
        ensures call { TakesFile (told_by self.old) (told_by self.new) file_data now result }
        ensures tracks { TracksFile (told_by self.old) (told_by self.new) file_data
            self.old.files.tracker self.new.files.tracker result }
        ensures group { KeepsGroup self.old self.new }
        ensures backs { Backs (told_by self.old) (told_by self.new) }
    {
        if self.thresholds().fit(self.waiting(), &file_data) {
            return self.join_waiting(alloc, file_data);
        }
        if file_data.num_bytes() >= self.waiting().num_bytes() {
            return self.cut_file(rt, alloc, file_data, now);
        }
        self.cut_waiting(rt, alloc, file_data, now)
    }
}
