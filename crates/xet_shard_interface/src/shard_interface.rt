//! The stores of records of a session.
ghost use Rattle.std.specs.Prelude.{◌≡◌, [], ◌∷◌, ◌++◌, OnErr, OnOk, option_map};
ghost use Rattle.xet_shard_interface.specs.Interfaces.{AddsRecords, Flushes, ListsFiles, LooksResumed, Searches};
ghost use Rattle.xet_shard_interface.specs.Interfaces.{StagesXorb, is_due, new_interface, rules_of, shards_told};
ghost use Rattle.xet_shard_interface.specs.Puts.{Asks, Forgets, Forgot, MakesShards, PutsInOrder, PutsShard};
ghost use Rattle.xet_shard_interface.specs.Puts.{PutsShards, Uploads, UploadsAll, sizes};

use crate::shard_filler::split;
use std::alloc::Global;
use std::mem;
use xet_base::{
    FileDataSequenceEntry, List, MDBFileInfo, MDBXorbInfo, MerkleHash, OutOfMemory, ShardRecord,
};
use xet_outside::ClientError;
use xet_pointer::TranslatorConfig;
use xet_shards::ShardStore;
use xet_upload::DataError;
use xet_uploader::Uploader;

/// What the settings say of records.
#[derive(Clone, Copy, PartialEq, Eq)]
pub struct ShardRules {
    /// Whether no records are put.
    pub dry_run: bool,
    /// After how many seconds records of xorbs go to staging.
    pub flush_interval: u64,
    /// How many records of xorbs go to staging at the latest.
    pub flush_max_count: u64,
    /// How many bytes the records of one shard count for at most, where they are several.
    pub shard_max_target_size: u64,
}

impl ShardRules {
    /// The rules of these settings.
    pub fn new(config: &TranslatorConfig, dry_run: bool) -> ShardRules
        ensures { result ≡ rules_of config.now dry_run }
    {
        ShardRules {
            dry_run,
            flush_interval: config.session_xorb_metadata_flush_interval,
            flush_max_count: config.session_xorb_metadata_flush_max_count,
            shard_max_target_size: config.shard_max_target_size,
        }
    }
}

/// The stores that a session has.
///
/// In the Rust crate xet-data: the folders of `processing::shard_interface::SessionShardInterface`.
#[derive(Drop)]
pub struct SessionStores<R: ShardStore> {
    /// Records of an earlier session that goes on.
    pub resumed: Option<R>,
    /// Records of this session.
    pub session: R,
    /// Records that are known.
    pub cache: R,
    /// Records that a later session may go on with.
    pub staging: R,
}

/// The stores of a session, and the records of xorbs that are not staged yet.
///
/// In the Rust crate xet-data: `processing::shard_interface::SessionShardInterface`.
#[derive(Drop)]
pub struct SessionShardInterface<R: ShardStore> {
    stores: SessionStores<R>,
    // the records of put xorbs that did not go to staging yet, in the order of the puts
    staged: Vec<MDBXorbInfo>,
    // the moment at which records went there last, in seconds
    flushed: u64,
    rules: ShardRules,
}

impl<R: ShardStore> SessionShardInterface<R> {
    /// The stores, of which it asks nothing. `now` is a moment in seconds. It takes no memory.
    ///
    /// In the Rust crate xet-data: `SessionShardInterface::new`.
    pub fn new(
        alloc: Global,
        config: &TranslatorConfig,
        stores: SessionStores<R>,
        dry_run: bool,
        now: u64,
    ) -> SessionShardInterface<R>
        ensures { shards_told R.told result ≡ new_interface R.told (rules_of config.now dry_run) stores now }
    {
        SessionShardInterface {
            stores,
            staged: Vec::new(alloc),
            flushed: now,
            rules: ShardRules::new(config, dry_run),
        }
    }

    /// The stores as they are now.
    pub fn into_stores(self) -> SessionStores<R>
        ensures { result ≡ self.stores }
    {
        self.stores
    }

    // Adds records to those of the session.
    fn add_records(&mut self, alloc: Global, shard: &ShardRecord) -> Result<(), DataError>
        ensures { AddsRecords (shards_told R.told self.old) (shards_told R.told self.new) shard.now result }
    {
        Ok(self.stores.session.add(alloc, shard)?)
    }

    /// Adds the record of a xorb to those of the session. An error leaves them; `IOError` comes only where the faults
    /// of the session's store rose.
    ///
    /// In the Rust crate xet-data: `SessionShardInterface::add_xorb_block`.
    pub fn add_xorb_block(&mut self, alloc: Global, block: &MDBXorbInfo) -> Result<(), DataError>
        ensures { AddsRecords (shards_told R.told self.old) (shards_told R.told self.new)
            (record { xorbs = block.now ∷ []; files = [] }) result }
    {
        let mut xorbs = List::new(alloc);
        xorbs.push(block.copied(alloc)?)?;
        let shard = ShardRecord {
            xorbs,
            files: List::new(alloc),
        };
        self.add_records(alloc, &shard)
    }

    /// Adds the record of a file to those of the session. An error leaves them; `IOError` comes only where the faults
    /// of the session's store rose.
    ///
    /// In the Rust crate xet-data: `SessionShardInterface::add_file_reconstruction_info`.
    pub fn add_file_reconstruction_info(
        &mut self,
        alloc: Global,
        file: &MDBFileInfo,
    ) -> Result<(), DataError>
        ensures { AddsRecords (shards_told R.told self.old) (shards_told R.told self.new)
            (record { xorbs = []; files = file.now ∷ [] }) result }
    {
        let mut files = List::new(alloc);
        files.push(file.copied(alloc)?)?;
        let shard = ShardRecord {
            xorbs: List::new(alloc),
            files,
        };
        self.add_records(alloc, &shard)
    }

    /// Adds records of files to those of the session, together. An error leaves them; `IOError` comes only where the
    /// faults of the session's store rose.
    pub fn add_files(&mut self, alloc: Global, files: List<MDBFileInfo>) -> Result<(), DataError>
        ensures { AddsRecords (shards_told R.told self.old) (shards_told R.told self.new)
            (record { xorbs = []; files = files }) result }
    {
        let shard = ShardRecord {
            xorbs: List::new(alloc),
            files,
        };
        self.add_records(alloc, &shard)
    }

    /// The file records of the session, in the order in which they were added. `IOError` comes only where the faults of
    /// the session's store rose.
    ///
    /// In the Rust crate xet-data: `SessionShardInterface::session_file_info_list`.
    pub fn session_file_info_list(&mut self, alloc: Global) -> Result<List<MDBFileInfo>, DataError>
        ensures { ListsFiles (shards_told R.told self.old) (shards_told R.told self.new) result }
    {
        Ok(self.stores.session.files(alloc)?)
    }

    // A run of chunks with these hashes, from the resumed records; none in a dry run.
    fn find_resumed(
        &mut self,
        alloc: Global,
        hashes: &[MerkleHash],
    ) -> Result<Option<(usize, FileDataSequenceEntry)>, DataError>
        ensures { LooksResumed (shards_told R.told self.old) (shards_told R.told self.new) hashes.now result }
    {
        if self.rules.dry_run {
            return Ok(None);
        }
        match &mut self.stores.resumed {
            None => Ok(None),
            Some(resumed) => Ok(resumed.find(alloc, hashes)?),
        }
    }

    /// A run of chunks with these hashes: from the resumed records, from those of the session, or from those of the
    /// cache. It tells how many of them, the term that names the run, and whether the session did not add the record.
    /// A dry run asks the resumed store nothing. `IOError` comes only where the faults of a store that was asked rose.
    ///
    /// In the Rust crate xet-data: `SessionShardInterface::chunk_hash_dedup_query`.
    pub fn chunk_hash_dedup_query(
        &mut self,
        alloc: Global,
        hashes: &[MerkleHash],
    ) -> Result<Option<(usize, FileDataSequenceEntry, bool)>, DataError>
        ensures { Searches (shards_told R.told self.old) (shards_told R.told self.new) hashes.now result }
    {
        if let Some(found) = self.find_resumed(alloc, hashes)? {
            return Ok(Some((found.0, found.1, true)));
        }
        if let Some(found) = self.stores.session.find(alloc, hashes)? {
            return Ok(Some((found.0, found.1, false)));
        }
        if let Some(found) = self.stores.cache.find(alloc, hashes)? {
            return Ok(Some((found.0, found.1, true)));
        }
        Ok(None)
    }

    // Whether the records that wait are to go to staging.
    fn is_due(&self, now: u64) -> bool
        ensures { result ≡ is_due (shards_told R.told self.now) now }
    {
        self.flushed.saturating_add(self.rules.flush_interval) < now
            || self.rules.flush_max_count <= self.staged.len() as u64
    }

    // The records that wait go to staging. Where that fails they wait on.
    fn flush(&mut self, alloc: Global, now: u64) -> Result<(), DataError>
        ensures { Flushes (shards_told R.told self.old) (shards_told R.told self.new) now result }
    {
        let shard = ShardRecord {
            xorbs: List::from_vec(mem::replace(&mut self.staged, Vec::new(alloc))),
            files: List::new(alloc),
        };
        match self.stores.staging.add(alloc, &shard) {
            Ok(()) => {
                self.flushed = now;
                Ok(())
            }
            Err(error) => {
                self.staged = shard.xorbs.into_inner();
                Err(DataError::from(error))
            }
        }
    }

    // One record more waits.
    fn keep(&mut self, alloc: Global, block: &MDBXorbInfo) -> Result<(), OutOfMemory>
        ensures ok { OnOk result (shards_told R.told self.new
            ≡ record (shards_told R.told self.old) { staged = self.old.staged.items ++ block.now ∷ [] }) }
        ensures err { OnErr result (shards_told R.told self.new ≡ shards_told R.told self.old) }
    {
        self.staged.push(block.copied(alloc)?)?;
        Ok(())
    }

    /// Keeps the record of a xorb that was put for staging. All that wait go there together, once as many wait as the
    /// settings say, or once so many seconds passed since the last time. A dry run keeps none. After an error all that
    /// waited wait still, and this record too, but where there was no memory to keep it; `IOError` comes only where the
    /// faults of the staging store rose.
    ///
    /// In the Rust crate xet-data: `SessionShardInterface::add_uploaded_xorb_block`.
    pub fn add_uploaded_xorb_block(
        &mut self,
        alloc: Global,
        block: &MDBXorbInfo,
        now: u64,
    ) -> Result<(), DataError>
        ensures { StagesXorb (shards_told R.told self.old) (shards_told R.told self.new) block.now now result }
    {
        if self.rules.dry_run {
            return Ok(());
        }
        self.keep(alloc, block)?;
        if self.is_due(now) {
            return self.flush(alloc, now);
        }
        Ok(())
    }

    /// Asks the uploader once for records that know a chunk, and adds them to those of the cache. It tells whether
    /// there are any; an uploader that fails knows none. `IOError` comes only where the faults of the cache rose.
    ///
    /// In the Rust crate xet-data: `SessionShardInterface::query_dedup_shard_by_chunk`.
    pub fn query_dedup_shard_by_chunk<U: Uploader>(
        &mut self,
        alloc: Global,
        uploader: &mut U,
        chunk_hash: &MerkleHash,
    ) -> Result<bool, DataError>
        ensures { Asks (U.told uploader.old) (U.told uploader.new)
            (shards_told R.told self.old) (shards_told R.told self.new) chunk_hash.now result }
    {
        match uploader.query_shard(alloc, chunk_hash) {
            Ok(None) => Ok(false),
            Ok(Some(shard)) => {
                self.stores.cache.add(alloc, &shard)?;
                Ok(true)
            }
            Err(ClientError::Failed) => Ok(false),
            Err(ClientError::OutOfMemory) => Err(DataError::OutOfMemory),
        }
    }

    // Puts a shard, and adds its records to those of the cache.
    fn put_shard<U: Uploader>(
        &mut self,
        alloc: Global,
        uploader: &mut U,
        failed: &mut Option<ClientError>,
        shard: &ShardRecord,
    ) -> Result<(), DataError>
        ensures { PutsShard (U.told uploader.old) (U.told uploader.new)
            (shards_told R.told self.old) (shards_told R.told self.new) failed.old failed.new shard.now result }
    {
        match uploader.put_shard(alloc, shard) {
            Ok(_sent) => Ok(self.stores.cache.add(alloc, shard)?),
            Err(error) => {
                *failed = Some(error);
                Err(DataError::from(error))
            }
        }
    }

    // Puts shards, one after another, and adds their records to those of the cache.
    fn put_shards<U: Uploader>(
        &mut self,
        alloc: Global,
        uploader: &mut U,
        failed: &mut Option<ClientError>,
        shards: &[ShardRecord],
    ) -> Result<(), DataError>
        ensures { PutsShards (U.told uploader.old) (U.told uploader.new)
            (shards_told R.told self.old) (shards_told R.told self.new) failed.old failed.new shards.now result }
    {
        for shard in shards {
            self.put_shard(alloc, uploader, failed, shard)?;
        }
        Ok(())
    }

    // The shards that the records of the session become.
    fn session_shards(&mut self, alloc: Global) -> Result<List<ShardRecord>, DataError>
        ensures { MakesShards (shards_told R.told self.old) (shards_told R.told self.new) result }
    {
        let records = self.stores.session.all(alloc)?;
        Ok(split(alloc, &records, self.rules.shard_max_target_size)?)
    }

    // Forgets the resumed records. A failure changes nothing.
    fn forget_resumed(&mut self)
        ensures call { Forgets (shards_told R.told self.old) (shards_told R.told self.new) }
        ensures forgot { Forgot (option_map R.told self.old.stores.resumed)
            (option_map R.told self.new.stores.resumed) }
    {
        if let Some(resumed) = &mut self.stores.resumed {
            let _ = resumed.clear();
        }
    }

    /// Puts the records of the session as shards, each of which counts for `shard_max_target_size` bytes at most where
    /// it has more than one record, and adds them to those of the cache. Then it forgets the resumed records, a failure
    /// ignored. It tells how many bytes the shards count for. A dry run puts nothing and forgets nothing. A failed put
    /// is kept in `failed`. `ClientError` comes only where a put failed, and `IOError` only where the faults of the
    /// session's store or of the cache rose.
    ///
    /// In the Rust crate xet-data: `SessionShardInterface::upload_and_register_session_shards`.
    pub fn upload_shards<U: Uploader>(
        &mut self,
        alloc: Global,
        uploader: &mut U,
        failed: &mut Option<ClientError>,
    ) -> Result<u64, DataError>
        ensures { Uploads (U.told uploader.old) (U.told uploader.new)
            (shards_told R.told self.old) (shards_told R.told self.new) failed.old failed.new result }
    {
        let shards = self.session_shards(alloc)?;
        let sum = sum_of(shards.as_slice());
        if self.rules.dry_run {
            return Ok(sum);
        }
        self.put_shards(alloc, uploader, failed, shards.as_slice())?;
        self.forget_resumed();
        Ok(sum)
    }

    /// The same, where no put failed before and nobody keeps a failure. What is put is in order, if each xorb that a
    /// file record of the session names was put or is known.
    ///
    /// In the Rust crate xet-data: `SessionShardInterface::upload_and_register_session_shards`.
    pub fn upload_and_register_session_shards<U: Uploader>(
        &mut self,
        alloc: Global,
        uploader: &mut U,
    ) -> Result<u64, DataError>
        ensures call { UploadsAll (U.told uploader.old) (U.told uploader.new)
            (shards_told R.told self.old) (shards_told R.told self.new) result }
        ensures order { PutsInOrder (U.told uploader.old) (U.told uploader.new) (shards_told R.told self.old) }
    {
        let mut failed = None;
        self.upload_shards(alloc, uploader, &mut failed)
    }
}

// How many bytes the shards count for, but at most `u64::MAX`.
fn sum_of(shards: &[ShardRecord]) -> u64
    ensures { result ≡ sizes shards.now }
{
    let mut sum = 0u64;
    for shard in shards {
        sum = sum.saturating_add(shard.num_bytes());
    }
    sum
}
