//! The xorbs that calls named.
ghost use Rattle.std.specs.Prelude.{◌≡◌, ◌<◌, [], All, true, false, length, slice_index_or, slice_set, position, find};
ghost use Rattle.std.specs.Prelude.{option_and_then, Some, None, IfSome, IfNone, IfOk, IfErr, OnOk};
ghost use Rattle.xet_base.specs.Hashes.{hash_eq};
ghost use Rattle.xet_progress_state.specs.declared.step.FileXorbDependency.{FileXorbDependency};
ghost use Rattle.xet_progress_state.specs.declared.xorb.TrackedXorb.{TrackedXorb};
ghost use Rattle.xet_progress_state.specs.steps.Credits.{Advanced, AdvancedAt, CanCredit, Credited, Entered};
ghost use Rattle.xet_progress_state.specs.steps.Credits.{completed_in};
ghost use Rattle.xet_progress_state.specs.steps.Depends.{CanWait, StandAlike, Waited, has_room};
ghost use Rattle.xet_progress_state.specs.steps.Found.{IsFound};
ghost use Rattle.xet_progress_state.specs.steps.Keys.{key_of};
ghost use Rattle.xet_progress_state.specs.steps.Open.{done_in};

use crate::error::ProgressError;
use crate::file::TrackedFile;
use crate::hash_key::HashKey;
use crate::part::Parts;
use crate::recent::Recent;
use crate::step::FileXorbDependency;
use std::alloc::Global;
use std::marker::Model;
use xet_base::MerkleHash;

/// A xorb that a call named: its size where it is registered, the bytes sent, and the parts that wait for it.
#[derive(Drop)]
pub(crate) struct TrackedXorb {
    pub(crate) hash: MerkleHash,
    pub(crate) size: Option<u64>,
    pub(crate) sent: u64,
    pub(crate) completed: bool,
    pub(crate) parts: Parts,
}

/// What the entry of a registered xorb says.
#[derive(Clone, Copy, Drop)]
pub struct Found {
    /// The entry's place.
    pub place: usize,
    /// The size that the xorb is registered with.
    pub size: u64,
    /// The bytes of it that were sent.
    pub sent: u64,
    /// Whether it is completed.
    pub completed: bool,
}

/// Entries of different xorbs in the order in which they came, each found by its hash.
#[derive(Drop)]
pub(crate) struct Xorbs {
    list: Vec<TrackedXorb>,
    places: Recent<HashKey>,
}

impl Model for Xorbs {
    ghost use Rattle.std.specs.Prelude.{List, map};
    ghost use Rattle.xet_progress_state.specs.steps.Indexes.{Indexes};
    ghost use Rattle.xet_progress_state.specs.steps.Keys.{key_cmp, key_of};
    ghost use Rattle.xet_progress_state.specs.declared.xorb.TrackedXorb.{TrackedXorb};

    ghost Value = { List TrackedXorb };

    ghost view = { λ s. s.list.items };

    ghost invariant = { λ s. Indexes key_cmp (map (λ x. key_of x.hash) s.list.items) s.places };
}

impl Xorbs {
    /// No xorbs. It takes no memory.
    pub(crate) fn new(alloc: Global) -> Xorbs
        ensures { result ≡ [] }
    {
        Xorbs {
            list: Vec::new(alloc),
            places: Recent::new(alloc),
        }
    }

    /// The place of a xorb's entry.
    fn number_of(&self, hash: &MerkleHash) -> Option<usize>
        ensures { result ≡ position (λ x. hash_eq x.hash hash.now) self.now }
    {
        self.places.number_of(&HashKey::of(hash))
    }

    /// Remembers the place of a xorb's entry, for the looks after this one. The entry after the one that is remembered
    /// is looked at first, since calls often go in the order of registration.
    pub(crate) fn remember(&mut self, hash: &MerkleHash)
        ensures { self.new ≡ self.old }
    {
        let key = HashKey::of(hash);
        let next = self.places.next();
        if self.is_at(next, hash, &key) {
            self.places.remember_at(&key, next);
            return;
        }
        self.places.remember(&key);
    }

    /// Whether the entry at a place is that of a xorb, whose key is given too.
    fn is_at(&self, place: usize, hash: &MerkleHash, key: &HashKey) -> bool
        requires { key.now ≡ key_of hash.now }
        ensures { result ≡ true → position (λ x. hash_eq x.hash hash.now) self.now ≡ Some place }
    {
        match self.list.get(place) {
            Some(xorb) => HashKey::of(&xorb.hash).cmp(key).is_eq(),
            None => false,
        }
    }

    /// The entry of a registered xorb.
    pub(crate) fn find(&self, hash: &MerkleHash) -> Option<Found>
        ensures none { IfNone result (option_and_then (λ x. x.size) (find (λ x. hash_eq x.hash hash.now) self.now)
            ≡ None) }
        ensures some { IfSome result (IsFound hash.now self.now) }
    {
        let place = self.number_of(hash)?;
        let xorb = &self.list[place];
        Some(Found {
            place,
            size: xorb.size?,
            sent: xorb.sent,
            completed: xorb.completed,
        })
    }

    /// Whether a xorb is completed.
    pub(crate) fn is_done(&self, hash: &MerkleHash) -> bool
        ensures { result ≡ done_in self.now hash.now }
    {
        let Some(place) = self.number_of(hash) else {
            return false;
        };
        self.list[place].completed
    }

    /// How many files wait for the xorb of an entry.
    pub(crate) fn waiting_count(&self, place: usize) -> usize {
        let Some(xorb) = self.list.get(place) else {
            return 0;
        };
        xorb.parts.len()
    }

    /// One of the files that wait for the xorb of an entry.
    pub(crate) fn waiting_file(&self, place: usize, number: usize) -> Option<u64> {
        self.list.get(place)?.parts.file_at(number)
    }

    /// The place of a xorb's entry, which is made where it is missing.
    pub(crate) fn entry(&mut self, alloc: Global, hash: MerkleHash) -> Result<usize, ProgressError>
        ensures place { IfOk result (λ i. position (λ x. hash_eq x.hash hash) self.new ≡ Some i) }
        ensures list { OnOk result (Entered hash self.old self.new) }
        ensures memory { IfErr result (λ e. (e ≡ ProgressError.OutOfMemory) × (self.new ≡ self.old)) }
    {
        let key = HashKey::of(&hash);
        self.places.remember(&key);
        if let Some(place) = self.places.number_of(&key) {
            return Ok(place);
        }
        let place = self.list.len();
        if self.list.reserve(1).is_err() || self.places.push(key, place).is_err() {
            return Err(ProgressError::OutOfMemory);
        }
        let xorb = TrackedXorb {
            hash,
            size: None,
            sent: 0,
            completed: false,
            parts: Parts::new(alloc),
        };
        if self.list.push(xorb).is_err() {
            unreachable!()
        }
        Ok(place)
    }

    /// Registers the xorb of an entry with its size.
    pub(crate) fn register(&mut self, place: usize, size: u64)
        requires { place < length self.old }
        ensures { (d : TrackedXorb) → self.new
            ≡ slice_set self.old place (record (slice_index_or self.old place d) { size = Some size }) }
    {
        self.list[place].size = Some(size);
    }

    /// Makes room for a dependency.
    fn make_room(
        &mut self,
        alloc: Global,
        count: usize,
        dependency: &FileXorbDependency,
    ) -> Result<(), ProgressError>
        requires { dependency.now.file_id < count }
        ensures alike { StandAlike count self.old self.new }
        ensures room { OnOk result (has_room self.new dependency.now ≡ true) }
        ensures kept { (d : FileXorbDependency) → has_room self.old d ≡ true → has_room self.new d ≡ true }
        ensures memory { IfErr result (λ e. e ≡ ProgressError.OutOfMemory) }
    {
        if dependency.is_external {
            return Ok(());
        }
        let place = self.entry(alloc, dependency.xorb_hash)?;
        let xorb = &mut self.list[place];
        xorb.parts.add_empty(dependency.file_id)
    }

    /// Makes room for dependencies.
    pub(crate) fn make_rooms(
        &mut self,
        alloc: Global,
        count: usize,
        dependencies: &[FileXorbDependency],
    ) -> Result<(), ProgressError>
        requires { All (λ d. d.file_id < count) dependencies.now }
        ensures alike { StandAlike count self.old self.new }
        ensures room { OnOk result (All (λ d. has_room self.new d ≡ true) dependencies.now) }
        ensures memory { IfErr result (λ e. e ≡ ProgressError.OutOfMemory) }
    {
        for dependency in dependencies {
            self.make_room(alloc, count, dependency)?;
        }
        Ok(())
    }

    /// Adds the bytes of a dependency to its part, and says whether they count.
    pub(crate) fn wait(&mut self, dependency: &FileXorbDependency) -> bool
        requires outside { dependency.now.is_external ≡ false }
        requires room { has_room self.old dependency.now ≡ true }
        requires fits { CanWait self.old dependency.now }
        ensures step { Waited self.old self.new dependency.now result }
        ensures kept { (d : FileXorbDependency) → has_room self.old d ≡ true → has_room self.new d ≡ true }
    {
        let Some(place) = self.number_of(&dependency.xorb_hash) else {
            return false;
        };
        let xorb = &mut self.list[place];
        let done = xorb.completed;
        xorb.parts
            .wait(dependency.file_id, dependency.n_bytes, done);
        done
    }

    /// Counts bytes of the xorb of an entry as sent.
    pub(crate) fn advance(
        &mut self,
        place: usize,
        files: &mut Vec<TrackedFile>,
        completed: &mut u64,
        sent: u64,
        size: u64,
    )
        requires there { place < length self.old }
        requires can { (x : TrackedXorb) → x ≡ slice_index_or self.old place x
            → CanCredit files.old.items x.parts sent size }
        requires sum { completed.old ≡ completed_in files.old.items }
        ensures xorb { AdvancedAt self.old self.new files.old.items files.new.items place false sent size }
        ensures count { length files.new.items ≡ length files.old.items }
        ensures sum { completed.new ≡ completed_in files.new.items }
    {
        advance(&mut self.list[place], files, completed, sent, size);
    }

    /// Counts the xorb of an entry as completed: of each part all bytes.
    pub(crate) fn finish(&mut self, place: usize, files: &mut Vec<TrackedFile>, completed: &mut u64)
        requires there { place < length self.old }
        requires can { (x : TrackedXorb) → x ≡ slice_index_or self.old place x → CanCredit files.old.items x.parts 1 1 }
        requires sum { completed.old ≡ completed_in files.old.items }
        ensures xorb { AdvancedAt self.old self.new files.old.items files.new.items place true 1 1 }
        ensures count { length files.new.items ≡ length files.old.items }
        ensures sum { completed.new ≡ completed_in files.new.items }
    {
        finish(&mut self.list[place], files, completed);
    }
}

/// Counts bytes of a xorb as sent.
fn advance(
    xorb: &mut TrackedXorb,
    files: &mut Vec<TrackedFile>,
    completed: &mut u64,
    sent: u64,
    size: u64,
)
    requires can { CanCredit files.old.items xorb.old.parts sent size }
    requires sum { completed.old ≡ completed_in files.old.items }
    ensures xorb { Advanced xorb.old xorb.new sent size }
    ensures sent { xorb.new.sent ≡ sent }
    ensures done { xorb.new.completed ≡ xorb.old.completed }
    ensures files { Credited files.old.items files.new.items xorb.old.parts sent size }
    ensures count { length files.new.items ≡ length files.old.items }
    ensures sum { completed.new ≡ completed_in files.new.items }
{
    xorb.sent = sent;
    xorb.parts.credit(files, completed, sent, size);
}

/// Counts a xorb as completed: of each part all bytes.
fn finish(xorb: &mut TrackedXorb, files: &mut Vec<TrackedFile>, completed: &mut u64)
    requires can { CanCredit files.old.items xorb.old.parts 1 1 }
    requires sum { completed.old ≡ completed_in files.old.items }
    ensures xorb { Advanced xorb.old xorb.new 1 1 }
    ensures done { xorb.new.completed ≡ true }
    ensures files { Credited files.old.items files.new.items xorb.old.parts 1 1 }
    ensures count { length files.new.items ≡ length files.old.items }
    ensures sum { completed.new ≡ completed_in files.new.items }
{
    xorb.completed = true;
    xorb.parts.credit(files, completed, 1, 1);
}
