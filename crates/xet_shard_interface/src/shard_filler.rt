//! Records that are filled into shards.
ghost use Rattle.std.specs.Prelude.{◌≡◌, [], IfOk, OnOk, drop};
ghost use Rattle.xet_shard_interface.specs.Fillings.{all_filled, closed, file_filled, files_filled, is_full, no_shards};
ghost use Rattle.xet_shard_interface.specs.Fillings.{room, shards_in, xorb_filled, xorbs_filled};

use std::alloc::Global;
use std::mem;
use xet_base::{List, MDBFileInfo, MDBXorbInfo, OutOfMemory, ShardRecord};

/// Shards that are full, and the records of the next one.
#[derive(Drop)]
pub struct ShardFiller {
    /// The full ones, in order.
    pub done: List<ShardRecord>,
    /// The records of the next one.
    pub next: ShardRecord,
    /// How many bytes these count for, but at most `u64::MAX`.
    pub size: u64,
}

impl ShardFiller {
    /// No shards. It takes no memory.
    pub fn new(alloc: Global) -> ShardFiller
        ensures { result ≡ no_shards }
    {
        ShardFiller {
            done: List::new(alloc),
            next: no_records(alloc),
            size: 0,
        }
    }

    // Whether records of so many bytes more are too many for the next shard, which has some.
    fn is_full(&self, most: u64, size: u64) -> bool
        ensures { result ≡ is_full most self.now size }
    {
        (self.next.xorbs.len() > 0 || self.next.files.len() > 0)
            && most < self.size.saturating_add(size)
    }

    // The next shard is full.
    fn close(&mut self, alloc: Global) -> Result<(), OutOfMemory>
        ensures { OnOk result (self.new ≡ closed self.old) }
    {
        self.size = 0;
        let shard = mem::replace(&mut self.next, no_records(alloc));
        self.done.push(shard)?;
        Ok(())
    }

    // Makes room for so many bytes.
    fn make_room(&mut self, alloc: Global, most: u64, size: u64) -> Result<(), OutOfMemory>
        ensures { OnOk result (self.new ≡ room most self.old size) }
    {
        if self.is_full(most, size) {
            return self.close(alloc);
        }
        Ok(())
    }

    // Adds the record of a xorb.
    fn add_xorb(&mut self, alloc: Global, most: u64, xorb: MDBXorbInfo) -> Result<(), OutOfMemory>
        ensures { OnOk result (self.new ≡ xorb_filled most self.old xorb) }
    {
        let size = xorb.num_bytes_of_record();
        self.make_room(alloc, most, size)?;
        self.size = self.size.saturating_add(size);
        self.next.xorbs.push(xorb)?;
        Ok(())
    }

    // Adds the record of a file.
    fn add_file(&mut self, alloc: Global, most: u64, file: MDBFileInfo) -> Result<(), OutOfMemory>
        ensures { OnOk result (self.new ≡ file_filled most self.old file) }
    {
        let size = file.num_bytes_of_record();
        self.make_room(alloc, most, size)?;
        self.size = self.size.saturating_add(size);
        self.next.files.push(file)?;
        Ok(())
    }

    // Adds records of xorbs.
    fn add_xorbs(
        &mut self,
        alloc: Global,
        most: u64,
        xorbs: &[MDBXorbInfo],
    ) -> Result<(), OutOfMemory>
        ensures { OnOk result (self.new ≡ xorbs_filled most self.old xorbs.now) }
    {
        for xorb in xorbs {
            self.add_xorb(alloc, most, xorb.copied(alloc)?)?;
        }
        Ok(())
    }

    // Adds records of files.
    fn add_files(
        &mut self,
        alloc: Global,
        most: u64,
        files: &[MDBFileInfo],
    ) -> Result<(), OutOfMemory>
        ensures { OnOk result (self.new ≡ files_filled most self.old files.now) }
    {
        for file in files {
            self.add_file(alloc, most, file.copied(alloc)?)?;
        }
        Ok(())
    }

    // The shards, the next one among them where it has records.
    fn into_shards(self) -> Result<List<ShardRecord>, OutOfMemory>
        ensures { IfOk result (λ shards. shards ≡ all_filled self) }
    {
        let mut shards = self.done;
        if self.next.xorbs.len() > 0 || self.next.files.len() > 0 {
            shards.push(self.next)?;
        }
        Ok(shards)
    }
}

// No records.
fn no_records(alloc: Global) -> ShardRecord
    ensures { result ≡ record { xorbs = []; files = [] } }
{
    ShardRecord {
        xorbs: List::new(alloc),
        files: List::new(alloc),
    }
}

/// The records in shards, in order. Each shard has as many as count for `most` bytes at most, but one at least.
///
/// `OutOfMemory` where an allocation was refused.
pub fn split(
    alloc: Global,
    records: &ShardRecord,
    most: u64,
) -> Result<List<ShardRecord>, OutOfMemory>
    ensures { IfOk result (λ shards. shards ≡ shards_in most records.now) }
{
    let mut filler = ShardFiller::new(alloc);
    filler.add_xorbs(alloc, most, records.xorbs.as_slice())?;
    filler.add_files(alloc, most, records.files.as_slice())?;
    filler.into_shards()
}
