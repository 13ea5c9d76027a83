//! Marks of blocks, found by their numbers.
ghost use Rattle.std.specs.Prelude.{◌≡◌, ℕ, ◌<◌, ◌==◌, OnErr, OnOk, cond, length, slice_index_or};
ghost use Rattle.xet_events.specs.BlockTables.{Ends, Keeps, Marks, SameMarks, blank, mark_at, row_at, rows_of};

use std::alloc::{AllocError, Global};

/// A block of a plan, by their numbers.
#[derive(Clone, Copy)]
pub struct BlockId {
    /// The plan's number.
    pub plan: u64,
    /// The block's number in its plan, from 0.
    pub block: usize,
}

/// What is noted of a block.
#[derive(Clone, Copy)]
pub struct BlockMark {
    /// Where its last nonempty admitted term ends among the admitted bytes.
    pub end: Option<u64>,
    /// Whether it was fetched or came from the cache.
    pub kept: bool,
}

/// Marks of blocks by their numbers: a row for each plan up to the last one of which something is noted, and in it a
/// mark for each block up to the last one of which something is. A block is found in constant time. The table takes
/// memory in proportion to the greatest numbers, so it is for plans and blocks that are numbered from 0 or 1 on.
#[derive(Drop)]
pub struct BlockTable {
    alloc: Global,
    rows: Vec<Vec<BlockMark>>,
}

impl BlockTable {
    /// A table in which nothing is noted. It takes no memory.
    pub fn new(alloc: Global) -> BlockTable
        ensures { (p b : ℕ) → mark_at (rows_of result.rows) p b ≡ blank }
    {
        BlockTable {
            alloc,
            rows: Vec::new(alloc),
        }
    }

    /// What is noted of a block.
    pub fn mark(&self, id: BlockId) -> BlockMark
        ensures { result ≡ mark_at (rows_of self.now.rows) id.plan id.block }
    {
        let plan = id.plan as usize;
        if plan >= self.rows.len() {
            return blank();
        }
        mark_in(self.rows[plan].as_slice(), id.block)
    }

    /// Notes that a block is kept. An error where an allocation was refused, and then the table says what it said.
    pub fn keep(&mut self, id: BlockId) -> Result<(), AllocError>
        ensures ok { OnOk result (Keeps self.old self.new id) }
        ensures err { OnErr result (SameMarks self.old self.new) }
    {
        let end = self.mark(id).end;
        self.note(id, BlockMark { end, kept: true })
    }

    /// Notes where the last nonempty admitted term of a block ends. An error where an allocation was refused, and then
    /// the table says what it said.
    pub fn put_end(&mut self, id: BlockId, end: u64) -> Result<(), AllocError>
        ensures ok { OnOk result (Ends self.old self.new id end) }
        ensures err { OnErr result (SameMarks self.old self.new) }
    {
        let kept = self.mark(id).kept;
        let end = Some(end);
        self.note(id, BlockMark { end, kept })
    }

    /// Notes this of a block, in constant time, amortized over the plans and blocks up to it.
    fn note(&mut self, id: BlockId, mark: BlockMark) -> Result<(), AllocError>
        ensures ok { OnOk result (Marks self.old self.new id mark) }
        ensures err { OnErr result (SameMarks self.old self.new) }
    {
        let plan = id.plan as usize;
        reach_row(self.alloc, &mut self.rows, plan)?;
        write(&mut self.rows[plan], id.block, mark)
    }
}

/// What is known of a block of which nothing was noted.
fn blank() -> BlockMark
    ensures { result ≡ blank }
{
    BlockMark {
        end: None,
        kept: false,
    }
}

/// What a row has at a place; a blank past its end.
fn mark_in(row: &[BlockMark], at: usize) -> BlockMark
    ensures { result ≡ slice_index_or row.now at blank }
{
    if at >= row.len() {
        return blank();
    }
    row[at]
}

/// Makes a table so long that it has a row for a plan.
fn reach_row(alloc: Global, rows: &mut Vec<Vec<BlockMark>>, plan: usize) -> Result<(), AllocError>
    ensures same { (p : ℕ) → row_at (rows_of rows.new) p ≡ row_at (rows_of rows.old) p }
    ensures long { OnOk result (plan < length rows.new.items) }
{
    while rows.len() <= plan {
        if rows.push(Vec::new(alloc)).is_err() {
            return Err(AllocError);
        }
    }
    Ok(())
}

/// Makes a row so long that it has a place.
fn reach(row: &mut Vec<BlockMark>, at: usize) -> Result<(), AllocError>
    ensures same { (k : ℕ) → slice_index_or row.new.items k blank ≡ slice_index_or row.old.items k blank }
    ensures long { OnOk result (at < length row.new.items) }
{
    while row.len() <= at {
        if row.push(blank()).is_err() {
            return Err(AllocError);
        }
    }
    Ok(())
}

/// Writes a mark into a row.
fn write(row: &mut Vec<BlockMark>, at: usize, mark: BlockMark) -> Result<(), AllocError>
    ensures ok { OnOk result ((k : ℕ) → slice_index_or row.new.items k blank
        ≡ cond (at == k) mark (slice_index_or row.old.items k blank)) }
    ensures err { OnErr result ((k : ℕ) → slice_index_or row.new.items k blank
        ≡ slice_index_or row.old.items k blank) }
{
    reach(row, at)?;
    row[at] = mark;
    Ok(())
}
