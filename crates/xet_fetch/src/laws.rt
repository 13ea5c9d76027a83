//! Laws of refreshes and cached entries, over the definitions alone.
ghost use Rattle.xet_fetch.specs.Laws.{CachedTermsPass, EntriesReturn, FetchableBlocks, HonestEntriesPass};
ghost use Rattle.xet_fetch.specs.Laws.{HonestTables, RefreshesAnswered};

/// A term of an accepted plan passes its test in any entry that passes the tests of its block.
pub fn cached_terms_pass()
    ensures { CachedTermsPass }
{}

/// An honest entry of a block of an honest plan passes the block's tests.
pub fn honest_entries_pass()
    ensures { HonestEntriesPass }
{}

/// An honest block's data is its entry again.
pub fn entries_return()
    ensures { EntriesReturn }
{}

/// Over a store the plan of a query is the plan of the bytes that its terms cover: honest answers to a refresh pass its
/// tests, and honest blocks theirs.
pub fn honest_tables()
    ensures { HonestTables }
{}

/// Each plan by which a table was refreshed was said to the query of its refresh.
pub fn refreshes_answered()
    ensures { RefreshesAnswered }
{}

/// Each block of a plan that was accepted can be requested, by the plan's table and by what refreshes leave of it.
pub fn fetchable_blocks()
    ensures { FetchableBlocks }
{}
