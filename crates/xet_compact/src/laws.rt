//! Laws of compacted stores and of documents, as functions whose contracts state them.
ghost use Rattle.xet_compact.specs.Laws.{CompactedAgain, CompactedAlike, CompactedServes, DocumentLists};

/// What a valid store is compacted to is valid and has the same files with the same bytes, each of its chunks is held
/// and each of its xorbs named, and it is a compacted store of itself.
pub fn compacted_stores_serve()
    ensures { CompactedServes }
{}

/// A store is compacted to one store alone. So compacting that one again, where it was made from a valid store, gives
/// it back.
pub fn compacted_stores_are_alike()
    ensures alike { CompactedAlike }
    ensures again { CompactedAgain }
{}

/// The document of a store in order lists that store, and holds no float.
pub fn documents_list()
    ensures { DocumentLists }
{}
