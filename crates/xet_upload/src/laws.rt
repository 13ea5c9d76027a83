//! Laws of what terms, parts and records stand for, and of ordered logs, as functions whose contracts state them.
ghost use Rattle.xet_upload.specs.Laws.{BackedWithKnown, BackedWithMore, ChunksAsXorb, ChunksBefore, ChunksBehind};
ghost use Rattle.xet_upload.specs.Laws.{LaterResolves, MoreXorbs, NoParts, OneFoundMore, OneOwnMore, OneTermMore};
ghost use Rattle.xet_upload.specs.Laws.{OrderedWithKnown, OrderedWithShard, OrderedWithXorb, PartsAsXorb};
ghost use Rattle.xet_upload.specs.Laws.{PrefixIsOrdered, PutIsThere, RecordResolves, SameHashSameBytes, ThereWithMore};

/// Terms stand for what they stood for while xorbs are put, while chunks come behind or before those that wait, and
/// where these become a xorb; a term more adds what it stands for.
pub fn terms_go_on_standing()
    ensures xorbs { MoreXorbs }
    ensures behind { ChunksBehind }
    ensures before { ChunksBefore }
    ensures more { OneTermMore }
    ensures put { ChunksAsXorb }
{}

/// The parts of a file stand for one chunk more, whether it waits or was found, and for the same bytes where the chunks
/// of their own become a xorb.
pub fn parts_go_on_standing()
    ensures none { NoParts }
    ensures own { OneOwnMore }
    ensures found { OneFoundMore }
    ensures put { PartsAsXorb }
{}

/// A prefix of an ordered log is ordered, and a log stays ordered where a xorb is put, or a shard whose xorbs are
/// there, and where more is known. What is there or backed stays so too; a xorb that is put is there.
pub fn logs_stay_ordered()
    ensures prefix { PrefixIsOrdered }
    ensures xorb { OrderedWithXorb }
    ensures shard { OrderedWithShard }
    ensures known { OrderedWithKnown }
    ensures there { ThereWithMore }
    ensures put { PutIsThere }
    ensures backed { BackedWithMore }
    ensures backed_known { BackedWithKnown }
{}

/// The first record of a file in a log gives, in the store after the log, the bytes that its terms stand for. Files of
/// one hash have the same bytes where the hashes at hand do not clash, so a later record of the hash gives its own too.
pub fn records_resolve()
    ensures first { RecordResolves }
    ensures same { SameHashSameBytes }
    ensures later { LaterResolves }
{}
