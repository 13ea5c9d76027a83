//! Laws of what the contracts of a reconstruction say.
ghost use Rattle.xet_reconstruct.specs.Completeness.{LegalIsComplete};
ghost use Rattle.xet_reconstruct.specs.Laws.{HonestAnswersPass, HonestPiecesJoin};

/// Where nothing that a call is lent fails, a legal answer is Ok, or want of memory, whatever the cache holds: all
/// settings can be met, the connections tell one valid store that has the file or the range is empty, no count of
/// faults and none of a yes rose, none of expired answers stands at its last value, and there came fewer of these than
/// a block has tries.
pub fn calls_are_complete()
    ensures { LegalIsComplete }
{}

/// Where the answers to queries and to the requests for blocks are those of a valid store, none of them fails a test,
/// and the pieces of all terms of a plan join to the window of its query. So the contract of a run tells no test that
/// another block's bytes would fail, and no other block's bytes as a term's.
pub fn honest_answers()
    ensures pass { HonestAnswersPass }
    ensures join { HonestPiecesJoin }
{}
