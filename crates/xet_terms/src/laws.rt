//! Laws of managers, over the definitions alone.
ghost use Rattle.xet_terms.specs.Laws.{QueriesReach};

/// Where all queries of a manager are answered up to the known end, they reach the range's end, or an answer was past
/// it.
pub fn queries_reach()
    ensures { QueriesReach }
{}
