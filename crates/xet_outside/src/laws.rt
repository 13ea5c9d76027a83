//! The definitions at work on the worked store.
ghost use Rattle.std.specs.Prelude.{◌≡◌, [], ◌∷◌};
ghost use Rattle.xet_base.specs.Worked.{cut, file_of_all, file_of_repeats, worked, x1};
ghost use Rattle.xet_outside.specs.Laws.{AnswersCome, AnswersJoin, AnswersStay, BlocksAnswerNoQuery, BlocksPair};
ghost use Rattle.xet_outside.specs.Laws.{PairsJoin, PlansPair, QueriesAnswered, QueryAnswersCome, QueryAnswersStay};
ghost use Rattle.xet_outside.specs.Plan.{block_of, plan_of};
ghost use Rattle.xet_outside.specs.Worked.{block_of_hello_world, chunk_range, plan_of_nine_bytes};

/// The plan of nine bytes over three terms of one xorb.
pub fn worked_plan()
    ensures { plan_of worked file_of_repeats (cut 4 13) ≡ plan_of_nine_bytes }
{}

/// The plans of an empty and of a reversed range have no terms.
pub fn worked_plans_of_nothing()
    ensures empty { plan_of worked file_of_all (cut 5 5) ≡ record { offset = 0; terms = []; xorbs = [] } }
    ensures reversed { plan_of worked file_of_all (cut 7 3) ≡ record { offset = 0; terms = []; xorbs = [] } }
{}

/// The block of two ranges of a xorb.
pub fn worked_blocks()
    ensures { block_of worked x1 (chunk_range 0 1 ∷ chunk_range 2 4 ∷ []) ≡ block_of_hello_world }
{}

/// Each call of `block` adds an answer with bytes for each served block that it adds, a call of `plan` adds neither,
/// and calls in a row add one after the other. So the n-th answer with bytes is to the n-th served block, and stays so.
pub fn answers_belong_to_requests()
    ensures block { BlocksPair }
    ensures plan { PlansPair }
    ensures calls { PairsJoin }
    ensures stay { AnswersStay }
    ensures come { AnswersCome }
{}

/// Each call of `plan` that answers adds an answer for its query, a call of `block` adds neither, and calls in a row
/// add one after the other. So the n-th answer to a query is to the n-th query, up to one that was not answered.
pub fn answers_belong_to_queries()
    ensures plan { QueriesAnswered }
    ensures block { BlocksAnswerNoQuery }
    ensures calls { AnswersJoin }
    ensures stay { QueryAnswersStay }
    ensures come { QueryAnswersCome }
{}
