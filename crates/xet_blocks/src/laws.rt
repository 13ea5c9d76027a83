//! Laws of plans and their terms, and the definitions at work on worked plans.
ghost use Rattle.std.specs.Prelude.{◌≡◌, [], ◌∷◌, false, map, None, Some, true};
ghost use Rattle.xet_base.specs.Worked.{cut, file_of_repeats, file_of_two_ends, worked};
ghost use Rattle.xet_outside.specs.Plan.{plan_of};
ghost use Rattle.xet_outside.specs.Worked.{chunk_range};
ghost use Rattle.xet_error.specs.declared.error.Corruption.TheVariants.{Offset, Trim};
ghost use Rattle.xet_offers.specs.Blocks.{block_ranges, blocks_of, transfer_sum};
ghost use Rattle.xet_offers.specs.Chain.{chain_sum};
ghost use Rattle.xet_blocks.specs.Laws.{BlocksEqual, ChainsExist, ChainsSum, HonestAccepted, KnownSizes, PiecesJoin};
ghost use Rattle.xet_blocks.specs.Laws.{PiecesSized, ServedChunks, TrimsLastAlone, UrlOfFirst};
ghost use Rattle.xet_blocks.specs.TermBlocks.{by_start, xorb_blocks};
ghost use Rattle.xet_blocks.specs.Terms.{terms_of};
ghost use Rattle.xet_offers.specs.PlanChecks.{failed_test};
ghost use Rattle.xet_blocks.specs.Worked.{blocks_of_nine_bytes, file_term, plan_of_lengths, reference};
ghost use Rattle.xet_blocks.specs.Worked.{two_entries_of_one_xorb};

/// Nine bytes over three terms of one xorb, which share two blocks.
pub fn nine_bytes()
    ensures terms { terms_of (plan_of worked file_of_repeats (cut 4 13)) (cut 4 13) false
        ≡ file_term 4 6 2 4 0 4 0 ∷ file_term 6 11 0 1 0 0 1 ∷ file_term 11 13 0 1 0 0 1 ∷ [] }
    ensures blocks { xorb_blocks (plan_of worked file_of_repeats (cut 4 13)) false ≡ blocks_of_nine_bytes }
    ensures transfer { transfer_sum (blocks_of (plan_of worked file_of_repeats (cut 4 13)) false) ≡ 11 }
    ensures accepted { failed_test (plan_of worked file_of_repeats (cut 4 13)) (cut 4 13) false ≡ None }
{}

/// Two terms of one xorb in the first entry that has each: the second starts at index 1 of block 1.
pub fn two_entries()
    ensures terms { terms_of two_entries_of_one_xorb (cut 0 1000) false
        ≡ file_term 0 300 0 3 0 0 0 ∷ file_term 300 700 1 5 1 0 1 ∷ [] }
    ensures blocks { map block_ranges (blocks_of two_entries_of_one_xorb false)
        ≡ (chunk_range 0 3 ∷ []) ∷ (chunk_range 0 5 ∷ []) ∷ [] }
{}

/// Both ends of a xorb, as one block of two ranges.
pub fn two_ends()
    ensures { map block_ranges (blocks_of (plan_of worked file_of_two_ends (cut 0 6)) true)
        ≡ (chunk_range 0 1 ∷ chunk_range 3 4 ∷ []) ∷ [] }
{}

/// Sizes that the terms of a block tell.
pub fn known_sizes()
    ensures overlapping { chain_sum (chunk_range 0 5 ∷ [])
        (reference 0 3 600 ∷ reference 1 4 700 ∷ reference 3 5 400 ∷ []) ≡ Some 1000 }
    ensures half { chain_sum (chunk_range 0 3 ∷ chunk_range 5 8 ∷ []) (reference 0 3 300 ∷ []) ≡ None }
    ensures bridged { chain_sum (chunk_range 0 3 ∷ chunk_range 5 8 ∷ [])
        (reference 0 3 300 ∷ reference 5 8 400 ∷ []) ≡ Some 700 }
{}

/// References stand by their starts, and those of one start in the order of the terms.
pub fn sorted_references()
    ensures { by_start (reference 3 5 9 ∷ reference 0 2 7 ∷ reference 3 4 5 ∷ reference 0 3 8 ∷ [])
        ≡ reference 0 2 7 ∷ reference 0 3 8 ∷ reference 3 5 9 ∷ reference 3 4 5 ∷ [] }
{}

/// Offsets and trims up to a term's length are accepted, greater ones are not.
pub fn offsets_and_trims()
    ensures empty_term { terms_of (plan_of_lengths 6 (6 ∷ [])) (cut 0 9) false ≡ file_term 0 0 0 1 0 6 0 ∷ [] }
    ensures whole_offset { failed_test (plan_of_lengths 6 (6 ∷ [])) (cut 0 9) false ≡ None }
    ensures offset { failed_test (plan_of_lengths 7 (6 ∷ [])) (cut 0 9) false ≡ Some (Offset 7 6) }
    ensures trimmed { terms_of (plan_of_lengths 2 (6 ∷ 10 ∷ [])) (cut 10 20) false
        ≡ file_term 10 14 0 1 0 2 0 ∷ file_term 14 20 1 2 1 0 0 ∷ [] }
    ensures trim { failed_test (plan_of_lengths 2 (6 ∷ 10 ∷ 3 ∷ [])) (cut 10 20) false ≡ Some (Trim 7 3) }
{}

/// The pieces of an honest plan's terms, each cut from its block, join to the window.
#[tactic(auto, using(crate::proofs::JoinedPieces::pieces_join))]
pub fn pieces_join()
    ensures { PiecesJoin }
{}

/// Each of these pieces is as long as its term.
pub fn pieces_sized()
    ensures { PiecesSized }
{}

/// An honest plan is accepted.
#[tactic(auto, using(crate::proofs::HonestPlanTests::honest_accepted))]
pub fn honest_accepted()
    ensures { HonestAccepted }
{}

/// Over one length for each chunk, the size that a chain of terms tells is the block's length.
#[tactic(auto, using(crate::proofs::ChainSums::chains_sum))]
pub fn chains_sum()
    ensures { ChainsSum }
{}

/// On an accepted plan, to cut every term at the query's end is to cut the last one alone.
#[tactic(auto, using(crate::proofs::TrimmedTerms::trims_last_alone))]
pub fn trims_last_alone()
    ensures { TrimsLastAlone }
{}

/// A block of an accepted plan takes its URL from the first entry in which its first term lies.
pub fn url_of_first()
    ensures { UrlOfFirst }
{}

/// Terms tell the size of a block exactly where some of them lead from its first chunk to its end.
#[tactic(auto, using(crate::proofs::ChainsExist::chains_exist))]
pub fn chains_exist()
    ensures { ChainsExist }
{}

/// Over a valid store the size that an honest plan's terms tell of a block is how many bytes it has.
pub fn told_sizes()
    ensures { KnownSizes }
{}

/// Equality of blocks is an equivalence.
pub fn blocks_equal()
    ensures { BlocksEqual }
{}

/// Where each block of a valid store's plan was served, so was each chunk of the file that has a byte in the range.
pub fn served_chunks()
    ensures { ServedChunks }
{}
