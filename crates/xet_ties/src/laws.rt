//! Laws of ties and of runs, as functions whose contracts state them.
ghost use Rattle.xet_ties.specs.Laws.{AdmitsTied, AnswersStep, AsksTied, CachedFall, CancelsTied, ExpiriesCounted};
ghost use Rattle.xet_ties.specs.Laws.{ExpiriesFall, FailuresAreCauses, FetchesFall, FilesAreMissing, FilesMissing};
ghost use Rattle.xet_ties.specs.Laws.{FinishedIsExact, FinishedIsWhole, FinishedServesChunks, LanesGoOn, LooksTied};
ghost use Rattle.xet_ties.specs.Laws.{MissingExpired, MissingFetched, NoneRises, OffersTied, PairsAreNew, PlansFail};
ghost use Rattle.xet_ties.specs.Laws.{PollsTied, RefreshesTied, RoundsAllowed, RoundsMayExpire, RoundsTied};
ghost use Rattle.xet_ties.specs.Laws.{RunsAreLegal, ShortLooksTied, ShortRoundsTied, ShortWritesTied, StartsTied};
ghost use Rattle.xet_ties.specs.Laws.{StepsFail, StepsServe, StopsTied, TakesTied, TiesAskCut, TiesServeOnce};
ghost use Rattle.xet_ties.specs.Laws.{TiesServePlanned, TiesTakeTested, TriesLeft, WritesTied, AsksLeft, AsksSaid};
ghost use Rattle.xet_ties.specs.Laws.{RefreshesLeft, RefreshesSaid, WantedAre, WindowsAllowed, WindowsTested};
ghost use Rattle.xet_ties.specs.Laws.{RefreshesFew};

/// Before a run all is tied; after an error that is recorded, or want of memory, it stays so.
pub fn starts_and_stops()
    ensures start { StartsTied }
    ensures stop { StopsTied }
{}

/// A run whose history is allowed and that is tied gives a legal answer, in all its parts.
pub fn runs_are_legal()
    ensures { RunsAreLegal }
{}

/// However a tied run ended, and whatever its connections tell or don't: no block of a plan was served twice, each is
/// one of a plan that was said and passes its tests, the queries are short and but for refreshes cut the range, and
/// the writer took tested bytes alone.
pub fn ties_are_told()
    ensures once { TiesServeOnce }
    ensures planned { TiesServePlanned }
    ensures cut { TiesAskCut }
    ensures tested { TiesTakeTested }
{}

/// A tied run that is finished took exactly the window over one valid store and a cache that tells it, and over any
/// connections the tested pieces of all planned terms. Where the cache had no entries before, each chunk with a byte
/// in the window lies in a served block.
pub fn finished_is_exact()
    ensures exact { FinishedIsExact }
    ensures whole { FinishedIsWhole }
    ensures chunks { FinishedServesChunks }
{}

/// Where one block has as many Expired events as tries, all connections together answered so many requests for that
/// block as expired, and gave so many expired answers at least.
/// An allowed history has no more Refreshed events than Expired ones.
pub fn expiries_are_counted()
    ensures expired { ExpiriesCounted }
    ensures refreshed { RefreshesFew }
{}

/// The answer to a fetch's own request makes a step, and a lane goes on with it; its data is of that answer.
pub fn lanes_go_on()
    ensures step { AnswersStep }
    ensures more { LanesGoOn }
    ensures serve { StepsServe }
{}

/// After a round of fetches of fresh blocks that weren't served, what the lanes did is recorded, and it is tied.
pub fn rounds_are_tied()
    ensures new { PairsAreNew }
    ensures allowed { RoundsAllowed }
    ensures tries { RoundsMayExpire }
    ensures round { RoundsTied }
    ensures short { ShortRoundsTied }
{}

/// What the lanes of a round did may be recorded: missing blocks of which no two are one, in any order.
pub fn missing_blocks_may_be_recorded()
    ensures fetched { MissingFetched }
    ensures expired { MissingExpired }
    ensures tries { TriesLeft }
{}

/// A fetch that was served, a block that the cache gave and an expired answer leave fewer tries of the wanted blocks;
/// no event leaves more.
pub fn tries_fall()
    ensures fetched { FetchesFall }
    ensures cached { CachedFall }
    ensures expired { ExpiriesFall }
    ensures none { NoneRises }
{}

/// After the signal was asked it is tied.
pub fn polls_are_tied()
    ensures calm { PollsTied }
    ensures stop { CancelsTied }
{}

/// After the first connection was asked for a plan, or for a plan's URLs again, and that is recorded, it is tied.
pub fn queries_are_tied()
    ensures plan { AsksTied }
    ensures refresh { RefreshesTied }
{}

/// Where a query failed, or its answer isn't recorded: it is tied with the query left, and where the query was answered
/// the answer is its own.
pub fn failed_queries_are_tied()
    ensures plan { AsksLeft }
    ensures refresh { RefreshesLeft }
    ensures plan_said { AsksSaid }
    ensures refresh_said { RefreshesSaid }
{}

/// After the cache was asked for a block, or offered one whose data was served, it is tied.
pub fn looks_are_tied()
    ensures look { LooksTied }
    ensures short { ShortLooksTied }
    ensures offer { OffersTied }
{}

/// After a limit was asked for, bytes were taken and terms recorded as written, it is tied.
pub fn writes_are_tied()
    ensures admit { AdmitsTied }
    ensures take { TakesTied }
    ensures write { WritesTied }
    ensures short { ShortWritesTied }
{}

/// The terms after the wholly written ones: which blocks they want, that a window of them may be recorded, and that
/// its bytes are tested.
pub fn windows_may_be_recorded()
    ensures wanted { WantedAre }
    ensures allowed { WindowsAllowed }
    ensures tested { WindowsTested }
{}

/// What was said gives the causes of errors.
pub fn answers_are_causes()
    ensures plan { PlansFail }
    ensures file { FilesMissing }
    ensures missing { FilesAreMissing }
    ensures failed { FailuresAreCauses }
    ensures block { StepsFail }
{}
