//! Laws of what sessions and cleaners stand for, as functions whose contracts state them.
ghost use Rattle.xet_clean.specs.Laws.{AcceptedReads, CallsKeepSteady, CountsKeepRecords};
ghost use Rattle.xet_clean.specs.Laws.{CutKeepsRecords, FileKeepsRecords, FinalizeAccepts, FinalizeWithFilesAccepts};
ghost use Rattle.xet_clean.specs.Laws.{FinalizeWithReportAccepts, KeepsCleaners, LearningKeepsCleaners};
ghost use Rattle.xet_clean.specs.Laws.{LearningKeepsRecords, LearningKeepsSteady, LeavesRecords, RegisterKeepsRecords};
ghost use Rattle.xet_clean.specs.Laws.{SearchKeepsRecords};
ghost use Rattle.xet_clean_parts.specs.Places.{FixedCutsFile};

/// Each call of a session keeps what its records and its cleaners stand for, at each exit at which the session keeps
/// no failed put: a given xorb, a search, a cut, the data of another file, counts that are added, and queries of the
/// uploader.
pub fn records_go_on_standing()
    ensures leaves { LeavesRecords }
    ensures register { RegisterKeepsRecords }
    ensures search { SearchKeepsRecords }
    ensures cut { CutKeepsRecords }
    ensures file { FileKeepsRecords }
    ensures counts { CountsKeepRecords }
    ensures learning { LearningKeepsRecords }
    ensures cleaners { KeepsCleaners }
    ensures cleaners_learning { LearningKeepsCleaners }
{}

/// What is asked of a session, where something is said of its records, stays after each call before its end. After
/// queries of the uploader this asks that the records which it answered describe xorbs that are there.
pub fn sessions_stay_steady()
    ensures calls { CallsKeepSteady }
    ensures learning { LearningKeepsSteady }
{}

/// After an end that answered Ok, by each of the calls that make one, each record of a cleaned file is in an accepted
/// shard. So a store with the accepted xorbs and records gives the file's bytes in each range.
pub fn records_are_accepted()
    ensures accepts { FinalizeAccepts }
    ensures accepts_files { FinalizeWithFilesAccepts }
    ensures accepts_report { FinalizeWithReportAccepts }
    ensures reads { AcceptedReads }
{}

/// A cutter of one size cuts a file into chunks of that size, of which the last may be shorter, in whatever pieces its
/// bytes are fed.
pub fn fixed_cutters_cut_alike()
    ensures { FixedCutsFile }
{}
