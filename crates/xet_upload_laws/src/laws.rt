//! Laws of a session's records and of the store after its log, as functions whose contracts state them.
ghost use Rattle.xet_upload_laws.specs.Downloads.{DownloadsAfterFiles, DownloadsAfterFinalize, DownloadsAfterReport};
ghost use Rattle.xet_upload_laws.specs.Laws.{AskStands, CountsStand, CutStands, FeedStands, FileStands};
ghost use Rattle.xet_upload_laws.specs.Laws.{FinalizeStands, FinalizeWithFilesStands, FinalizeWithReportStands};
ghost use Rattle.xet_upload_laws.specs.Laws.{FinishStands, LearningStands, NewStands, RegisterStands, SearchStands};
ghost use Rattle.xet_upload_laws.specs.Laws.{UploadStands};
ghost use Rattle.xet_upload_laws.specs.StoreAfter.{StoreAfterShards, StoreAfterXorbs};

/// A session that isn't a dry run, over an uploader and record stores that tell what they hold, and over a valid store:
/// each file that was finished before an end that answers Ok, by any of the three calls, downloads to its bytes. The
/// store after the uploader's log is there and valid, and has the file under its hash, whose bytes it gives in each
/// range.
///
/// It asks that equal hashes mean equal contents, of the xorbs and files of the store and of the session
/// (`HasNoClash`), and that all records of the session stand, which a new one has and each call keeps, as the law
/// `records_stand_after_calls` says under the same premise.
pub fn accepted_files_download()
    ensures finalize { DownloadsAfterFinalize }
    ensures files { DownloadsAfterFiles }
    ensures report { DownloadsAfterReport }
{}

/// All records of a session stand for their files' bytes (`AllStand`): of a new one, and after each call that answers
/// Ok or fails. A given xorb has to be one that a store takes, and data of files that are given have to stand for their
/// bytes. What cleaners are fed needs neither. Calls that put ask that equal hashes mean equal contents, of the xorbs
/// and of the bytes that are cut in the call (`HasNoClash`).
pub fn records_stand_after_calls()
    ensures new { NewStands }
    ensures register { RegisterStands }
    ensures search { SearchStands }
    ensures counts { CountsStand }
    ensures learning { LearningStands }
    ensures ask { AskStands }
    ensures cut { CutStands }
    ensures file { FileStands }
    ensures feed { FeedStands }
    ensures finish { FinishStands }
    ensures upload { UploadStands }
    ensures end { FinalizeStands }
    ensures end_files { FinalizeWithFilesStands }
    ensures end_report { FinalizeWithReportStands }
{}

/// The store after a log stays there and valid where xorbs of nonempty chunks within the limits are put, and where
/// shards are put whose file records stand for their bytes.
pub fn stores_after_logs()
    ensures xorbs { StoreAfterXorbs }
    ensures shards { StoreAfterShards }
{}
