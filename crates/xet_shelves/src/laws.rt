//! Laws of the store after a log, as a function whose contract states them.
ghost use Rattle.xet_shelves.specs.Laws.{AfterGives, AfterHasFiles, AfterHasXorbs, AfterMore, LooksTell};

/// The store after a log has what the store had and else the first that the log has, and a look tells it. Two logs make
/// the store that the second makes of the first one's, and where a store takes a log in its order it is that store.
pub fn stores_after_logs()
    ensures xorbs { AfterHasXorbs }
    ensures files { AfterHasFiles }
    ensures looks { LooksTell }
    ensures more { AfterMore }
    ensures gives { AfterGives }
{}
