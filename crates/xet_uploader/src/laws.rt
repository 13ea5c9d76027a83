//! What the store after a log finds.
ghost use Rattle.xet_uploader.specs.StoresAfter.{AfterFindsFiles, AfterFindsXorbs};

/// The store after a log finds a xorb or a file that the store had, and else the first that the log has.
pub fn store_after_finds()
    ensures xorbs { AfterFindsXorbs }
    ensures files { AfterFindsFiles }
{}
