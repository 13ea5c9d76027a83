//! Laws of mirrored files, as functions whose contracts state them.
ghost use Rattle.xet_mirror.specs.Laws.{MirroredAgrees, MirroredGives, NoneBad, NoneMissing, StoppedAgrees};

/// A mirrored file gives the same bytes in every range. Where both stores are valid and agree, so they do afterwards,
/// wherever the call stopped. Over a valid store no xorb is missing and no term bad.
pub fn mirrored_files_give()
    ensures gives { MirroredGives }
    ensures agrees { MirroredAgrees }
    ensures stopped { StoppedAgrees }
    ensures missing { NoneMissing }
    ensures bad { NoneBad }
{}
