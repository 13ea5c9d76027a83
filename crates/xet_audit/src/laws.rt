//! Laws of findings, as functions whose contracts state them.
ghost use Rattle.xet_audit.specs.Laws.{FaultlessIsDocument, FaultlessIsValid, ValidIsFaultless};

/// A store is valid exactly where an audit finds nothing of kinds 1 to 7. So where a value lists such a store it is a
/// document of it, and over connections that tell it each file downloads in any range.
pub fn audits_tell_validity()
    ensures valid { FaultlessIsValid }
    ensures faultless { ValidIsFaultless }
    ensures document { FaultlessIsDocument }
{}
