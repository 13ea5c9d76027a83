//! Laws of gaps and of their texts, as functions whose contracts state them.
ghost use Rattle.std.specs.Prelude.{◌≡◌, ◌≢◌, Err, IfOk};
ghost use Rattle.xet_gaps.specs.Laws.{LessAreGaps, LessIsExact, PartsAreCounted, PartsAreExact, SameBytesSameGaps};
ghost use Rattle.xet_gaps.specs.Laws.{TextsDiffer};

use crate::gap_record::GapRecord;
use crate::gap_text_error::GapTextError;
use std::alloc::Global;

/// The gaps less a range are gaps and lack exactly its bytes, its parts have these and as many, and gaps are known by
/// their bytes.
pub fn gaps_are_their_bytes()
    ensures exact { LessIsExact }
    ensures gaps { LessAreGaps }
    ensures parts { PartsAreExact }
    ensures counted { PartsAreCounted }
    ensures same { SameBytesSameGaps }
{}

/// Two records with one text are one.
pub fn texts_differ()
    ensures { TextsDiffer }
{}

/// The text of a record is read as that record, and is never refused.
pub fn record_is_read_back(alloc: Global, gaps: &GapRecord) -> Result<GapRecord, GapTextError>
    ensures same { IfOk result (λ back. back ≡ gaps.now) }
    ensures never_refused { result ≢ Err GapTextError.NotGaps }
{
    let text = gaps.to_text(alloc)?;
    GapRecord::from_text(alloc, text.as_str())
}
