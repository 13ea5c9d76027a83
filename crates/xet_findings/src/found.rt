//! Lists of findings.
ghost use Rattle.std.specs.Prelude.{◌≡◌, ◌++◌, ◌∷◌, [], OnOk, cond};

use crate::finding::Finding;
use xet_base::OutOfMemory;

/// Adds a finding where there is one.
pub fn add_if(found: &mut Vec<Finding>, is: bool, finding: Finding) -> Result<(), OutOfMemory>
    ensures { OnOk result (found.new.items ≡ found.old.items ++ cond is (finding ∷ []) []) }
{
    if is {
        found.push(finding)?;
    }
    Ok(())
}
