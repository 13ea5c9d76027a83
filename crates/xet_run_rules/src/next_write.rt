//! Whether bytes may be written next.
ghost use Rattle.std.specs.Prelude.{◌≡◌, ◌≤◌, List, false, true};
ghost use Rattle.xet_events.specs.declared.event.Event.{Event};
ghost use Rattle.xet_events.specs.Allowed.{IsRunning, MayWrite};
ghost use Rattle.xet_events.specs.Indexes.{IsIndexed};

use xet_events::Index;

/// Whether so many bytes of the oldest unfinished term may be written after a history, by what its index tells.
pub fn may_write(index: &Index, taken: u64) -> bool
    ensures yes { (es : List Event) → IsIndexed es index.now → result ≡ true
        → IsRunning es × (1 ≤ taken) × MayWrite es taken }
    ensures no { (es : List Event) → IsIndexed es index.now → result ≡ false
        → IsRunning es → 1 ≤ taken → MayWrite es taken → ⊥ }
{
    if index.first_error.is_some() || taken == 0 {
        return false;
    }
    let Some(oldest) = index.oldest() else {
        return false;
    };
    if !index.is_kept(oldest.id) {
        return false;
    }
    taken <= oldest.end.saturating_sub(index.written)
}
