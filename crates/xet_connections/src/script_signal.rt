//! A signal by a script.
ghost use Rattle.std.specs.Prelude.{◌≡◌, Some, cond, false, unwrap_or, slice_get};
ghost use Rattle.xet_outside.specs.Told.{AskCall};
ghost use Rattle.xet_connections.specs.Scripts.{one_more};

use xet_outside::CancelSignal;

/// A fake: a signal that answers by a list, and then no.
#[derive(Drop)]
pub struct ScriptSignal {
    answers: Vec<bool>,
    asks: u64,
    yes: u64,
}

impl ScriptSignal {
    /// A signal with these answers, in order, which was not asked yet. It takes no memory.
    pub fn new(answers: Vec<bool>) -> ScriptSignal
        ensures told { ⟦<ScriptSignal as CancelSignal>⟧.told result ≡ record { asks = Some 0; yes = 0 } }
        ensures answers { result.answers.items ≡ answers.items }
    {
        ScriptSignal {
            answers,
            asks: 0,
            yes: 0,
        }
    }
}

impl CancelSignal for ScriptSignal {
    ghost told = { λ s. record { asks = Some s.asks; yes = s.yes } };

    /// The answer that stands in the list at the number of earlier asks, and no after the last. The list stays, and
    /// each yes is counted once.
    fn asked(&mut self) -> bool
        ensures call { AskCall (⟦<ScriptSignal as CancelSignal>⟧.told self.old)
            (⟦<ScriptSignal as CancelSignal>⟧.told self.new) result }
        ensures answer { result ≡ unwrap_or (slice_get self.old.answers.items self.old.asks) false }
        ensures yes { self.new.yes ≡ cond result (one_more self.old.yes) self.old.yes }
        ensures same { self.new.answers ≡ self.old.answers }
    {
        let answer = answer_at(self.answers.as_slice(), self.asks);
        self.asks = self.asks.saturating_add(1);
        if answer {
            self.yes = self.yes.saturating_add(1);
        }
        answer
    }
}

// The answer with this number, and no after the last.
fn answer_at(answers: &[bool], number: u64) -> bool
    ensures { result ≡ unwrap_or (slice_get answers.now number) false }
{
    answers.get(number as usize).copied().unwrap_or(false)
}
