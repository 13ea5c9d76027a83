//! A signal by a number.
use crate::row::Row;
use xet_outside::CancelSignal;

/// A signal that says yes at one ask.
#[derive(Clone, Copy)]
pub(crate) struct Signal {
    yes: u64,
    asks: u64,
}

impl Signal {
    /// The signal of a row.
    pub(crate) fn new(row: Row<'_>) -> Signal {
        Signal {
            yes: row.number("yes", u64::MAX),
            asks: 0,
        }
    }
}

impl CancelSignal for Signal {
    ghost use Rattle.std.specs.Prelude.{◌-◌, ◌^◌, None};

    // Nothing is told, and the count stands at its last value.
    ghost told = { λ _. record { asks = None; yes = 2 ^ 64 - 1 } };

    fn asked(&mut self) -> bool {
        let yes = self.asks == self.yes;
        self.asks = self.asks.saturating_add(1);
        yes
    }
}
