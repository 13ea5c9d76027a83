//! Signals that ask a run to stop.
ghost use Rattle.std.specs.Prelude.{None};
ghost use Rattle.xet_outside.specs.Told.{AskCall, SignalTold};

/// A signal that may ask a run to stop.
///
/// In the Rust crates: `tokio_util::sync::CancellationToken`.
pub trait CancelSignal {
    /// How often it was asked, where that is told, and how often it said yes.
    ghost told: { Self → SignalTold };

    /// Whether the run is to stop. Yes comes only where the count of such answers rose.
    fn asked(&mut self) -> bool
        ensures { AskCall (told self.old) (told self.new) result };
}

/// A signal that never says yes.
#[derive(Clone, Copy, PartialEq, Eq)]
pub struct NeverCancel;

impl CancelSignal for NeverCancel {
    ghost told = { λ _. record { asks = None; yes = 0 } };

    fn asked(&mut self) -> bool {
        false
    }
}
