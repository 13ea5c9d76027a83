//! What is called round each block fetch of a lane.
ghost use Rattle.std.specs.Prelude.{◌≡◌, Bool, true, false};

/// Sees the fetches of a run. Its calls may wait.
///
/// In place of the permits that `xet-data` takes for its downloads.
pub trait Gate {
    /// Whether it lets every fetch pass at once. A gate that says nothing of it doesn't.
    ghost lets_all: { Self → Bool } = { λ _. false };

    /// Called before the fetch of this number, in the lane's thread. Numbers count from 0 over the whole run.
    fn before(&self, number: u64);

    /// Called after the fetch of this number, in the lane's thread.
    fn after(&self, number: u64);

    /// Whether its calls never wait, so that writing may be done before the fetches. A yes comes only from a gate that
    /// lets every fetch pass at once. A gate without a body of its own says no.
    fn is_open(&self) -> bool
        ensures { result ≡ true → lets_all self.now ≡ true }
    {
        false
    }
}

/// Lets every fetch pass.
#[derive(Clone, Copy, PartialEq, Eq)]
pub struct OpenGate;

impl Gate for OpenGate {
    ghost lets_all = { λ _. true };

    fn before(&self, _number: u64) {}

    fn after(&self, _number: u64) {}

    fn is_open(&self) -> bool {
        true
    }
}
