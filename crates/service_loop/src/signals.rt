//! Signals to children that must end.
ghost use Rattle.std.specs.Prelude.{ℕ, List, [], ◌∷◌, Option};
ghost use Rattle.service_loop.specs.Endings.{Sends};

/// A signal that ends a process.
#[derive(Clone, Copy, Debug, PartialEq, Eq)]
pub enum Signal {
    /// Requests the end (SIGTERM).
    Terminate,
    /// Forces the end (SIGKILL).
    Kill,
}

/// Sends signals.
pub trait Signals {
    ghost use Rattle.service_loop.specs.declared.signals.Signal.{Signal};

    /// The signals sent so far, each with its group, or none if they are not reported, or not any more.
    ghost sent: { Self → Option (List (ℕ × Signal)) };

    /// Sends a signal to all processes of a group. Returns whether it was sent.
    fn send(&mut self, group: u32, signal: Signal) -> bool
        ensures { Sends (sent self.old) (sent self.new) ((group, signal) ∷ []) };
}
