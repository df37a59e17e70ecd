//! Channels: what carries octets between the two ends of a connection.

use zoom_pool::Reason;

/// Carries octets between connections and their targets, piece by piece. Each piece arrives whole or not at all.
pub trait Channel {
    ghost use Rattle.std.specs.Prelude.{◌≡◌, ⊤, ℕ, List, Bool, true, Option, None};
    ghost use Rattle.zoom_pool.specs.declared.state.Reason.{Reason};

    /// Whether every piece arrives and nothing fails.
    ghost sure: { Bool };

    /// What carrying a piece to the target does to the channel. A channel that says nothing of it need not define it,
    /// nor the next two.
    ghost carries_to: { Self → ℕ → List ℕ → Bool → Self → Type 0 } = { λ _ _ _ _ _. ⊤ };

    /// What carrying a piece to the connection does to the channel.
    ghost carries_from: { Self → ℕ → List ℕ → Bool → Self → Type 0 } = { λ _ _ _ _ _. ⊤ };

    /// Why the channel failed for a connection.
    ghost fails: { Self → ℕ → Option Reason → Type 0 } = { λ _ _ _. ⊤ };

    /// Carries a piece from connection `c` to its target. Returns whether it arrived.
    fn carry_to(&mut self, c: u32, piece: &[u8]) -> bool
        ensures arrives { sure ≡ true → result ≡ true }
        ensures carries { carries_to self.old c piece.now result self.new };

    /// Carries a piece from the target of connection `c` to the connection. Returns whether it arrived.
    fn carry_from(&mut self, c: u32, piece: &[u8]) -> bool
        ensures arrives { sure ≡ true → result ≡ true }
        ensures carries { carries_from self.old c piece.now result self.new };

    /// Returns the reason why nothing more is carried for connection `c`, or `None` if the channel did not fail for it.
    fn failure(&self, c: u32) -> Option<Reason>
        ensures never { sure ≡ true → result ≡ None }
        ensures fails { fails self.now c result };
}

/// The channel within memory: every piece arrives.
#[derive(Clone, Copy)]
pub struct InMemory;

impl Channel for InMemory {
    ghost use Rattle.std.specs.Prelude.{◌≡◌, true, None};

    ghost sure = { true };

    ghost carries_to = { λ _ _ _ came _. came ≡ true };

    ghost carries_from = { λ _ _ _ came _. came ≡ true };

    ghost fails = { λ _ _ failure. failure ≡ None };

    fn carry_to(&mut self, _: u32, _: &[u8]) -> bool {
        true
    }

    fn carry_from(&mut self, _: u32, _: &[u8]) -> bool {
        true
    }

    fn failure(&self, _: u32) -> Option<Reason> {
        None
    }
}
