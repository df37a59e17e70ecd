//! Sockets that become ready, and a clock, as a wake needs them.
ghost use Rattle.std.specs.Prelude.{◌≡◌, IfOk};

use crate::sockets::Happening;
use std::alloc::AllocError;
use std::time::Duration;
use zoom_trace::Notice;

/// The sockets of connections, of which each becomes ready, and a clock.
pub(crate) trait Ready {
    ghost use Rattle.std.specs.Prelude.{ℕ, Bool, Option};
    ghost use Rattle.zoom_tcp.specs.declared.sockets.Happening.{Happening};

    /// The clock was read in this state, and told this time.
    ghost IsTime: { Self → ℕ → Type 0 };

    /// From the first state, a poll that does not wait left the second. It gave its most, or fewer.
    ghost IsPolled: { Self → Bool → Self → Type 0 };

    /// So many polls have room for all open sockets.
    ghost polls: { Self → ℕ };

    /// How many sockets are to be served.
    ghost queue: { Self → ℕ };

    /// From the first state, the socket that was to be served first was served, and left the second. This happened on
    /// its connection, if anything did.
    ghost IsServed: { Self → Option (ℕ × Happening) → Self → Type 0 };

    /// Waits until sockets are ready, or the time is up, and notes which are to be served. A signal ends it early.
    fn wait(&mut self, most: Option<Duration>) -> Result<(), AllocError>;

    /// The time since asking began, in nanoseconds.
    fn time(&self) -> u64
        ensures { IsTime self.now result };

    /// How many polls have room for all open sockets.
    fn most_polls(&self) -> usize
        ensures { result ≡ polls self.now };

    /// Polls without waiting, and notes which sockets are to be served. Returns whether the poll gave its most, so that
    /// others may be ready.
    fn poll(&mut self) -> Result<bool, AllocError>
        ensures { IfOk result (λ more. IsPolled self.old more self.new) };

    /// How many sockets are to be served.
    fn queued(&self) -> usize
        ensures { result ≡ queue self.now };

    /// Serves the socket that is to be served first, once. Returns its connection and what happened on it, if anything
    /// did.
    fn serve(&mut self) -> Result<Option<(u32, Happening)>, AllocError>
        ensures { IfOk result (λ happened. IsServed self.old happened self.new) };

    /// The first `count` octets that were read last.
    fn piece(&self, count: usize) -> &[u8];

    /// What was noticed of a connection's host.
    fn notice(&self, c: u32) -> Notice;
}
