//! Watches connections while hosts are asked.
ghost use Rattle.std.specs.Prelude.{◌<◌, ◌^◌, length};

use std::time::Duration;
use zoom_pool::Meta;

/// Watches connections while hosts are asked, for example to report progress. It changes nothing of them.
pub trait Watch {
    /// Looks at the connections, of which there are fewer than 2^32. `ask` calls it before each wait and each look-up
    /// of a name, so it should be cheap. Returns how long to wait at most until the next look, if that matters.
    fn look(&mut self, meta: &Meta) -> Option<Duration>
        requires { length meta.now.pool.connections < 2 ^ 32 };
}

/// Watches nothing.
#[derive(Clone, Copy)]
pub struct Unwatched;

impl Watch for Unwatched {
    fn look(&mut self, _meta: &Meta) -> Option<Duration> {
        None
    }
}
