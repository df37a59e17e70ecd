//! Devices: sources that octets are read from and sinks that octets are written to, each with a count of its
//! failures.
ghost use Rattle.std.specs.Prelude.{◌≡◌, ◌<◌, length, IfOk};
ghost use Rattle.std.specs.Io.{ReadsAtMost, WritesAtMost};
ghost use Rattle.zoom_devices.specs.Devices.{DeviceState, AfterRead, AfterWrite};

use thiserror::Error;

/// A call of a device failed.
#[derive(Clone, Copy, Debug, PartialEq, Eq, Error)]
#[error("the device failed")]
pub struct Failed;

/// A device that octets are read from. A read may wait.
pub trait Source {
    /// The octets left, if they are known, and the number of failed calls.
    ghost state: { Self → DeviceState };

    /// Reads octets into the front of `piece`, and returns how many. Returns 0 only if `piece` is empty or no octets
    /// are left.
    fn read(&mut self, piece: &mut [u8]) -> Result<usize, Failed>
        ensures bound { ReadsAtMost result piece.new }
        ensures reads { AfterRead (state self.old) (state self.new) result piece.new };

    /// The number of failed calls, at most `u64::MAX`. It allocates nothing.
    fn failures(&self) -> u64
        ensures { result ≡ (state self.now).failures };
}

/// A device that octets are written to.
pub trait Sink {
    /// The octets written so far, if they are known, and the number of failed calls.
    ghost state: { Self → DeviceState };

    /// Writes a front of `piece`, and returns how many octets. Returns 0 only if `piece` is empty.
    fn write(&mut self, piece: &[u8]) -> Result<usize, Failed>
        ensures bound { WritesAtMost result piece.now }
        ensures some { IfOk result (λ n. 0 < length piece.now → 0 < n) }
        ensures writes { AfterWrite (state self.old) (state self.new) result piece.now };

    /// The number of failed calls, at most `u64::MAX`. It allocates nothing.
    fn failures(&self) -> u64
        ensures { result ≡ (state self.now).failures };
}
