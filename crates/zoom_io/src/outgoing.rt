//! Writes the octets that wait on a connection to a device.
ghost use Rattle.std.specs.Prelude.{◌≡◌, ◌<◌, [], length, OnOk};
ghost use Rattle.zoom_pool.specs.Links.{waiting_at, SameElse};
ghost use Rattle.zoom_io.specs.declared.outgoing.PushError.TheVariants as errors;
ghost use Rattle.zoom_devices.specs.Devices.{AfterWriteAll};
ghost use Rattle.zoom_io.specs.Pushing.{AfterPush, IsBroken};

use std::alloc::{AllocError, Global};
use thiserror::Error;
use zoom_devices::{Failed, Sink};
use zoom_pool::{Meta, Reason};

/// Why waiting octets were not all written.
#[derive(Clone, Copy, Debug, PartialEq, Eq, Error)]
pub enum PushError {
    /// The device failed. The connection has failed for `Write`, and how many of the octets were written is not
    /// known.
    #[error("the device failed")]
    Write,
    /// No memory was found. Nothing was written, and the connection is unchanged.
    #[error("out of memory")]
    Memory,
}

impl From<AllocError> for PushError {
    ghost from_gives = { λ _ e. e ≡ errors.Memory };

    fn from(_: AllocError) -> PushError {
        PushError::Memory
    }
}

/// Writes all the octets, in as many calls as the device needs.
pub(crate) fn write_all<W: Sink>(sink: &mut W, octets: &[u8]) -> Result<(), Failed>
    ensures { AfterWriteAll (W.state sink.old) (W.state sink.new) octets.now result }
{
    let mut rest = octets;
    while !rest.is_empty() {
        let count = sink.write(rest)?;
        rest = &rest[count..];
    }
    Ok(())
}

/// Writes the octets that wait on connection `c`, each once. On success none wait any more.
///
/// Refusals: `Write` if the device failed: a front of the octets was written, and the connection has failed for
/// `Write`. `Memory` if no memory is found: nothing was written, and the connection is unchanged.
pub fn push<W: Sink>(alloc: Global, meta: &mut Meta, c: u32, sink: &mut W) -> Result<(), PushError>
    requires { c < length meta.old.pool.connections }
    ensures pushes { AfterPush c result meta.old meta.new (W.state sink.old) (W.state sink.new) }
    ensures none { OnOk result (waiting_at meta.new.pool c ≡ []) }
    ensures stopped { IsBroken c result meta.new }
    ensures rest { SameElse c meta.old.pool meta.new.pool }
{
    let mut octets = Vec::new(alloc);
    meta.outgoing(c, &mut octets)?;
    match write_all(sink, &octets) {
        Ok(()) => Ok(()),
        Err(_) => {
            meta.stop(c, Reason::Write);
            Err(PushError::Write)
        }
    }
}
