//! Why a line is refused.
ghost use Rattle.std.specs.Prelude.{◌≡◌};
ghost use Rattle.zoom_trace.specs.declared.fault.EntryError.TheVariants as entry_errors;
ghost use Rattle.zoom_trace.specs.declared.fault.TraceError.TheVariants as trace_errors;

use std::alloc::{AllocError, AllocFailed};

/// Why a line of a trace was not read.
#[derive(Clone, Copy, PartialEq, Eq)]
pub enum EntryError {
    /// The line is not the text of an entry.
    Refused,
    /// No memory was found.
    Memory,
}

/// Why a trace was not read, or not fed to an asking.
#[derive(Clone, Copy, PartialEq, Eq)]
pub enum TraceError {
    /// The first line at fault, from 1.
    Refused { line: u64 },
    /// No memory was found.
    Memory,
}

impl From<AllocError> for EntryError {
    ghost from_gives = { λ _ e. e ≡ entry_errors.Memory };

    fn from(_: AllocError) -> EntryError {
        EntryError::Memory
    }
}

impl<T: Drop> From<AllocFailed<T>> for EntryError {
    ghost from_gives = { λ _ e. e ≡ entry_errors.Memory };

    fn from(_: AllocFailed<T>) -> EntryError {
        EntryError::Memory
    }
}

impl From<AllocError> for TraceError {
    ghost from_gives = { λ _ e. e ≡ trace_errors.Memory };

    fn from(_: AllocError) -> TraceError {
        TraceError::Memory
    }
}

impl<T: Drop> From<AllocFailed<T>> for TraceError {
    ghost from_gives = { λ _ e. e ≡ trace_errors.Memory };

    fn from(_: AllocFailed<T>) -> TraceError {
        TraceError::Memory
    }
}
