//! Failures of the system that pass.
use std::io;
use std::io::ErrorKind;

// The numbers of failures on Linux (errno).
const ENOMEM: i32 = 12;

const ENFILE: i32 = 23;

const EMFILE: i32 = 24;

const ENOSPC: i32 = 28;

const ENONET: i32 = 64;

const EPROTO: i32 = 71;

const ENETDOWN: i32 = 100;

const ENETUNREACH: i32 = 101;

const ENOBUFS: i32 = 105;

const EHOSTDOWN: i32 = 112;

const EHOSTUNREACH: i32 = 113;

/// Whether a call failed for want of descriptors or memory of the system, or because it can watch no more.
pub(crate) fn is_for_want(error: &io::Error) -> bool {
    matches!(
        error.raw_os_error(),
        Some(ENFILE | EMFILE | ENOBUFS | ENOMEM | ENOSPC)
    )
}

/// Whether no client could be taken for a reason that passes: the system wants something, or the client was gone before
/// it could be taken, as accept(2) tells of it.
pub(crate) fn is_passing(error: &io::Error) -> bool {
    is_for_want(error)
        || matches!(
            error.kind(),
            ErrorKind::ConnectionAborted | ErrorKind::Interrupted
        )
        || matches!(
            error.raw_os_error(),
            Some(ENONET | EPROTO | ENETDOWN | ENETUNREACH | EHOSTDOWN | EHOSTUNREACH)
        )
}
