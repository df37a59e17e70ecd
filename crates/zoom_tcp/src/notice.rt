//! What failed calls of the system tell of a host.
use std::io;
use std::io::ErrorKind;
use zoom_trace::Notice;

/// What an attempt to connect tells by its failure.
pub(crate) fn of_attempt(error: &io::Error) -> Notice {
    match error.kind() {
        ErrorKind::ConnectionRefused => Notice::Refused,
        ErrorKind::TimedOut => Notice::Nothing,
        _ => Notice::NoRoute,
    }
}

/// What a look-up tells by its failure.
pub(crate) fn of_name(error: &io::Error) -> Notice {
    match error.kind() {
        ErrorKind::InvalidInput => Notice::NoPort,
        _ => Notice::NoName,
    }
}
