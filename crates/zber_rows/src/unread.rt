//! The one error of what reads a row. A test that fails shows the row, so the error says nothing more.
use hex::FromHexError;
use std::alloc::{AllocError, AllocFailed};
use std::num::ParseIntError;
use zber::{EncodeError, FrameError, OidError, ValueError};

/// What a row is to say does not stand in it, or was refused, or there is no memory for it.
#[derive(Debug, Drop)]
pub struct Unread;

impl From<AllocError> for Unread {
    fn from(_error: AllocError) -> Unread {
        Unread
    }
}

impl<T: Drop> From<AllocFailed<T>> for Unread {
    fn from(_error: AllocFailed<T>) -> Unread {
        Unread
    }
}

impl From<ParseIntError> for Unread {
    fn from(_error: ParseIntError) -> Unread {
        Unread
    }
}

impl From<FromHexError> for Unread {
    fn from(_error: FromHexError) -> Unread {
        Unread
    }
}

impl From<FrameError> for Unread {
    fn from(_error: FrameError) -> Unread {
        Unread
    }
}

impl From<EncodeError> for Unread {
    fn from(_error: EncodeError) -> Unread {
        Unread
    }
}

impl From<OidError> for Unread {
    fn from(_error: OidError) -> Unread {
        Unread
    }
}

impl From<ValueError> for Unread {
    fn from(_error: ValueError) -> Unread {
        Unread
    }
}

/// What was given, or `Unread` for any error of the crates above.
pub fn read<T, E: Drop>(given: Result<T, E>) -> Result<T, Unread> {
    given.map_err(|_| Unread)
}
