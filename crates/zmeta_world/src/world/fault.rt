//! Why a line is refused.
ghost use Rattle.std.specs.Prelude.{◌≡◌};
ghost use Rattle.zmeta_world.specs.declared.world.fault.LineFault.TheVariants.{Memory};

use std::alloc::{AllocError, AllocFailed};

/// Why a line of a world file is refused.
#[derive(Clone, Copy, PartialEq, Eq)]
pub(crate) enum LineFault {
    /// The line has none of the forms, or cannot follow the lines before it.
    Refused,
    /// No memory was found.
    Memory,
}

impl From<AllocError> for LineFault {
    ghost from_gives = { λ _ e. e ≡ Memory };

    fn from(_: AllocError) -> LineFault {
        LineFault::Memory
    }
}

impl<T: Drop> From<AllocFailed<T>> for LineFault {
    ghost from_gives = { λ _ e. e ≡ Memory };

    fn from(_: AllocFailed<T>) -> LineFault {
        LineFault::Memory
    }
}
