//! Why elements were not read, or not built.
ghost use Rattle.std.specs.Prelude.{◌≡◌};
ghost use Rattle.zasn.specs.Results.{part_error_of};
ghost use Rattle.zasn.specs.Errors.{part_error_name, build_error_name};

use std::alloc::{AllocError, AllocFailed};
use thiserror::Error;
use zber::ValueError;

/// Why elements were not read.
#[derive(Clone, Copy, Debug, PartialEq, Eq, Error)]
pub enum PartError {
    /// An element is missing, is one too many, or is not one that the production allows here.
    #[error("misfit")]
    Misfit,
    /// No memory was found.
    #[error("out of memory")]
    Memory,
}

impl PartError {
    /// Returns the name of the variant, as in `Misfit`. It takes no memory.
    pub fn name(self) -> &'static str
        ensures { result.now ≡ part_error_name self }
    {
        match self {
            PartError::Misfit => "Misfit",
            PartError::Memory => "Memory",
        }
    }
}

impl From<AllocError> for PartError {
    ghost use Rattle.std.specs.Prelude.{◌≡◌};
    ghost use Rattle.zasn.specs.declared.error.PartError.TheVariants.{Memory};

    ghost from_gives = { λ _ e. e ≡ Memory };

    fn from(_: AllocError) -> PartError {
        PartError::Memory
    }
}

impl<T: Drop> From<AllocFailed<T>> for PartError {
    ghost use Rattle.std.specs.Prelude.{◌≡◌};
    ghost use Rattle.zasn.specs.declared.error.PartError.TheVariants.{Memory};

    ghost from_gives = { λ _ e. e ≡ Memory };

    fn from(_: AllocFailed<T>) -> PartError {
        PartError::Memory
    }
}

impl From<ValueError> for PartError {
    ghost use Rattle.std.specs.Prelude.{◌≡◌};
    ghost use Rattle.zasn.specs.Results.{part_error_of};

    ghost from_gives = { λ v e. e ≡ part_error_of v };

    fn from(error: ValueError) -> PartError {
        match error {
            ValueError::Memory => PartError::Memory,
            _ => PartError::Misfit,
        }
    }
}

/// Why elements were not built.
#[derive(Clone, Copy, Debug, PartialEq, Eq, Error)]
pub enum BuildError {
    /// The value has no spelling: an element that it keeps has no lawful tag or form for its place.
    #[error("not spellable")]
    NotSpellable,
    /// No memory was found.
    #[error("out of memory")]
    Memory,
}

impl BuildError {
    /// Returns the name of the variant, as in `NotSpellable`. It takes no memory.
    pub fn name(self) -> &'static str
        ensures { result.now ≡ build_error_name self }
    {
        match self {
            BuildError::NotSpellable => "NotSpellable",
            BuildError::Memory => "Memory",
        }
    }
}

impl From<AllocError> for BuildError {
    ghost use Rattle.std.specs.Prelude.{◌≡◌};
    ghost use Rattle.zasn.specs.declared.error.BuildError.TheVariants.{Memory};

    ghost from_gives = { λ _ e. e ≡ Memory };

    fn from(_: AllocError) -> BuildError {
        BuildError::Memory
    }
}

impl<T: Drop> From<AllocFailed<T>> for BuildError {
    ghost use Rattle.std.specs.Prelude.{◌≡◌};
    ghost use Rattle.zasn.specs.declared.error.BuildError.TheVariants.{Memory};

    ghost from_gives = { λ _ e. e ≡ Memory };

    fn from(_: AllocFailed<T>) -> BuildError {
        BuildError::Memory
    }
}
