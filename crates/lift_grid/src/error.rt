ghost use Rattle.std.specs.Prelude.{◌≡◌};
ghost use Rattle.lift_grid.specs.Faults.{error_name};
ghost use Rattle.lift_grid.specs.declared.error.RegionError.TheVariants.{Memory};

use std::alloc::{AllocError, AllocFailed};
use thiserror::Error;

/// Why a region isn't given.
#[derive(Clone, Copy, Debug, Error)]
pub enum RegionError {
    /// The text isn't a region, or a divisor is 0.
    #[error("the region isn't in its grammar")]
    Syntax = 1,
    /// A clause names a parameter that isn't declared.
    #[error("a parameter isn't declared")]
    UnknownName = 2,
    /// Two clauses name the same parameter.
    #[error("a parameter has two clauses")]
    Repeated = 3,
    /// A declared parameter has no clause.
    #[error("a parameter has no clause")]
    Missing = 4,
    /// A low end isn't below its high end.
    #[error("an interval is empty")]
    EmptyInterval = 5,
    /// A number is too large.
    #[error("a number is too large")]
    Wide = 6,
    /// Memory ran out.
    #[error("out of memory")]
    Memory = 7,
}

impl RegionError {
    /// The name of the variant, as a note tells it.
    pub fn name(self) -> &'static str
        ensures { result.now ≡ error_name self }
    {
        match self {
            RegionError::Syntax => "Syntax",
            RegionError::UnknownName => "UnknownName",
            RegionError::Repeated => "Repeated",
            RegionError::Missing => "Missing",
            RegionError::EmptyInterval => "EmptyInterval",
            RegionError::Wide => "Wide",
            RegionError::Memory => "Memory",
        }
    }
}

impl From<AllocError> for RegionError {
    ghost from_gives = { λ _ e. e ≡ Memory };

    fn from(_: AllocError) -> Self {
        RegionError::Memory
    }
}

impl<T: Drop> From<AllocFailed<T>> for RegionError {
    ghost from_gives = { λ _ e. e ≡ Memory };

    fn from(_: AllocFailed<T>) -> Self {
        RegionError::Memory
    }
}
