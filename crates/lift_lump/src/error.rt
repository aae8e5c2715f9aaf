ghost use Rattle.std.specs.Prelude.{◌≡◌};
ghost use Rattle.lift_lump.specs.declared.error.LumpError.TheVariants.{Memory};

use std::alloc::AllocError;
use thiserror::Error;

/// Why a model isn't lumped.
#[derive(Clone, Copy, Debug, Error)]
pub enum LumpError {
    /// The model is a decision process.
    #[error("not a chain")]
    NotChain = 1,
    /// A coefficient of the quotient has a size of 2^100 or more.
    #[error("too wide")]
    Wide = 2,
    /// Memory ran out.
    #[error("out of memory")]
    Memory = 3,
}

impl From<AllocError> for LumpError {
    ghost from_gives = { λ _ e. e ≡ Memory };

    fn from(_: AllocError) -> Self {
        LumpError::Memory
    }
}
