ghost use Rattle.std.specs.Prelude.{◌≡◌};
ghost use Rattle.lift_poly.specs.declared.error.PolyError.TheVariants.{Memory};

use std::alloc::AllocError;

/// Why a polynomial isn't given.
#[derive(Clone, Copy, Debug)]
pub enum PolyError {
    /// The two factors of a product share a parameter.
    SharedParameter = 1,
    /// A coefficient of the result has a size of 2^125 or more.
    Wide = 2,
    /// No memory is left.
    Memory = 3,
}

impl From<AllocError> for PolyError {
    ghost from_gives = { λ _ e. e ≡ Memory };

    fn from(_: AllocError) -> Self {
        PolyError::Memory
    }
}
