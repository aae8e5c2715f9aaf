ghost use Rattle.std.specs.Prelude.{◌≡◌};
ghost use Rattle.property_text.specs.declared.error.FormulaError.TheVariants.{Memory};

use std::alloc::AllocError;

/// Why a formula isn't given.
#[derive(Clone, Copy, Debug, PartialEq)]
pub enum FormulaError {
    /// The text isn't a formula.
    Syntax = 1,
    /// The bound isn't from 0 to 1, its divisor is 0, or a part of it is too wide.
    Bound = 2,
    /// No memory is left.
    Memory = 3,
}

impl From<AllocError> for FormulaError {
    ghost from_gives = { λ _ e. e ≡ Memory };

    fn from(_: AllocError) -> Self {
        FormulaError::Memory
    }
}
