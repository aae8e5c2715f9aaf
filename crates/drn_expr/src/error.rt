ghost use Rattle.std.specs.Prelude.{◌≡◌};
ghost use Rattle.lift_poly.specs.declared.error.PolyError.{PolyError};
ghost use Rattle.drn_expr.specs.RatPolys.{cause_of};
ghost use Rattle.drn_expr.specs.declared.error.ExprError.TheVariants.{Memory};

use lift_poly::PolyError;
use std::alloc::AllocError;
use thiserror::Error;

/// Why a value is refused.
#[derive(Clone, Copy, Debug, Error)]
pub enum ExprError {
    /// A symbol, or the end, that doesn't fit where it stands.
    #[error("no value")]
    Syntax = 1,
    /// A name that isn't declared.
    #[error("unknown name")]
    UnknownName = 2,
    /// A `^` where an operator could stand.
    #[error("power")]
    Power = 3,
    /// A product whose factors share a parameter.
    #[error("factors share a parameter")]
    SharedParameter = 4,
    /// A divisor that holds a parameter.
    #[error("parameter in a divisor")]
    ParametricDivisor = 5,
    /// A divisor that is 0.
    #[error("division by zero")]
    DivisionByZero = 6,
    /// A literal that is too large, or a result with a denominator or a coefficient of size 2^62
    /// or more.
    #[error("number too large")]
    Wide = 7,
    /// More than 64 parentheses and unary minus signs around one place.
    #[error("nested too deeply")]
    Deep = 8,
    /// More than 4,096 symbols.
    #[error("too long")]
    Long = 9,
    /// No memory is left.
    #[error("out of memory")]
    Memory = 10,
}

impl From<AllocError> for ExprError {
    ghost from_gives = { λ _ e. e ≡ Memory };

    fn from(_: AllocError) -> Self {
        ExprError::Memory
    }
}

impl From<PolyError> for ExprError {
    ghost from_gives = { λ cause e. e ≡ cause_of cause };

    fn from(cause: PolyError) -> Self {
        match cause {
            PolyError::SharedParameter => ExprError::SharedParameter,
            PolyError::Wide => ExprError::Wide,
            PolyError::Memory => ExprError::Memory,
        }
    }
}
