ghost use Rattle.std.specs.Prelude.{◌≡◌, ◌≢◌, ◌<◌, ◌≤◌, ◌^◌, ℤ, pos, [], ◌∷◌, ℕ, unsigned_abs, Ok, Err};
ghost use Rattle.std.specs.Prelude.{IfOk};
ghost use Rattle.std.specs.List.{list_any};
ghost use Rattle.lift_frac.specs.Limits.{product_limit};
ghost use Rattle.lift_poly.specs.Limits.{parameter_limit};
ghost use Rattle.lift_poly.specs.Polynomial.{constant};
ghost use Rattle.drn_expr.specs.RatPolys.{OverOne, IsRatPoly, is_large, narrow, with_sign};
ghost use Rattle.drn_expr.specs.RatPolys.{common_divisor};
ghost use Rattle.drn_expr.specs.Laws.{is_large_at};
ghost use Rattle.drn_expr.specs.Expansion.{sum, negative, difference, product, quotient};

use crate::error::ExprError;
use crate::laws::operations_fit;
use lift_frac::{Frac, divisors_and_multiples, gcd};
use lift_poly::{MultiAffine, coefficients_follow};
use std::alloc::{AllocError, Global};
use std::marker::Model;

/// A polynomial over one denominator, in lowest terms: the denominator is from 1 to 2^62 - 1 and
/// has no factor in common with all coefficients, each of which has a size below 2^62.
#[derive(Drop)]
pub struct RatPoly {
    poly: MultiAffine,
    den: u64,
}

impl Model for RatPoly {
    ghost use Rattle.drn_expr.specs.RatPolys.{OverOne, IsRatPoly};

    ghost Value = { OverOne };

    ghost view = { λ p. record { terms = p.poly; den = p.den } };

    ghost invariant = { λ p. IsRatPoly (record { terms = p.poly; den = p.den }) };
}

/// The size from which on a coefficient or a denominator is too large: `size_limit` in the
/// definitions.
const LIMIT: u128 = 1 << 62;

/// How many terms a sum in place adds at most, each of which may move all terms of the other operand.
const FEW: usize = 4;

/// Whether a coefficient is too large.
fn has_large(poly: &MultiAffine) -> bool
    ensures { result ≡ list_any is_large poly.now }
{
    for i in 0..poly.len() {
        if poly.term(i).1.unsigned_abs() >= LIMIT {
            return true;
        }
    }
    false
}

/// Whether a polynomial has a coefficient that is too large at the set of one of these terms.
fn has_large_at(poly: &MultiAffine, terms: &MultiAffine) -> bool
    ensures { result ≡ is_large_at poly.now terms.now }
{
    for i in 0..terms.len() {
        if poly.coefficient(terms.term(i).0).unsigned_abs() >= LIMIT {
            return true;
        }
    }
    false
}

/// The greatest common divisor of a denominator and all coefficients.
fn common_divisor(poly: &MultiAffine, den: u128) -> u128
    requires { 0 < den }
    ensures value { result ≡ common_divisor den poly.now }
    ensures positive { 0 < result }
    ensures small { result ≤ den }
{
    divisors_and_multiples();
    if den == 1 {
        return 1;
    }
    gcd(poly.content(), den)
}

/// A size with the sign of a number.
fn with_sign(number: i128, size: u64) -> i128
    ensures { result ≡ with_sign number size }
{
    if number < 0 {
        -i128::from(size)
    } else {
        i128::from(size)
    }
}

impl RatPoly {
    /// The polynomial.
    pub fn poly(&self) -> &MultiAffine
        ensures terms { result.now ≡ self.now.terms }
        ensures rat_poly { IsRatPoly self.now }
    {
        &self.poly
    }

    /// The denominator, from 1 to 2^62 - 1.
    pub fn den(&self) -> i64
        ensures den { result ≡ pos self.now.den }
        ensures rat_poly { IsRatPoly self.now }
    {
        self.den as i64
    }

    /// The same polynomial.
    pub fn copy(&self, alloc: Global) -> Result<RatPoly, AllocError>
        ensures { IfOk result (λ p. p ≡ self.now) }
    {
        let poly = self.poly.copy(alloc)?;
        Ok(RatPoly {
            poly,
            den: self.den,
        })
    }

    /// The same polynomial. Memory is given back where more than half of it is free.
    pub(crate) fn compact(self) -> RatPoly
        ensures { result ≡ self }
    {
        RatPoly {
            poly: self.poly.compact(),
            den: self.den,
        }
    }

    /// A number.
    pub(crate) fn number(alloc: Global, number: Frac) -> Result<RatPoly, ExprError>
        ensures { result ≢ Err ExprError.Memory
            → result ≡ Ok (record { terms = constant number.num; den = unsigned_abs number.den }) }
    {
        divisors_and_multiples();
        let poly = MultiAffine::constant(alloc, number.num)?;
        Ok(RatPoly {
            poly,
            den: number.den as u64,
        })
    }

    /// The parameter at a place below 16 among the declared ones.
    pub(crate) fn parameter(alloc: Global, place: u32) -> Result<RatPoly, ExprError>
        requires { place < parameter_limit }
        ensures { result ≢ Err ExprError.Memory
            → result ≡ Ok (record { terms = (2 ^ place, pos 1) ∷ []; den = 1 }) }
    {
        let poly = MultiAffine::parameter(alloc, place)?;
        Ok(RatPoly { poly, den: 1 })
    }

    /// The same fraction over its least denominator. `Wide` exactly where that is too large.
    fn narrow(alloc: Global, poly: MultiAffine, den: u128) -> Result<RatPoly, ExprError>
        requires positive { 0 < den }
        requires small { den < product_limit }
        ensures { result ≢ Err ExprError.Memory → result ≡ narrow poly den }
    {
        divisors_and_multiples();
        let divisor = common_divisor(&poly, den);
        let den = den / divisor;
        if den >= LIMIT {
            return Err(ExprError::Wide);
        }
        let poly = poly.divide(alloc, divisor as i128)?;
        if has_large(&poly) {
            return Err(ExprError::Wide);
        }
        Ok(RatPoly {
            poly,
            den: den as u64,
        })
    }

    /// The sum of two polynomials over 1, the other one of few terms. It is made in place: only the
    /// coefficients that change are looked at.
    fn sum_of_few(self, other: &RatPoly) -> Result<RatPoly, ExprError>
        requires left { self.den ≡ 1 }
        requires right { other.now.den ≡ 1 }
        ensures { result ≢ Err ExprError.Memory → result ≡ sum self other.now }
    {
        operations_fit();
        let poly = self.poly.add_few(&other.poly)?;
        if has_large_at(&poly, &other.poly) {
            return Err(ExprError::Wide);
        }
        Ok(RatPoly { poly, den: 1 })
    }

    /// The sum.
    pub(crate) fn sum(self, alloc: Global, other: RatPoly) -> Result<RatPoly, ExprError>
        ensures { result ≢ Err ExprError.Memory → result ≡ sum self other }
    {
        operations_fit();
        if self.den == 1 && other.den == 1 && other.poly.len() <= FEW {
            return self.sum_of_few(&other);
        }
        if self.den == 1 && other.den == 1 && self.poly.len() <= FEW {
            return other.sum_of_few(&self);
        }
        let left = self.poly.scale_in_place(i128::from(other.den))?;
        let right = other.poly.scale_in_place(i128::from(self.den))?;
        let poly = left.add_in_place(alloc, &right)?;
        RatPoly::narrow(alloc, poly, u128::from(self.den) * u128::from(other.den))
    }

    /// The polynomial with the other sign.
    pub(crate) fn negative(self) -> Result<RatPoly, ExprError>
        ensures { result ≢ Err ExprError.Memory → result ≡ Ok (negative self) }
    {
        operations_fit();
        coefficients_follow();
        let poly = self.poly.scale_in_place(-1)?;
        Ok(RatPoly {
            poly,
            den: self.den,
        })
    }

    /// The difference.
    pub(crate) fn difference(self, alloc: Global, other: RatPoly) -> Result<RatPoly, ExprError>
        ensures { result ≢ Err ExprError.Memory → result ≡ difference self other }
    {
        let other = other.negative()?;
        self.sum(alloc, other)
    }

    /// The product. `SharedParameter` exactly where a parameter occurs in both factors.
    pub(crate) fn product(self, alloc: Global, other: RatPoly) -> Result<RatPoly, ExprError>
        ensures { result ≢ Err ExprError.Memory → result ≡ product self other }
    {
        operations_fit();
        let poly = self.poly.mul_in_place(other.poly)?;
        RatPoly::narrow(alloc, poly, u128::from(self.den) * u128::from(other.den))
    }

    /// The quotient. `ParametricDivisor` exactly where the divisor holds a parameter, and else
    /// `DivisionByZero` exactly where it is 0.
    pub(crate) fn quotient(self, alloc: Global, other: &RatPoly) -> Result<RatPoly, ExprError>
        ensures { result ≢ Err ExprError.Memory → result ≡ quotient self other.now }
    {
        operations_fit();
        if other.poly.support() != 0 {
            return Err(ExprError::ParametricDivisor);
        }
        let number = other.poly.coefficient(0);
        if number == 0 {
            return Err(ExprError::DivisionByZero);
        }
        let poly = self.poly.scale_in_place(with_sign(number, other.den))?;
        RatPoly::narrow(alloc, poly, u128::from(self.den) * number.unsigned_abs())
    }
}
