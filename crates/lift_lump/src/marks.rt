//! The marks of polynomials: their weights at a point, up to multiples of a prime.

ghost use Rattle.std.specs.Prelude.{◌≡◌, ◌*◌, ◌%◌, ◌<◌};
ghost use Rattle.lift_poly.specs.Polynomial.{monomial, weight};
ghost use Rattle.lift_lump.specs.Search.{modulus, whole, IsCongruent};

use lift_poly::MultiAffine;

/// A prime, by which marks are taken. It is above 2^62, which the sums of constants stay below: those that differ have
/// marks that differ.
pub(crate) const MODULUS: u64 = (1 << 63) - 25;

/// The product of two numbers, up to multiples of the prime.
fn times(left: u64, right: u64) -> u64
    ensures { result ≡ left * right % modulus }
{
    (u128::from(left) * u128::from(right) % u128::from(MODULUS)) as u64
}

/// A whole number, up to multiples of the prime.
fn residue(number: i128) -> u64
    ensures below { result < modulus }
    ensures same { IsCongruent result number }
{
    let size = (number.unsigned_abs() % u128::from(MODULUS)) as u64;
    if number < 0 {
        (MODULUS - size) % MODULUS
    } else {
        size
    }
}

/// The product of the set's parameters at a point.
fn monomial_mark(point: &[u64], set: u16) -> u64
    ensures below { result < modulus }
    ensures same { IsCongruent result (monomial (whole point.now) set) }
{
    if set == 0 {
        return 1;
    }
    match point {
        [] => 1,
        [first, others @ ..] => {
            let product = monomial_mark(others, set / 2);
            if set % 2 == 1 {
                times(*first, product)
            } else {
                product
            }
        }
    }
}

/// The weight of a polynomial at a point.
pub(crate) fn mark_of(point: &[u64], poly: &MultiAffine) -> u64
    ensures below { result < modulus }
    ensures same { IsCongruent result (weight (whole point.now) poly.now) }
{
    let mut sum = 0;
    for index in 0..poly.len() {
        let (set, coefficient) = poly.term(index);
        sum = (sum + times(residue(coefficient), monomial_mark(point, set))) % MODULUS;
    }
    sum
}
