//! Tests of polynomials.
ghost use Rattle.std.specs.Prelude.{◌≡◌, ◌<◌, [], ◌∷◌, pos, negsuc, IfOk};
ghost use Rattle.lift_poly.specs.Arithmetic.{DividesEach};
ghost use Rattle.lift_poly.specs.Limits.{parameter_limit};

use crate::cells::each_row;
use lift_poly::{MultiAffine, PolyError};
use std::alloc::{AllocError, Global};
use std::fmt::Write;
use std::string::String;
use test_cells::Teller;

/// 2^125 - 1, the greatest coefficient.
const GREATEST: i128 = 42535295865117307932921825928971026431;

/// Each term as its set and its coefficient.
fn terms_shown(alloc: Global, polynomial: &MultiAffine) -> Result<String, AllocError> {
    if polynomial.len() == 0 {
        return format!(in alloc; "nothing");
    }
    let mut text = String::new(alloc);
    let mut blank = "";
    for index in 0..polynomial.len() {
        let (set, number) = polynomial.term(index);
        write!(text, "{blank}{set}:{number}")?;
        blank = " ";
    }
    Ok(text)
}

/// Its terms, or why there is no polynomial.
fn shown(alloc: Global, answer: Result<MultiAffine, PolyError>) -> Result<String, AllocError> {
    match answer {
        Ok(polynomial) => terms_shown(alloc, &polynomial),
        Err(cause) => format!(in alloc; "{cause:?}"),
    }
}

/// -6 and 4 times the parameters 0 and 1.
fn given(alloc: Global) -> Result<MultiAffine, AllocError>
    ensures terms { IfOk result (λ p. p ≡ (0, negsuc 5) ∷ (3, pos 4) ∷ []) }
    ensures even { IfOk result (DividesEach 2) }
{
    MultiAffine::from_terms(alloc, &[(0, -6), (3, 4)])
}

/// `p + 1`, where p is the parameter of this index.
fn next(alloc: Global, index: u32) -> Result<MultiAffine, PolyError>
    requires { index < parameter_limit }
{
    let p = MultiAffine::parameter(alloc, index)?;
    p.add(alloc, &MultiAffine::constant(alloc, 1)?)
}

/// A polynomial that is computed, and its terms or why it is refused.
const COMPUTED: &str = "\
p + p | 1:2
p - p | nothing
(p + 1) * (q + 1) | 0:1 1:1 2:1 3:1
(4*p*q - 6) / 2 | 0:-3 3:2
4*p*q - 6 | 0:-6 3:4
r * (r + 1) | SharedParameter
greatest + 1 | Wide
greatest + greatest | Wide
greatest * -2 | Wide
greatest * greatest | Wide";

/// The last parameter times one more than it.
fn shared(alloc: Global) -> Result<MultiAffine, PolyError> {
    MultiAffine::parameter(alloc, 15)?.mul(alloc, &next(alloc, 15)?)
}

/// A polynomial less itself.
fn nothing(alloc: Global, p: &MultiAffine) -> Result<MultiAffine, PolyError> {
    let opposite = p.scale(alloc, -1)?;
    p.add(alloc, &opposite)
}

/// One more than the first parameter times one more than the second.
fn product(alloc: Global) -> Result<MultiAffine, PolyError> {
    let left = next(alloc, 0)?;
    let right = next(alloc, 1)?;
    left.mul(alloc, &right)
}

/// What the first parameter is computed with.
fn small(alloc: Global, p: &MultiAffine, name: &str) -> Result<MultiAffine, PolyError> {
    match name {
        "p + p" => p.add(alloc, p),
        "p - p" => nothing(alloc, p),
        _ => product(alloc),
    }
}

/// The same with that parameter made.
fn small_of(alloc: Global, name: &str) -> Result<MultiAffine, PolyError> {
    let p = MultiAffine::parameter(alloc, 0)?;
    let computed = small(alloc, &p, name);
    drop(p);
    computed
}

/// What the greatest coefficient is computed with.
fn great(alloc: Global, name: &str) -> Result<MultiAffine, PolyError> {
    let greatest = MultiAffine::constant(alloc, GREATEST)?;
    match name {
        "greatest + 1" => MultiAffine::constant(alloc, GREATEST + 1),
        "greatest + greatest" => greatest.add(alloc, &greatest),
        "greatest * -2" => greatest.scale(alloc, -2),
        _ => greatest.mul(alloc, &greatest),
    }
}

/// A copy of what is given.
fn copied(alloc: Global) -> Result<MultiAffine, PolyError> {
    let given = given(alloc)?;
    let copy = given.copy(alloc);
    drop(given);
    Ok(copy?)
}

fn computed(alloc: Global, name: &str) -> Result<MultiAffine, PolyError> {
    match name {
        "(4*p*q - 6) / 2" => Ok(given(alloc)?.divide(alloc, 2)?),
        "4*p*q - 6" => copied(alloc),
        "r * (r + 1)" => shared(alloc),
        _ if name.starts_with("greatest") => great(alloc, name),
        _ => small_of(alloc, name),
    }
}

struct Computations;

impl Teller for Computations {
    type Reported = String;

    type Error = AllocError;

    fn tell(&self, alloc: Global, asked: &str) -> Result<String, AllocError> {
        shown(alloc, computed(alloc, asked))
    }
}

#[test]
fn computes(rt: HostRuntime) {
    each_row(&rt, rt.alloc(), COMPUTED, &Computations);
}

/// Whether zero has no terms, and each of its numbers is 0.
fn tells_zero(alloc: Global) -> Result<bool, PolyError> {
    let zero = MultiAffine::constant(alloc, 0)?;
    let are_none = zero.len() == 0 && zero.support() == 0;
    Ok(are_none && zero.content() == 0 && zero.abs_sum() == 0)
}

/// Whether -6 and 4 times two parameters have their numbers and coefficients.
fn tells_given(alloc: Global) -> Result<bool, AllocError> {
    let given = given(alloc)?;
    let are_two = given.len() == 2 && given.support() == 3;
    let has_numbers = given.content() == 2 && given.abs_sum() == 10;
    Ok(are_two && has_numbers && given.coefficient(3) == 4 && given.coefficient(1) == 0)
}

#[test]
fn tells_numbers(rt: HostRuntime) {
    assert!(rt; matches!(tells_zero(rt.alloc()), Ok(true)));
    assert!(rt; matches!(tells_given(rt.alloc()), Ok(true)));
}
