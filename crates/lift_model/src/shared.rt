ghost use Rattle.std.specs.Prelude.{◌≡◌, IsTrue, IfOk};

use lift_poly::MultiAffine;
use std::alloc::{AllocError, Global};
use std::ops::Deref;
use std::rc::Rc;

/// A polynomial that several entries hold together. `new` makes one of a polynomial, and `share` one more that
/// holds the same.
#[derive(Drop)]
pub struct SharedPoly {
    poly: Rc<MultiAffine>,
}

impl std::marker::Model for SharedPoly {
    ghost use Rattle.std.specs.Prelude.{List};
    ghost use Rattle.lift_poly.specs.Polynomial.{Term};

    ghost Value = { List Term };

    ghost view = { λ p. p.poly.value };
}

impl SharedPoly {
    /// The polynomial, to be shared.
    pub fn new(alloc: Global, poly: MultiAffine) -> Result<SharedPoly, AllocError>
        ensures { IfOk result (λ p. p ≡ poly) }
    {
        let poly = Rc::new(alloc, poly)?;
        Ok(SharedPoly { poly })
    }

    /// The same polynomial. It takes no memory.
    pub fn share(&self) -> Result<SharedPoly, AllocError>
        ensures { IfOk result (λ p. p ≡ self.now) }
    {
        let poly = self.poly.clone()?;
        Ok(SharedPoly { poly })
    }
}

impl Deref for SharedPoly {
    type Target = MultiAffine;

    ghost deref_gives = { λ p x. x ≡ p };

    fn deref(&self) -> &MultiAffine
        ensures { result.now ≡ self.now }
    {
        &self.poly
    }
}

/// Whether two polynomials are the same.
pub fn is_same(left: &MultiAffine, right: &MultiAffine) -> bool
    ensures same { IsTrue result → left.now ≡ right.now }
    ensures other { left.now ≡ right.now → IsTrue result }
{
    if left.len() != right.len() {
        return false;
    }
    for index in 0..left.len() {
        let (left_set, left_number) = left.term(index);
        let (right_set, right_number) = right.term(index);
        if left_set != right_set || left_number != right_number {
            return false;
        }
    }
    true
}
