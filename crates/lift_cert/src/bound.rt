ghost use Rattle.std.specs.Prelude.{◌≡◌, ◌≤◌, ◌^◌, ◌*ℤ◌, ◌↔◌, pos, IsTrue};
ghost use Rattle.corner_lift.specs.Case.{most_precision};
ghost use Rattle.lift_cert.specs.Certificate.{IsWithin};
ghost use Rattle.lift_cert.specs.Miss.{IsSmall};

use corner_lift::one_at;

/// A bound on a probability: the fraction `num / den` in lowest terms, from 0 to 1, with `den` at
/// least 1.
#[derive(Clone, Copy)]
pub struct Bound {
    /// The numerator, at most the denominator.
    pub num: u32,
    /// The denominator, at least 1.
    pub den: u32,
}

impl std::marker::Model for Bound {
    ghost use Rattle.lift_cert.specs.Bound.{BoundData, IsBound};

    ghost Value = { BoundData };

    ghost view = { λ b. record { num = b.num; den = b.den } };

    ghost invariant = { λ b. IsBound (record { num = b.num; den = b.den }) };

    ghost inverse = { λ b. record { num = b.num; den = b.den } };
}

/// The product, which can't overflow.
fn widening_mul(a: i64, b: i64) -> i128
    ensures { result ≡ a *ℤ b }
{
    i128::from(a) * i128::from(b)
}

impl Bound {
    /// `value` over 2 to the precision `w` and the bound, each times both denominators.
    pub(crate) fn beside(self, value: i64, w: u32) -> (i128, i128)
        requires { w ≤ most_precision }
        ensures value { result.0 ≡ value *ℤ pos self.den }
        ensures bound { result.1 ≡ pos self.num *ℤ pos (2 ^ w) }
        ensures small { IsSmall result.0 × IsSmall result.1 }
    {
        let one = one_at(w);
        (
            widening_mul(value, i64::from(self.den)),
            widening_mul(i64::from(self.num), one),
        )
    }

    /// Whether `value` over 2 to the precision `w` is at most the bound.
    pub fn admits(self, value: i64, w: u32) -> bool
        requires { w ≤ most_precision }
        ensures { IsTrue result ↔ IsWithin self w value }
    {
        let (left, right) = self.beside(value, w);
        left <= right
    }
}
