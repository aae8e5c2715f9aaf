//! The bound of a formula.

ghost use Rattle.std.specs.Prelude.{◌≡◌};
ghost use Rattle.lift_frac.specs.Frac.{ratio_of};
ghost use Rattle.property_text.specs.Grammar.{IsRatio};
ghost use Rattle.property_text.specs.Formula.{bound_by, bound_of};

use lift_cert::Bound;
use lift_frac::{Frac, read_ratio};

/// Each part of a bound is below this: `part_limit` in the definitions.
const PART_LIMIT: i128 = 1 << 32;

/// A fraction as a bound.
fn bound_by(fraction: Frac) -> Option<Bound>
    ensures { result ≡ bound_by (ratio_of fraction) }
{
    let Frac { num, den } = fraction;
    if 0 <= num && num <= den && den < PART_LIMIT {
        Some(Bound {
            num: num as u32,
            den: den as u32,
        })
    } else {
        None
    }
}

/// The bound that a text names, if it is one.
pub(crate) fn bound_of(text: &[u8]) -> Option<Bound>
    requires { IsRatio text.now }
    ensures { result ≡ bound_of text.now }
{
    match std::str::from_utf8(text) {
        Ok(word) => bound_by(read_ratio(word)?),
        Err(_) => None,
    }
}
