//! The sides of a bound.

ghost use Rattle.std.specs.Prelude.{◌≡◌, ◌≤◌, ◌≤ℤ◌, ◌+ℤ◌, pos};
ghost use Rattle.corner_lift.specs.Case.{most_precision};
ghost use Rattle.lift_dual.specs.Property.{IsHighSide, IsLowSide, is_closed, is_upper};

use lift_cert::Bound;
use property_text::Op;

/// Whether the property holds where numbers are on the lower side.
pub(crate) fn is_upper(op: Op) -> bool
    ensures { result ≡ is_upper op }
{
    matches!(op, Op::AtMost | Op::Below)
}

/// Whether the bound itself counts to the lower side.
fn is_closed(op: Op) -> bool
    ensures { result ≡ is_closed op }
{
    matches!(op, Op::AtMost | Op::Above)
}

/// The greatest number over 2 to the precision `w` that is on the lower side of the bound, -1 where no other is.
pub(crate) fn greatest_low(op: Op, bound: Bound, w: u32) -> i64
    requires { w ≤ most_precision }
    ensures low { IsLowSide op bound w result }
    ensures high { IsHighSide op bound w (result +ℤ pos 1) }
    ensures least { pos 0 ≤ℤ (result +ℤ pos 1) }
{
    let scaled = u128::from(bound.num) << w;
    let den = u128::from(bound.den);
    let within = (scaled / den) as i64;
    if is_closed(op) {
        return within;
    }
    if scaled % den == 0 {
        within - 1
    } else {
        within
    }
}
