// Fractions in lowest terms.
ghost use Rattle.std.specs.Prelude.{◌≡◌, ◌<◌, ◌/◌};
ghost use Rattle.lift_base.specs.Outside.{Wrote};
ghost use Rattle.lift_frac.specs.Gcd.{gcd};
ghost use Rattle.view_text.specs.Numbers.{divisor_text, fraction_text, sign_text};

use lift_base::{Sink, Word, WriteFault, write_words, writes_in_turn};
use lift_frac::gcd;

/// What stands before a number.
pub(crate) fn sign_text(num: i128) -> &'static [u8]
    ensures { result.now ≡ sign_text num }
{
    if num < 0 { b"-" } else { b"" }
}

// What stands behind a numerator.
fn write_divisor<K: Sink>(out: &mut K, den: u64) -> Result<(), WriteFault>
    ensures { Wrote K.taken K.faults out.old out.new result (divisor_text den) }
{
    writes_in_turn::<K>();
    if den == 1 {
        return Ok(());
    }
    write_words(out, &[Word::Text(b"/"), Word::Count(den)])
}

// Two numbers over what they have in common.
fn lowest(num: u64, den: u64) -> (u64, u64)
    requires { 0 < den }
    ensures num { result.0 ≡ num / gcd num den }
    ensures den { result.1 ≡ den / gcd num den }
{
    let common = gcd(u128::from(num), u128::from(den));
    (
        (u128::from(num) / common) as u64,
        (u128::from(den) / common) as u64,
    )
}

/// Writes a fraction in lowest terms, as a whole number where it is one.
pub(crate) fn write_fraction<K: Sink>(out: &mut K, num: i64, den: u64) -> Result<(), WriteFault>
    requires { 0 < den }
    ensures { Wrote K.taken K.faults out.old out.new result (fraction_text num den) }
{
    writes_in_turn::<K>();
    let (above, below) = lowest(num.unsigned_abs(), den);
    write_words(
        out,
        &[Word::Text(sign_text(i128::from(num))), Word::Count(above)],
    )?;
    write_divisor(out, below)
}
