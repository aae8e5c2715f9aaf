// Decimals.
ghost use Rattle.std.specs.Prelude.{◌≡◌, ◌<◌, ◌≤◌, ◌/◌, ◌^◌, pos, unsigned_abs};
ghost use Rattle.lift_base.specs.Outside.{Wrote};
ghost use Rattle.view_text.specs.declared.decimal.Places.TheVariants.{Nine, Six};
ghost use Rattle.view_text.specs.Numbers.{decimal_text, places_text, point_text, rounded, three_digits, units_of};

use crate::fraction::sign_text;
use lift_base::{Sink, Word, WriteFault, write_all, write_words, writes_in_turn};

/// How many places a decimal is rounded to.
#[derive(Clone, Copy)]
pub enum Places {
    Three,
    Six,
    Nine,
}

// How many units of the last place make 1.
fn units_of(places: Places) -> u128
    ensures value { result ≡ units_of places }
    ensures positive { 0 < result }
    ensures within { result ≤ 2 ^ 30 }
{
    match places {
        Places::Three => 1000,
        Places::Six => 1_000_000,
        Places::Nine => 1_000_000_000,
    }
}

// A number in units of the last place, rounded to the nearest whole number.
fn rounded(places: Places, n: u128, den: u128) -> u128
    requires num { n ≤ 2 ^ 66 }
    requires positive { 0 < den }
    requires den { den ≤ 2 ^ 66 }
    ensures value { result ≡ rounded places n den }
    ensures within { result ≤ 2 ^ 100 }
{
    (2 * n * units_of(places) + den) / (2 * den)
}

// Writes the last three digits of a number.
fn write_three<K: Sink>(out: &mut K, v: u128) -> Result<(), WriteFault>
    ensures { Wrote K.taken K.faults out.old out.new result (three_digits v) }
{
    write_words(
        out,
        &[
            Word::Count((v / 100 % 10) as u64),
            Word::Count((v / 10 % 10) as u64),
            Word::Count((v % 10) as u64),
        ],
    )
}

// Writes the last six.
fn write_six<K: Sink>(out: &mut K, v: u128) -> Result<(), WriteFault>
    ensures { Wrote K.taken K.faults out.old out.new result (places_text Six v) }
{
    writes_in_turn::<K>();
    write_three(out, v / 1000)?;
    write_three(out, v)
}

// Writes the last nine.
fn write_nine<K: Sink>(out: &mut K, v: u128) -> Result<(), WriteFault>
    ensures { Wrote K.taken K.faults out.old out.new result (places_text Nine v) }
{
    writes_in_turn::<K>();
    write_three(out, v / 1_000_000)?;
    write_six(out, v)
}

// Writes the digits behind the point.
fn write_places<K: Sink>(out: &mut K, places: Places, v: u128) -> Result<(), WriteFault>
    ensures { Wrote K.taken K.faults out.old out.new result (places_text places v) }
{
    match places {
        Places::Three => write_three(out, v),
        Places::Six => write_six(out, v),
        Places::Nine => write_nine(out, v),
    }
}

// What stands before the point, of a number in units of the last place.
fn whole(places: Places, v: u128) -> i128
    requires { v ≤ 2 ^ 100 }
    ensures { result ≡ pos (v / units_of places) }
{
    (v / units_of(places)) as i128
}

// Writes so many units of the last place.
fn write_point<K: Sink>(out: &mut K, places: Places, v: u128) -> Result<(), WriteFault>
    requires { v ≤ 2 ^ 100 }
    ensures { Wrote K.taken K.faults out.old out.new result (point_text places v) }
{
    writes_in_turn::<K>();
    write_words(out, &[Word::Number(whole(places, v)), Word::Text(b".")])?;
    write_places(out, places, v)
}

/// Writes a fraction as a decimal, rounded.
pub(crate) fn write_decimal<K: Sink>(
    out: &mut K,
    places: Places,
    num: i128,
    den: u128,
) -> Result<(), WriteFault>
    requires num { unsigned_abs num ≤ 2 ^ 66 }
    requires positive { 0 < den }
    requires den { den ≤ 2 ^ 66 }
    ensures { Wrote K.taken K.faults out.old out.new result (decimal_text places num den) }
{
    writes_in_turn::<K>();
    write_all(out, sign_text(num))?;
    write_point(out, places, rounded(places, num.unsigned_abs(), den))
}
