// A value on the command line.
ghost use Rattle.std.specs.Prelude.{◌≡◌, ◌*ℤ◌, int_le};
ghost use Rattle.std.specs.Option.{option_map};
ghost use Rattle.lift_frac.specs.Frac.{ratio_of};
ghost use Rattle.view_words.specs.Value.{is_inside, opposite, signed, value_of};

use lift_frac::{Frac, cut_at, read_ratio};

fn opposite(value: Option<Frac>) -> Option<Frac>
    ensures { option_map ratio_of result ≡ opposite (option_map ratio_of value) }
{
    Some(value?.neg())
}

// A word, or where a minus stands at its front what is behind that.
fn signed(word: &str, before: &str, behind: &str) -> Option<Frac>
    ensures { option_map ratio_of result ≡ signed word.now (before.now, behind.now) }
{
    if before.is_empty() {
        opposite(read_ratio(behind))
    } else {
        read_ratio(word)
    }
}

/// A fraction, written `literal` or `literal/literal`, maybe behind a minus.
pub fn value_of(word: &str) -> Option<Frac>
    ensures { option_map ratio_of result ≡ value_of word.now }
{
    match cut_at(word, '-') {
        Some((before, behind)) => signed(word, before, behind),
        None => read_ratio(word),
    }
}

// The product, which can't overflow.
fn times(a: i64, b: i64) -> i128
    ensures { result ≡ a *ℤ b }
{
    i128::from(a) * i128::from(b)
}

fn is_at_most(a: i128, b: i128) -> bool
    ensures { result ≡ int_le a b }
{
    a <= b
}

/// Whether the fraction `num / den` lies in a span over the grid `d`.
pub fn is_inside(d: i64, span: (i64, i64), num: i64, den: i64) -> bool
    ensures { result ≡ is_inside d span num den }
{
    let value = times(num, d);
    is_at_most(times(span.0, den), value) && is_at_most(value, times(span.1, den))
}
