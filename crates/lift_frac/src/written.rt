//! Fractions as they are written: a literal, or one literal over another.
ghost use Rattle.std.specs.Prelude.{◌≡◌, ◌<◌};
ghost use Rattle.std.specs.Option.{option_map};
ghost use Rattle.lift_frac.specs.Frac.{answer_of, ratio_of};
ghost use Rattle.lift_frac.specs.Written.{cut_at, divided, written_ratio};

use crate::error::FracError;
use crate::frac::Frac;
use crate::literal::read_literal;

/// What stands before and behind the first `mark`, an ASCII character.
pub fn cut_at(text: &str, mark: char) -> Option<(&str, &str)>
    requires { mark < 128 }
    ensures { option_map (λ parts. (parts.0.now, parts.1.now)) result ≡ cut_at mark text.now }
{
    text.split_once(mark)
}

/// One number over another, of which either may be missing.
fn divided(above: Result<Frac, FracError>, below: Result<Frac, FracError>) -> Option<Frac>
    ensures { option_map ratio_of result ≡ divided (answer_of above) (answer_of below) }
{
    above.ok()?.div(below.ok()?).ok()
}

/// The fraction that a word writes as `literal` or `literal/literal`.
///
/// None where a part is no literal or too wide, where the divisor is 0, or where the fraction is
/// too wide.
pub fn read_ratio(word: &str) -> Option<Frac>
    ensures { option_map ratio_of result ≡ written_ratio word.now }
{
    match cut_at(word, '/') {
        Some((above, below)) => divided(
            read_literal(above.as_bytes()),
            read_literal(below.as_bytes()),
        ),
        None => read_literal(word.as_bytes()).ok(),
    }
}
