// The value of a reward: a literal, or one literal over another.
ghost use Rattle.std.specs.Prelude.{◌≡◌};
ghost use Rattle.std.specs.Option.{option_map};
ghost use Rattle.lift_bytes.specs.Bytes.{code};
ghost use Rattle.lift_frac.specs.Frac.{answer_of};
ghost use Rattle.lift_frac.specs.Written.{cut_at};
ghost use Rattle.drn_read.specs.Rewards.{quotient, reward_value};

use lift_bytes::len_before;
use lift_frac::{Frac, FracError, read_literal};

/// What stands before and behind the first `/` of a text.
fn cut_at_slash(text: &[u8]) -> Option<(&[u8], &[u8])>
    ensures { option_map (λ parts. (parts.0.now, parts.1.now)) result ≡ cut_at (code "/") text.now }
{
    let len = len_before(text, b'/');
    if len < text.len() {
        Some((&text[..len], &text[len + 1..]))
    } else {
        None
    }
}

/// One literal over another. `BadLiteral` comes before `Zero`, and that before `Wide`.
fn quotient(
    above: Result<Frac, FracError>,
    below: Result<Frac, FracError>,
) -> Result<Frac, FracError>
    ensures { answer_of result ≡ quotient (answer_of above) (answer_of below) }
{
    match (above, below) {
        (Err(FracError::BadLiteral), _) | (_, Err(FracError::BadLiteral)) => {
            Err(FracError::BadLiteral)
        }
        (Ok(above), Ok(below)) => above.div(below),
        (Err(_), Ok(below)) if below.num == 0 => Err(FracError::Zero),
        _ => Err(FracError::Wide),
    }
}

/// The value that a text writes. `BadLiteral` where it writes none.
pub(crate) fn read_reward(text: &[u8]) -> Result<Frac, FracError>
    ensures { answer_of result ≡ reward_value text.now }
{
    match cut_at_slash(text) {
        Some((above, below)) => quotient(read_literal(above), read_literal(below)),
        None => read_literal(text),
    }
}
