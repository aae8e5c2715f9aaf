// The parts of a region's text. Each reader passes over blanks, and answers what stands behind its
// part too.
ghost use Rattle.std.specs.Prelude.{◌≡◌, ◌∷◌, ◌≤◌, [], length, map, option_copied, option_map};
ghost use Rattle.lift_frac.specs.Frac.{answer_of};
ghost use Rattle.lift_grid.specs.Region.{behind_mark, literal_at, sign_at, divisor_at, quotient, end_at, name_at, behind_at_most, Gives};

use crate::error::RegionError;
use lift_bytes::{begins_name, name_len, trimmed_front};
use lift_frac::{Frac, FracError, literal_len, read_literal};

/// A number that is written, or why it isn't given.
pub(crate) type Number = Result<Frac, FracError>;

/// What stands behind a mark.
pub(crate) fn behind_mark<'a>(mark: &[u8], text: &'a [u8]) -> Option<&'a [u8]>
    ensures { option_copied result ≡ behind_mark mark.now text.now }
{
    trimmed_front(text).strip_prefix(mark)
}

/// A literal's value.
#[tactic(auto, unfolding(crate::specs::Region::literal_at))]
fn literal_at(text: &[u8]) -> Result<(Number, &[u8]), RegionError>
    ensures { Gives (λ p. (answer_of p.0, p.1.now)) result (literal_at text.now) }
{
    let rest = trimmed_front(text);
    match rest {
        [b'0'..=b'9', ..] => {
            let (literal, rest) = rest.split_at(literal_len(rest));
            Ok((read_literal(literal), rest))
        }
        _ => Err(RegionError::Syntax),
    }
}

/// Whether a minus stands there.
#[tactic(auto, unfolding(crate::specs::Region::sign_at))]
fn sign_at(text: &[u8]) -> (bool, &[u8])
    ensures { (result.0, result.1.now) ≡ sign_at text.now }
{
    match behind_mark(b"-", text) {
        Some(rest) => (true, rest),
        None => (false, text),
    }
}

/// A slash and a literal's value; 1 where no slash stands there.
#[tactic(auto, unfolding(crate::specs::Region::divisor_at))]
fn divisor_at(text: &[u8]) -> Result<(Number, &[u8]), RegionError>
    ensures { Gives (λ p. (answer_of p.0, p.1.now)) result (divisor_at text.now) }
{
    match behind_mark(b"/", text) {
        Some(rest) => literal_at(rest),
        None => Ok((Ok(Frac::whole(1)), text)),
    }
}

/// One number over another: `Zero` where the divisor is 0, and else `Wide` where a number or the
/// result is too wide.
#[tactic(auto, unfolding(crate::specs::Region::quotient))]
fn quotient(negative: bool, above: Number, below: Number) -> Number
    ensures { answer_of result ≡ quotient negative (answer_of above) (answer_of below) }
{
    let Ok(divisor) = below else {
        return Err(FracError::Wide);
    };
    if divisor.num == 0 {
        return Err(FracError::Zero);
    }
    match above {
        Ok(number) if negative => number.neg().div(divisor),
        Ok(number) => number.div(divisor),
        Err(_) => Err(FracError::Wide),
    }
}

/// An end's value.
#[tactic(auto, unfolding(crate::specs::Region::end_at))]
pub(crate) fn end_at(text: &[u8]) -> Result<(Number, &[u8]), RegionError>
    ensures { Gives (λ p. (answer_of p.0, p.1.now)) result (end_at text.now) }
{
    let (negative, rest) = sign_at(text);
    let (above, rest) = literal_at(rest)?;
    let (below, rest) = divisor_at(rest)?;
    Ok((quotient(negative, above, below), rest))
}

/// A name.
#[tactic(auto, unfolding(crate::specs::Region::name_at))]
pub(crate) fn name_at(text: &[u8]) -> Result<(&[u8], &[u8]), RegionError>
    ensures { Gives (λ p. (p.0.now, p.1.now)) result (name_at text.now) }
{
    let rest = trimmed_front(text);
    match rest.first() {
        Some(byte) if begins_name(*byte) => Ok(rest.split_at(name_len(rest))),
        _ => Err(RegionError::Syntax),
    }
}

/// What stands behind `<=`.
pub(crate) fn behind_at_most(text: &[u8]) -> Result<&[u8], RegionError>
    ensures { Gives (λ r. r.now) result (behind_at_most text.now) }
{
    behind_mark(b"<=", text).ok_or(RegionError::Syntax)
}
