ghost use Rattle.std.specs.Prelude.{◌≡◌, ◌<◌, ◌≤◌, length, true, IfSome, Some, None, take_while, if◌then◌else◌};
ghost use Rattle.std.specs.List.{prefix_len, list_all};
ghost use Rattle.std.specs.Option.{option_map};
ghost use Rattle.std.specs.Char.{is_ascii_digit};
ghost use Rattle.lift_bytes.specs.Bytes.{first_passes, behind};
ghost use Rattle.lift_frac.specs.Literal.{decimals_at};
ghost use Rattle.lift_frac.specs.Literal.{sign_at, exponent_at, literal_at, is_literal};
ghost use Rattle.lift_frac.specs.Parts.{literal_of, AreDigits};

use lift_bytes::digits_len;

/// The parts of a literal, each a piece of its text. What isn't written is empty.
#[derive(Clone, Copy)]
pub(crate) struct Parts<'a> {
    pub whole: &'a [u8],
    pub decimals: &'a [u8],
    pub negative: bool,
    pub exponent: &'a [u8],
}

fn begins_digit(text: &[u8]) -> bool
    ensures { result ≡ first_passes is_ascii_digit text.now }
{
    match text {
        [first, ..] => first.is_ascii_digit(),
        [] => false,
    }
}

/// The digits at the front, and what stands behind them.
#[tactic(auto, using(crate::proofs::Fronts::front_passes))]
fn split_digits(text: &[u8]) -> (&[u8], &[u8])
    ensures front { result.0.now ≡ take_while is_ascii_digit text.now }
    ensures digits { list_all is_ascii_digit result.0.now ≡ true }
    ensures rest { result.1.now ≡ behind is_ascii_digit text.now }
    ensures shorter { length result.1.now ≤ length text.now }
    ensures taken { first_passes is_ascii_digit text.now ≡ true → length result.1.now < length text.now }
{
    let len = digits_len(text);
    (&text[..len], &text[len..])
}

/// The digits of a point at the front, and what stands behind them.
fn decimals_at(text: &[u8]) -> (&[u8], &[u8])
    ensures value { (result.0.now, result.1.now) ≡ decimals_at text.now }
    ensures shorter { length result.1.now ≤ length text.now }
    ensures digits { list_all is_ascii_digit result.0.now ≡ true }
{
    match text {
        [b'.', rest @ ..] if begins_digit(rest) => split_digits(rest),
        _ => (&[], text),
    }
}

/// Whether a minus stands at the front, and what stands behind a sign.
fn sign_at(text: &[u8]) -> (bool, &[u8])
    ensures value { (result.0, result.1.now) ≡ sign_at text.now }
    ensures shorter { length result.1.now ≤ length text.now }
{
    match text {
        [b'-', rest @ ..] => (true, rest),
        [b'+', rest @ ..] => (false, rest),
        _ => (false, text),
    }
}

/// Whether an exponent at the front has a minus, its digits, and what stands behind them.
fn exponent_at(text: &[u8]) -> (bool, &[u8], &[u8])
    ensures value { (result.0, result.1.now, result.2.now) ≡ exponent_at text.now }
    ensures shorter { length result.2.now ≤ length text.now }
    ensures digits { list_all is_ascii_digit result.1.now ≡ true }
{
    if let [b'e' | b'E', rest @ ..] = text {
        let (negative, digits) = sign_at(rest);
        if begins_digit(digits) {
            let (exponent, rest) = split_digits(digits);
            return (negative, exponent, rest);
        }
    }
    (false, &[], text)
}

/// The longest literal at the front, and what stands behind it.
pub(crate) fn literal_at(text: &[u8]) -> (Parts<'_>, &[u8])
    ensures value { (literal_of result.0, result.1.now) ≡ literal_at text.now }
    ensures shorter { length result.1.now ≤ length text.now }
    ensures taken { first_passes is_ascii_digit text.now ≡ true → length result.1.now < length text.now }
    ensures digits { AreDigits result.0 }
{
    let (whole, rest) = split_digits(text);
    let (decimals, rest) = decimals_at(rest);
    let (negative, exponent, rest) = exponent_at(rest);
    let parts = Parts {
        whole,
        decimals,
        negative,
        exponent,
    };
    (parts, rest)
}

/// The parts of a text that is a literal.
pub(crate) fn parts_of(text: &[u8]) -> Option<Parts<'_>>
    ensures digits { IfSome result AreDigits }
    ensures value { option_map literal_of result
        ≡ (if is_literal text.now then Some (literal_at text.now).0 else None) }
{
    let (parts, rest) = literal_at(text);
    if begins_digit(text) && rest.is_empty() {
        Some(parts)
    } else {
        None
    }
}
