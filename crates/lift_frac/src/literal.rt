ghost use Rattle.std.specs.Prelude.{◌≡◌, ◌==◌, ◌+◌, ◌-◌, ◌<◌, ◌≤◌, length, ℕ, ◌++◌, true, IsTrue};
ghost use Rattle.std.specs.Prelude.{take, drop, ◌↔◌};
ghost use Rattle.std.specs.List.{suffix_len, list_all};
ghost use Rattle.std.specs.Char.{is_ascii_digit};
ghost use Rattle.std.specs.Str.Parse.{digits_value_after, digits_value};
ghost use Rattle.lift_bytes.specs.Bytes.{code, first_passes};
ghost use Rattle.lift_frac.specs.Frac.{answer_of};
ghost use Rattle.lift_frac.specs.Grammar.{Writes};
ghost use Rattle.lift_frac.specs.Literal.{Literal, literal_at, digits_of, zeros};
ghost use Rattle.lift_frac.specs.Literal.{scaled, value_of, reading};
ghost use Rattle.lift_frac.specs.Limits.{size_limit};
ghost use Rattle.lift_frac.specs.Parts.{exponent_limit, power_limit, literal_of, capped, AreDigits};

use crate::error::FracError;
use crate::frac::Frac;
use crate::parts::{Parts, literal_at, parts_of};

/// The number from which on a literal's digits are too many for a fraction: `size_limit` in the
/// definitions.
const NUMBER_LIMIT: u128 = 1 << 62;

/// An exponent from which on no text is long enough to make up for it: `exponent_limit` in the
/// definitions.
const EXPONENT_LIMIT: u128 = 1 << 100;

/// The greatest power of ten, up or down: `greatest_power` in the definitions.
const GREATEST_POWER: u128 = 18;

/// How many zeros stand at the end.
fn zeros_len(digits: &[u8]) -> usize
    ensures within { result ≤ length digits.now }
    ensures len { result ≡ suffix_len (λ b. b == code "0") digits.now }
{
    let mut left = digits.len();
    while left > 0 && digits[left - 1] == b'0' {
        left -= 1;
    }
    digits.len() - left
}

/// The number of digits that follow those of another; none from the limit on.
fn more_digits(start: u128, digits: &[u8], limit: u128) -> Option<u128>
    requires digits { list_all is_ascii_digit digits.now ≡ true }
    requires start { start < limit }
    requires limit { limit ≤ exponent_limit }
    ensures { result ≡ capped limit (digits_value_after 10 start digits.now) }
{
    let mut number = start;
    for digit in digits {
        number = number * 10 + u128::from(*digit - b'0');
        if number >= limit {
            return None;
        }
    }
    Some(number)
}

/// The number that digits write, where it is below the limit. Linear in the number of digits.
pub fn number_below(digits: &[u8], limit: u128) -> Option<u128>
    requires digits { list_all is_ascii_digit digits.now ≡ true }
    requires limit { (0 < limit) × (limit ≤ exponent_limit) }
    ensures { result ≡ capped limit (digits_value 10 digits.now) }
{
    more_digits(0, digits, limit)
}

/// How many zeros stand at the end of the digits before the exponent.
fn zeros_of(parts: &Parts) -> usize
    ensures within { result ≤ length parts.now.whole.now + length parts.now.decimals.now }
    ensures zeros { result ≡ zeros (literal_of parts.now) }
{
    let zeros = zeros_len(parts.decimals);
    if zeros == parts.decimals.len() {
        zeros + zeros_len(parts.whole)
    } else {
        zeros
    }
}

/// The number of two pieces of digits; none from 2^62 on.
fn number_of_two(whole: &[u8], decimals: &[u8]) -> Option<u128>
    requires whole { list_all is_ascii_digit whole.now ≡ true }
    requires decimals { list_all is_ascii_digit decimals.now ≡ true }
    ensures { result ≡ capped size_limit (digits_value 10 (whole.now ++ decimals.now)) }
{
    match number_below(whole, NUMBER_LIMIT) {
        Some(number) => more_digits(number, decimals, NUMBER_LIMIT),
        None => None,
    }
}

/// The number of the digits before the exponent without the zeros at their end; none from 2^62 on.
fn number_of(parts: &Parts, zeros: usize) -> Option<u128>
    requires digits { AreDigits parts.now }
    requires zeros { zeros ≤ length parts.now.whole.now + length parts.now.decimals.now }
    ensures { let digits = digits_of (literal_of parts.now) in
        result ≡ capped size_limit (digits_value 10 (take (length digits - zeros) digits)) }
{
    if zeros <= parts.decimals.len() {
        let kept = parts.decimals.len() - zeros;
        number_of_two(parts.whole, &parts.decimals[..kept])
    } else {
        let kept = parts.whole.len() - (zeros - parts.decimals.len());
        number_of_two(&parts.whole[..kept], &[])
    }
}

/// The number times ten to the power `up - down`.
fn scaled(number: u128, up: u128, down: u128) -> Result<Frac, FracError>
    requires number { 0 < number }
    requires small { number < size_limit }
    requires up { up < power_limit }
    requires down { down < power_limit }
    ensures { answer_of result ≡ scaled number up down }
{
    if down + GREATEST_POWER < up || up + GREATEST_POWER < down {
        Err(FracError::Wide)
    } else if down <= up {
        let power = 10_u128.pow((up - down) as u32);
        Frac::reduced((number * power) as i128, 1)
    } else {
        let power = 10_u128.pow((down - up) as u32);
        Frac::reduced(number as i128, power as i128)
    }
}

/// What a literal with these parts is worth.
fn value_of(parts: &Parts) -> Result<Frac, FracError>
    requires { AreDigits parts.now }
    ensures { answer_of result ≡ value_of (literal_of parts.now) }
{
    let zeros = zeros_of(parts);
    let number = number_of(parts, zeros).ok_or(FracError::Wide)?;
    if number == 0 {
        return Ok(Frac::whole(0));
    }
    let exponent = number_below(parts.exponent, EXPONENT_LIMIT).ok_or(FracError::Wide)?;
    let (up, down) = (zeros as u128, parts.decimals.len() as u128);
    if parts.negative {
        scaled(number, up, down + exponent)
    } else {
        scaled(number, up + exponent, down)
    }
}

/// The fraction that a literal writes: digits, then maybe a point and digits, then maybe `e` or
/// `E`, maybe a sign, and digits.
///
/// `BadLiteral` exactly where the text isn't a literal. `Wide` exactly where the fraction isn't 0
/// and its digits without the zeros at their end make 2^62 or more, their power of ten is above
/// 18 or below -18, or a part in lowest terms is 2^62 or more. Linear in the text's length.
pub fn read_literal(text: &[u8]) -> Result<Frac, FracError>
    ensures answer { answer_of result ≡ reading text.now }
    ensures literal { (l : Literal) → Writes text.now l → answer_of result ≡ value_of l }
    ensures bad { (result ≡ Err FracError.BadLiteral) ↔ ((l : Literal) → ¬ Writes text.now l) }
{
    let Some(parts) = parts_of(text) else {
        return Err(FracError::BadLiteral);
    };
    value_of(&parts)
}

/// How many bytes the longest literal at the front of the text has. A point or an exponent belongs
/// to it only where a digit follows.
pub fn literal_len(text: &[u8]) -> usize
    requires { IsTrue (first_passes is_ascii_digit text.now) }
    ensures within { (0 < result) × (result ≤ length text.now) }
    ensures literal { Writes (take result text.now) (literal_at text.now).0 }
    ensures rest { drop result text.now ≡ (literal_at text.now).1 }
    ensures longest { (n : ℕ) (l : Literal) → n ≤ length text.now → Writes (take n text.now) l
        → n ≤ result }
{
    let (_, rest) = literal_at(text);
    text.len() - rest.len()
}
