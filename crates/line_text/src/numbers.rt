// Numbers of a line.
ghost use Rattle.std.specs.Prelude.{◌≡◌, ◌≤◌, ◌<◌, ◌^◌, pos, length, IfOk};
ghost use Rattle.line_text.specs.Words.{number_of};
ghost use Rattle.line_text.specs.Parts.{each, numbers_of, between, number_in};
ghost use Rattle.std.specs.Ordering.{int_eq};
ghost use Rattle.line_text.specs.Shown.{Says};

use crate::decimal::Decimal;
use crate::error::TextCause;
use crate::words::Words;
use std::alloc::Global;

/// The numbers that words write.
pub fn decimals<'t>(alloc: Global, words: Words<'t>) -> Result<Vec<Decimal<'t>>, TextCause>
    ensures { Says (λ v. v.items) result (each number_of words.entry) }
{
    let mut numbers = Vec::new(alloc);
    let mut rest = words;
    while !rest.is_empty() {
        let Ok((word, behind)) = rest.first() else {
            return Err(TextCause::Syntax);
        };
        let Some(number) = Decimal::read(word) else {
            return Err(TextCause::Syntax);
        };
        numbers.push(number)?;
        rest = behind;
    }
    Ok(numbers)
}

/// The numbers behind a word.
pub fn numbers_of<'t>(
    alloc: Global,
    words: &Words<'t>,
    key: &[u8],
) -> Result<Vec<Decimal<'t>>, TextCause>
    ensures { Says (λ v. v.items) result (numbers_of key.now words.now) }
{
    let rest = words.keyed(key)?;
    decimals(alloc, rest)
}

/// The number, from low to below end.
#[inline]
pub fn between(number: &Decimal, low: u64, end: u64) -> Result<u64, TextCause>
    requires { end ≤ 2 ^ 62 }
    ensures value { Says (λ n. n) result (between low end number.now) }
    ensures range { IfOk result (λ n. n < end) }
{
    match number.narrow() {
        Some(n) if i128::from(low) <= n && n < i128::from(end) => Ok(n as u64),
        _ => Err(TextCause::Limit),
    }
}

/// A word and one number from low to below end.
pub fn number_in(
    alloc: Global,
    words: &Words,
    key: &[u8],
    low: u64,
    end: u64,
) -> Result<u64, TextCause>
    requires { end ≤ 2 ^ 62 }
    ensures value { Says (λ n. n) result (number_in key.now low end words.now) }
    ensures range { IfOk result (λ n. n < end) }
{
    let numbers = numbers_of(alloc, words, key)?;
    match numbers.as_slice() {
        [number] => between(number, low, end),
        _ => Err(TextCause::Syntax),
    }
}

/// Whether the number is that one.
pub fn is_number(number: &Decimal, n: u64) -> bool
    ensures { result ≡ int_eq number.now (pos n) }
{
    match number.narrow() {
        Some(m) => m == i128::from(n),
        None => false,
    }
}

/// Whether the number is that one, which may be below 0.
pub fn is_signed(number: &Decimal, n: i64) -> bool
    ensures { result ≡ int_eq number.now n }
{
    match number.narrow() {
        Some(m) => m == i128::from(n),
        None => false,
    }
}
