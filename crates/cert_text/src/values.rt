// Numbers of a leaf.
ghost use Rattle.std.specs.Prelude.{◌≡◌, ◌≤◌, [], pos, true, length, IfOk};
ghost use Rattle.corner_lift.specs.Case.{most_precision};
ghost use Rattle.cert_text.specs.Lines.{values_of};
ghost use Rattle.line_text.specs.Words.{words};
ghost use Rattle.line_text.specs.Shown.{Says};
ghost use Rattle.cert_text.specs.Left.{value_first, values_left};
ghost use Rattle.cert_text.specs.Shown.{in_values};

use corner_lift::one_at;
use line_text::{Decimal, TextCause, Words};
use std::alloc::Global;

/// The number, if it is from 0 to 2 to the `u`.
fn value(number: &Decimal, u: u32) -> Option<i64>
    requires { u ≤ most_precision }
    ensures { result ≡ in_values u number.now }
{
    let most = one_at(u);
    match number.narrow() {
        Some(n) if 0 <= n && n <= i128::from(most) => Some(n as i64),
        _ => None,
    }
}

/// The number, if it is at most 2 to the `u`.
fn short_value(n: u64, u: u32) -> Option<i64>
    requires { u ≤ most_precision }
    ensures { result ≡ in_values u (pos n) }
{
    let most = one_at(u) as u64;
    if n <= most { Some(n as i64) } else { None }
}

/// The number of any length that the first word of a text writes, if it is in that range, and the words behind
/// it.
#[inline(never)]
fn long_first<'t>(text: &'t [u8], u: u32) -> Option<(Option<i64>, Words<'t>)>
    requires { u ≤ most_precision }
    ensures { result ≡ value_first u (words text.now) }
{
    let (number, rest) = Words::of(text).number()?;
    Some((value(&number, u), rest))
}

/// The number that the first word writes, if it is in that range, and the words behind it.
fn value_first<'t>(words: &Words<'t>, u: u32) -> Option<(Option<i64>, Words<'t>)>
    requires { u ≤ most_precision }
    ensures { result ≡ value_first u words.now }
{
    if let Some((n, rest)) = words.short() {
        return Some((short_value(n, u), rest));
    }
    let (value, rest) = long_first(words.text()?, u)?;
    Some((value, rest))
}

/// The numbers that words write, if there are so many, and each is from 0 to 2 to the `u`. The form of
/// all of them is told first.
fn values<'t>(alloc: Global, words: Words<'t>, count: u32, u: u32) -> Result<Vec<i64>, TextCause>
    requires { u ≤ most_precision }
    ensures value { Says (λ v. v.items) result (values_left count u [] true words.entry) }
    ensures size { IfOk result (λ v. length v.items ≡ count) }
{
    let mut values = Vec::with_capacity(alloc, count as usize)?;
    let mut fit = true;
    let mut rest = words;
    while !rest.is_empty() {
        let Some((value, behind)) = value_first(&rest, u) else {
            return Err(TextCause::Syntax);
        };
        match value {
            Some(n) => values.push(n)?,
            None => {
                values.push(0)?;
                fit = false;
            }
        }
        rest = behind;
    }
    if values.len() != count as usize {
        return Err(TextCause::Syntax);
    }
    if !fit {
        return Err(TextCause::Limit);
    }
    Ok(values)
}

/// So many numbers from 0 to 2 to the `u` behind a word.
pub(crate) fn values_of(
    alloc: Global,
    words: &Words,
    key: &[u8],
    count: u32,
    u: u32,
) -> Result<Vec<i64>, TextCause>
    requires { u ≤ most_precision }
    ensures value { Says (λ v. v.items) result (values_of key.now count u words.now) }
    ensures size { IfOk result (λ v. length v.items ≡ count) }
{
    let rest = words.keyed(key)?;
    values(alloc, rest, count, u)
}
