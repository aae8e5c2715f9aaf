// Lines of a head.
ghost use Rattle.std.specs.Prelude.{◌≡◌, ◌≤◌, ◌<◌, ◌+◌, ◌^◌, ◌%◌, ◌∷◌, [], length, map, pos, codes, ◌==◌, ◌<ℤ◌, unsigned_abs, drop, true, None, Ok, IfOk, IfSome};
ghost use Rattle.cert_text.specs.Lines.{version_in, version_of, kind_named, kind_of, name_of};
ghost use Rattle.line_text.specs.Parts.{each, is_above};
ghost use Rattle.cert_text.specs.Lines.{count_in, row_of, bound_in, bound_of, goals_in, flags, goal_of, parameters_of, names_in};
ghost use Rattle.line_text.specs.Parts.{count_of, numbers_of};
ghost use Rattle.lift_frac.specs.Gcd.{gcd};
ghost use Rattle.line_text.specs.Shown.{Says};
ghost use Rattle.cert_text.specs.Shown.{comes_first};

use crate::rows::Left;
use lift_bytes::is_name;
use lift_cert::Bound;
use lift_frac::gcd;
use lift_model::Kind;
use line_text::{Decimal, TextCause, Words, between, decimals, is_number, numbers_of, pair_of};
use std::alloc::{AllocError, Global};

/// Above each part of a bound.
const PART_LIMIT: u64 = 1 << 32;

/// Whether that is the number of the second version, and not of the first.
fn version_in(number: &Decimal) -> Result<bool, TextCause>
    ensures { Says (λ x. x) result (version_in number.now) }
{
    if is_number(number, 1) {
        Ok(false)
    } else if is_number(number, 2) {
        Ok(true)
    } else {
        Err(TextCause::Version)
    }
}

/// Whether the version is the second one, and not the first.
pub(crate) fn version_of(alloc: Global, words: &Words) -> Result<bool, TextCause>
    ensures { Says (λ x. x) result (version_of words.now) }
{
    let numbers = numbers_of(alloc, words, b"plift")?;
    match numbers.as_slice() {
        [number] => version_in(number),
        _ => Err(TextCause::Syntax),
    }
}

/// The kind of that name.
fn kind_named(word: &[u8]) -> Result<Kind, TextCause>
    ensures { Says (λ x. x) result (kind_named word.now) }
{
    if word == b"dtmc".as_slice() {
        Ok(Kind::Dtmc)
    } else if word == b"mdp".as_slice() {
        Ok(Kind::Mdp)
    } else {
        Err(TextCause::Syntax)
    }
}

/// The kind.
pub(crate) fn kind_of(words: &Words) -> Result<Kind, TextCause>
    ensures { Says (λ x. x) result (kind_of words.now) }
{
    let rest = words.keyed(b"kind")?;
    let word = rest.single()?;
    kind_named(word)
}

/// Whether the number is above the one before it.
pub(crate) fn is_above(before: Option<u64>, number: &Decimal) -> bool
    ensures { result ≡ is_above before number.now }
{
    match before {
        None => true,
        Some(n) => match number.narrow() {
            Some(m) => i128::from(n) < m,
            None => !number.is_below_zero(),
        },
    }
}

/// The states, if they ascend.
fn goals_in(alloc: Global, states: u32, numbers: &[Decimal]) -> Result<Vec<u64>, TextCause>
    ensures { Says (λ v. v.items) result (goals_in states None numbers.now) }
{
    let mut goals = Vec::new(alloc);
    let mut before = None;
    for number in numbers {
        if !is_above(before, number) {
            return Err(TextCause::Syntax);
        }
        match between(number, 0, u64::from(states)) {
            Ok(s) => {
                goals.push(s)?;
                before = Some(s);
            }
            Err(cause) => return Err(cause),
        }
    }
    Ok(goals)
}

/// Whether that state comes first of those that are left.
fn is_next(goals: &[u64], next: usize, s: u32) -> bool
    requires { next ≤ length goals.now }
    ensures value { result ≡ comes_first s (drop next goals.now) }
    ensures some { result ≡ true → next < length goals.now }
{
    next < goals.len() && goals[next] == u64::from(s)
}

/// For each state whether it stands in the ascending list.
fn flags(alloc: Global, states: u32, goals: &[u64]) -> Result<Vec<bool>, AllocError>
    ensures { IfOk result (λ v. v.items ≡ flags states 0 goals.now) }
{
    let mut flags = Vec::new(alloc);
    let mut next = 0;
    for s in 0..states {
        if is_next(goals, next, s) {
            flags.push(true)?;
            next += 1;
        } else {
            flags.push(false)?;
        }
    }
    Ok(flags)
}

/// The first of the words behind a word, as the number of those that follow it, and these.
#[inline(always)]
pub(crate) fn counted<'t>(
    words: &Words<'t>,
    key: &[u8],
) -> Result<(Decimal<'t>, Words<'t>), TextCause>
    ensures { Says (λ x. x) result (count_of key.now words.now) }
{
    let rest = words.keyed(key)?;
    match rest.number() {
        Some(count) => Ok(count),
        None => Err(TextCause::Syntax),
    }
}

/// The first of the words behind a word, as the number of few digits of those that follow it, and these;
/// none where it writes no such number.
#[inline(always)]
pub(crate) fn short_counted<'t>(words: &Words<'t>, key: &[u8]) -> Option<(u64, Words<'t>)>
    ensures { IfSome result (λ x. count_of key.now words.now ≡ Ok (pos x.0, x.1)) }
{
    let Ok(rest) = words.keyed(key) else {
        return None;
    };
    rest.short()
}

/// For each of so many states whether it is a goal state.
pub(crate) fn goal_of(alloc: Global, states: u32, words: &Words) -> Result<Vec<bool>, TextCause>
    ensures { Says (λ v. v.items) result (goal_of states words.now) }
{
    let (count, rest) = counted(words, b"goal")?;
    let numbers = decimals(alloc, rest)?;
    if !is_number(&count, numbers.len() as u64) {
        return Err(TextCause::Syntax);
    }
    if numbers.is_empty() {
        return Err(TextCause::Syntax);
    }
    let goals = goals_in(alloc, states, &numbers)?;
    let flags = flags(alloc, states, &goals)?;
    Ok(flags)
}

/// How many entries a row has, where so many choices and transitions are left.
fn count_in(number: &Decimal, left: Left) -> Result<u32, TextCause>
    ensures value { Says (λ n. n) result (count_in left.choices left.transitions number.now) }
    ensures some { IfOk result (λ _. 0 < left.choices) }
{
    if number.is_below_zero() {
        return Err(TextCause::Syntax);
    }
    match number.narrow() {
        Some(n) if left.choices > 0 && n <= i128::from(left.transitions) => Ok(n as u32),
        _ => Err(TextCause::Limit),
    }
}

/// The three numbers of few digits that a row's line tells behind its name; none where it tells others.
fn short_numbers(words: &Words) -> Option<(u64, u64, u64)>
    ensures { IfSome result (λ x. numbers_of (codes "row") words.now ≡ Ok (pos x.0 ∷ pos x.1 ∷ pos x.2 ∷ [])) }
{
    let Ok(rest) = words.keyed(b"row") else {
        return None;
    };
    let (state, rest) = rest.short()?;
    let (choice, rest) = rest.short()?;
    let (count, rest) = rest.short()?;
    if rest.is_empty() {
        Some((state, choice, count))
    } else {
        None
    }
}

/// How many entries the row of state s and choice a has, by numbers of few digits; none where its line
/// doesn't tell it so.
#[tactic(auto, using(crate::proofs::FirstNumbers::row_is))]
fn short_row(words: &Words, s: u32, a: u32, left: Left) -> Option<u32>
    ensures value { IfSome result (λ n. row_of s a left.choices left.transitions words.now ≡ Ok n) }
    ensures some { IfSome result (λ _. 0 < left.choices) }
{
    let (state, choice, count) = short_numbers(words)?;
    if state != u64::from(s) || choice != u64::from(a) {
        return None;
    }
    if left.choices == 0 || count > u64::from(left.transitions) {
        return None;
    }
    Some(count as u32)
}

/// How many entries the row of state s and choice a has, where so many choices and transitions are left.
pub(crate) fn row_of(
    alloc: Global,
    words: &Words,
    s: u32,
    a: u32,
    left: Left,
) -> Result<u32, TextCause>
    ensures value { Says (λ n. n) result (row_of s a left.choices left.transitions words.now) }
    ensures some { IfOk result (λ _. 0 < left.choices) }
{
    if let Some(count) = short_row(words, s, a, left) {
        return Ok(count);
    }
    let numbers = numbers_of(alloc, words, b"row")?;
    match numbers.as_slice() {
        [state, choice, count] => {
            if is_number(state, u64::from(s)) && is_number(choice, u64::from(a)) {
                count_in(count, left)
            } else {
                Err(TextCause::Syntax)
            }
        }
        _ => Err(TextCause::Syntax),
    }
}

/// Whether the fraction is in lowest terms. What the numerator leaves of the denominator tells it, so
/// that the denominator may have any length.
fn is_lowest(num: u32, den: &Decimal) -> bool
    requires { pos 0 <ℤ den.now }
    ensures { result ≡ gcd num (unsigned_abs den.now) == 1 }
{
    if num == 0 {
        is_number(den, 1)
    } else {
        gcd(u128::from(den.remainder(num)), u128::from(num)) == 1
    }
}

/// The fraction of two numbers, in lowest terms and from 0 to 1.
fn bound_in(num: &Decimal, den: &Decimal) -> Result<Bound, TextCause>
    ensures { Says (λ b. b) result (bound_in (num.now, den.now)) }
{
    let num = between(num, 0, PART_LIMIT)? as u32;
    if den.is_below_zero() || is_number(den, 0) {
        return Err(TextCause::Limit);
    }
    if !is_lowest(num, den) {
        return Err(TextCause::Syntax);
    }
    match den.narrow() {
        Some(n) if n < i128::from(PART_LIMIT) && i128::from(num) <= n => Ok(Bound {
            num,
            den: n as u32,
        }),
        _ => Err(TextCause::Limit),
    }
}

/// The bound.
pub(crate) fn bound_of(words: &Words) -> Result<Bound, TextCause>
    ensures { Says (λ b. b) result (bound_of words.now) }
{
    let rest = words.keyed(b"bound")?;
    let word = rest.single()?;
    let Some((num, den)) = pair_of(word, b'/') else {
        return Err(TextCause::Syntax);
    };
    bound_in(&num, &den)
}

/// The names that words write.
pub(crate) fn names<'t>(alloc: Global, words: Words<'t>) -> Result<Vec<&'t [u8]>, TextCause>
    ensures { Says (λ v. map (λ w. w.now) v.items) result (each name_of words.entry) }
{
    let mut names = Vec::new(alloc);
    let mut rest = words;
    while !rest.is_empty() {
        let Ok((word, behind)) = rest.first() else {
            return Err(TextCause::Syntax);
        };
        if !is_name(word) {
            return Err(TextCause::Syntax);
        }
        names.push(word)?;
        rest = behind;
    }
    Ok(names)
}
