//! Quotients of sums by wholes, rounded to a whole number; and the least number from a given one on that is at least the
//! quotient.

ghost use Rattle.std.specs.Prelude.{◌≡◌, ◌/◌, ◌*◌, ◌^◌, ◌<◌, ◌≤◌, ◌≤ℤ◌, ◌<ℤ◌, ◌+ℤ◌, ◌-ℤ◌, ◌*ℤ◌, pos, unsigned_abs, IsTrue, IsFalse, IfSome};
ghost use Rattle.corner_lift.specs.Case.{engine_limit, most_precision};
ghost use Rattle.corner_lift.specs.Quotient.{IsRoundedUp, IsRoundedUpFrom, IsRoundedDown, AtEachScale};

use crate::paired::LaneSum;
use std::num::{nearest_i64_to_f64, saturating_f64_to_i64};

/// The quotient of two numbers. Where they fit 64 bits, so does the division.
#[inline(always)]
pub fn quotient_of(sum: u128, whole: u128) -> u128
    requires { 1 ≤ whole }
    ensures { result ≡ sum / whole }
{
    let most = u128::from(u64::MAX);
    if sum <= most && whole <= most {
        return u128::from(sum as u64 / whole as u64);
    }
    sum / whole
}

/// The quotient, rounded down to a whole number.
#[inline(always)]
pub fn rounded_down(sum: i128, whole: i128) -> i64
    requires sum { pos 0 ≤ℤ sum }
    requires whole { pos 1 ≤ℤ whole }
    requires most { sum <ℤ (pos (2 ^ 41) *ℤ whole) }
    ensures least { pos 0 ≤ℤ result }
    ensures quotient { IsRoundedDown sum whole result }
{
    quotient_of(sum as u128, whole as u128) as i64
}

/// The quotient, rounded up to a whole number, as floats say it: nothing is proved of it.
#[inline(always)]
fn guessed_quotient(sum: i64, whole: i64) -> i64 {
    let low = saturating_f64_to_i64(nearest_i64_to_f64(sum) / nearest_i64_to_f64(whole));
    low.saturating_add(i64::from(low.wrapping_mul(whole) < sum))
}

/// Whether this multiple of the whole is at least the sum, and the one before it is not.
#[inline(always)]
fn is_first_from(sum: i64, whole: i64, multiple: i64) -> bool
    requires least { pos 0 ≤ℤ sum }
    requires positive { pos 1 ≤ℤ whole }
    ensures { IsTrue result → (sum ≤ℤ multiple) × ((multiple -ℤ whole) <ℤ sum) }
{
    sum <= multiple && multiple - whole < sum
}

/// Whether this is the quotient, rounded up to a whole number.
#[inline(always)]
fn is_rounded_up(sum: i64, whole: i64, quotient: i64) -> bool
    requires least { pos 0 ≤ℤ sum }
    requires positive { pos 1 ≤ℤ whole }
    ensures { IsTrue result → IsRoundedUp sum whole quotient }
{
    match quotient.checked_mul(whole) {
        Some(multiple) => is_first_from(sum, whole, multiple),
        None => false,
    }
}

/// The quotient, rounded up to a whole number, where floats find it, which takes less time than a division.
#[inline(always)]
pub fn short_rounded_up(sum: i64, whole: i64) -> Option<i64>
    requires least { pos 0 ≤ℤ sum }
    requires positive { pos 1 ≤ℤ whole }
    ensures { IfSome result (λ quotient. IsRoundedUp sum whole quotient) }
{
    let quotient = guessed_quotient(sum, whole);
    if is_rounded_up(sum, whole, quotient) {
        Some(quotient)
    } else {
        None
    }
}

/// The same where 64 bits hold the numbers.
#[inline(always)]
fn quick_rounded_up(sum: i128, whole: i128) -> Option<i64>
    requires least { pos 0 ≤ℤ sum }
    requires positive { pos 1 ≤ℤ whole }
    ensures { IfSome result (λ quotient. IsRoundedUp sum whole quotient) }
{
    let Ok(short_sum) = i64::try_from(sum) else {
        return None;
    };
    let Ok(short_whole) = i64::try_from(whole) else {
        return None;
    };
    short_rounded_up(short_sum, short_whole)
}

/// The same, by a division.
fn divided(sum: i128, whole: i128) -> i64
    requires least { pos 0 ≤ℤ sum }
    requires positive { pos 1 ≤ℤ whole }
    requires most { sum ≤ℤ (pos (2 ^ most_precision) *ℤ whole) }
    ensures { IsRoundedUp sum whole result }
{
    (sum as u128).div_ceil(whole as u128) as i64
}

/// The quotient, rounded up to a whole number.
#[inline]
pub fn rounded_up(sum: i128, whole: i128) -> i64
    requires least { pos 0 ≤ℤ sum }
    requires positive { pos 1 ≤ℤ whole }
    requires most { sum ≤ℤ (pos (2 ^ most_precision) *ℤ whole) }
    ensures { IsRoundedUp sum whole result }
{
    match quick_rounded_up(sum, whole) {
        Some(quotient) => quotient,
        None => divided(sum, whole),
    }
}

/// Whether a sum is less than what comes of a product by one more whole, as far as 64 bits tell.
#[inline(always)]
fn is_passed(sum: i64, product: i64, whole: i64) -> bool
    ensures { IsTrue result → sum <ℤ (product +ℤ whole) }
{
    match product.checked_add(whole) {
        Some(next) => sum < next,
        None => false,
    }
}

/// Whether a number from 0 on is at least the quotient of a sum by a whole, rounded down, as far as 64 bits tell.
#[inline(always)]
fn is_quotient(sum: i64, whole: i64, quotient: i64) -> bool
    ensures least { IsTrue result → pos 0 ≤ℤ quotient }
    ensures less { IsTrue result → sum <ℤ ((quotient +ℤ pos 1) *ℤ whole) }
{
    if quotient < 0 {
        return false;
    }
    match quotient.checked_mul(whole) {
        Some(product) => is_passed(sum, product, whole),
        None => false,
    }
}

impl LaneSum {
    /// The quotient of the sum by the whole, rounded down to a whole number, where the guess finds it: a number from 0 on
    /// that is at least that.
    #[inline(always)]
    pub fn rounded_down(self) -> Option<i64>
        ensures least { IfSome result (λ quotient. pos 0 ≤ℤ quotient) }
        ensures less { IfSome result (λ quotient. self.sum <ℤ ((quotient +ℤ pos 1) *ℤ self.whole)) }
    {
        let guess = self.guess(self.sum);
        let rest = self.sum.wrapping_sub(guess.wrapping_mul(self.whole));
        let guess = guess.wrapping_add(i64::from(rest >= self.whole));
        if is_quotient(self.sum, self.whole, guess) {
            Some(guess)
        } else {
            None
        }
    }

    /// The quotient, rounded up to a whole number, where the guess finds it.
    #[inline(always)]
    pub fn rounded_up(self) -> Option<i64>
        requires least { pos 0 ≤ℤ self.sum }
        requires positive { pos 1 ≤ℤ self.whole }
        ensures { IfSome result (λ quotient. IsRoundedUp self.sum self.whole quotient) }
    {
        let guess = self.guess(self.sum.wrapping_sub(1)).wrapping_add(1);
        let guess = guess.wrapping_add(i64::from(guess.wrapping_mul(self.whole) < self.sum));
        if is_rounded_up(self.sum, self.whole, guess) {
            Some(guess)
        } else {
            None
        }
    }
}

/// Whether the one number is at most the other.
#[inline(always)]
fn is_at_most(sum: i64, most: i64) -> bool
    ensures within { IsTrue result → sum ≤ℤ most }
    ensures above { IsFalse result → most <ℤ sum }
{
    sum <= most
}

/// Whether a number times the whole is at least the sum; none where 64 bits don't hold the product.
#[inline(always)]
fn short_reaches(number: i64, sum: i64, whole: i64) -> Option<bool>
    ensures enough { IfSome result (λ yes. IsTrue yes → sum ≤ℤ (number *ℤ whole)) }
    ensures less { IfSome result (λ yes. IsFalse yes → (number *ℤ whole) <ℤ sum) }
{
    match number.checked_mul(whole) {
        Some(product) => Some(is_at_most(sum, product)),
        None => None,
    }
}

/// Whether a number times the whole is at most the sum, as far as 64 bits tell.
#[inline(always)]
fn is_within_sum(number: i64, sum: i64, whole: i64) -> bool
    ensures { IsTrue result → (number *ℤ whole) ≤ℤ sum }
{
    match number.checked_mul(whole) {
        Some(product) => is_at_most(product, sum),
        None => false,
    }
}

impl LaneSum {
    /// The least number from this one on that times the whole is at least the sum, where 64 bits hold the numbers and
    /// the guess finds it.
    #[inline(always)]
    fn own_rounded_up_from(self, number: i64) -> Option<i64>
        requires least { pos 0 ≤ℤ self.sum }
        requires positive { pos 1 ≤ℤ self.whole }
        ensures { IfSome result (λ v. IsRoundedUpFrom number self.sum self.whole v) }
    {
        if short_reaches(number, self.sum, self.whole)? {
            Some(number)
        } else {
            self.rounded_up()
        }
    }

    /// The least number from this one on that times the whole is at least the sum, where 64 bits hold the numbers and
    /// the guess finds it. It is the same for the sum and the whole that these were divided from.
    #[inline(always)]
    pub fn rounded_up_from(self, number: i64) -> Option<i64>
        requires least { pos 0 ≤ℤ self.sum }
        requires positive { pos 1 ≤ℤ self.whole }
        ensures { IfSome result (λ v. AtEachScale (λ sum whole. IsRoundedUpFrom number sum whole v) self.sum self.whole) }
    {
        self.own_rounded_up_from(number)
    }

    /// The quotient of the sum by the whole, rounded down, where 64 bits hold the numbers and the guess finds it. It is
    /// the same for the sum and the whole that these were divided from.
    #[inline(always)]
    pub fn quotient_down(self) -> Option<i64>
        ensures { IfSome result (λ quotient. AtEachScale (λ sum whole. IsRoundedDown sum whole quotient) self.sum self.whole) }
    {
        let quotient = self.rounded_down()?;
        if is_within_sum(quotient, self.sum, self.whole) {
            Some(quotient)
        } else {
            None
        }
    }
}

/// The least number from this one on that times the whole is at least the sum, where 64 bits hold the numbers and
/// floats find it.
#[inline(always)]
fn short_rounded_up_from(number: i64, sum: i64, whole: i64) -> Option<i64>
    requires least { pos 0 ≤ℤ sum }
    requires positive { pos 1 ≤ℤ whole }
    ensures { IfSome result (λ v. IsRoundedUpFrom number sum whole v) }
{
    if short_reaches(number, sum, whole)? {
        Some(number)
    } else {
        short_rounded_up(sum, whole)
    }
}

/// The same of numbers that 64 bits may not hold.
#[inline(always)]
fn quick_rounded_up_from(number: i64, sum: i128, whole: i128) -> Option<i64>
    requires least { pos 0 ≤ℤ sum }
    requires positive { pos 1 ≤ℤ whole }
    ensures { IfSome result (λ v. IsRoundedUpFrom number sum whole v) }
{
    let Ok(short_sum) = i64::try_from(sum) else {
        return None;
    };
    let Ok(short_whole) = i64::try_from(whole) else {
        return None;
    };
    short_rounded_up_from(number, short_sum, short_whole)
}

/// A number times a weight.
pub fn times(number: i64, weight: i128) -> i128
    requires room { unsigned_abs number * unsigned_abs weight < engine_limit }
    ensures { result ≡ number *ℤ weight }
{
    i128::from(number) * weight
}

/// Whether a number times the whole is at least the sum.
pub fn reaches(number: i64, sum: i128, whole: i128) -> bool
    requires room { unsigned_abs number * unsigned_abs whole < engine_limit }
    ensures enough { IsTrue result → sum ≤ℤ (number *ℤ whole) }
    ensures less { IsFalse result → (number *ℤ whole) <ℤ sum }
{
    sum <= times(number, whole)
}

/// The same as `rounded_up_from`, by a division.
#[inline(never)]
fn divided_from(number: i64, sum: i128, whole: i128) -> i64
    requires room { unsigned_abs number * unsigned_abs whole < engine_limit }
    requires least { pos 0 ≤ℤ sum }
    requires positive { pos 1 ≤ℤ whole }
    requires most { sum ≤ℤ (pos (2 ^ most_precision) *ℤ whole) }
    ensures { IsRoundedUpFrom number sum whole result }
{
    if reaches(number, sum, whole) {
        number
    } else {
        rounded_up(sum, whole)
    }
}

/// The least number from this one on that times the whole is at least the sum.
#[inline]
pub fn rounded_up_from(number: i64, sum: i128, whole: i128) -> i64
    requires room { unsigned_abs number * unsigned_abs whole < engine_limit }
    requires least { pos 0 ≤ℤ sum }
    requires positive { pos 1 ≤ℤ whole }
    requires most { sum ≤ℤ (pos (2 ^ most_precision) *ℤ whole) }
    ensures { IsRoundedUpFrom number sum whole result }
{
    match quick_rounded_up_from(number, sum, whole) {
        Some(least) => least,
        None => divided_from(number, sum, whole),
    }
}
