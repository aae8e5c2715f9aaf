//! Numbers as floats. A probability is held as a multiple of 2 to the minus 62.

use std::num::{nearest_i64_to_f64, saturating_f64_to_i64};

/// What stands for probability 1.
pub(crate) const ONE: i64 = 1 << 62;

/// The same as a float.
const FLOAT_ONE: f64 = 4611686018427387904.0;

/// How many bits of a longer weight are left out at a time, and what that divides it by.
const LEFT_OUT: u32 = 16;

const LEFT_OUT_TIMES: f64 = 65536.0;

/// A weight as a float, of which the leading bits are kept.
#[inline(always)]
pub(crate) fn float_of(weight: i128) -> f64 {
    match i64::try_from(weight) {
        Ok(small) => nearest_i64_to_f64(small),
        Err(_) => float_of_long(weight),
    }
}

/// The same of one that doesn't fit 64 bits: as few bits as possible are left out, but for some.
fn float_of_long(weight: i128) -> f64 {
    let mut high = weight;
    let mut times = 1.0;
    for _ in 0..4 {
        high >>= LEFT_OUT;
        times *= LEFT_OUT_TIMES;
        if let Ok(small) = i64::try_from(high) {
            return nearest_i64_to_f64(small) * times;
        }
    }
    0.0
}

/// The probability that a number stands for.
pub(crate) fn probability_of(number: i64) -> f64 {
    nearest_i64_to_f64(number) / FLOAT_ONE
}

/// The number that stands for a probability, taken into its range.
pub(crate) fn number_of(probability: f64) -> i64 {
    saturating_f64_to_i64(probability * FLOAT_ONE)
        .max(0)
        .min(ONE)
}
