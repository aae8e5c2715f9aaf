// Numbers written in digits.
ghost use Rattle.std.specs.Prelude.{◌≡◌, ◌^◌, ◌<◌, ◌≤◌, length, true};
ghost use Rattle.std.specs.List.{list_all};
ghost use Rattle.std.specs.Char.{is_ascii_digit};
ghost use Rattle.std.specs.Str.Parse.{digits_value};
ghost use Rattle.lift_frac.specs.Parts.{capped};
ghost use Rattle.drn_read.specs.Text.{most_digits, is_digits};

use lift_frac::number_below;

/// How many digits a number and a target may have.
pub(crate) const MOST_DIGITS: usize = 20;

/// The least number that so many digits don't write.
const BEYOND_TWENTY: u128 = 100_000_000_000_000_000_000;

/// How many digits at most are read in 64 bits.
const SHORT_DIGITS: usize = 18;

fn are_digits(word: &[u8]) -> bool
    ensures { result ≡ list_all is_ascii_digit word.now }
{
    word.iter().all(|byte| byte.is_ascii_digit())
}

/// Whether the word is one or more digits.
pub(crate) fn is_digits(word: &[u8]) -> bool
    ensures { result ≡ is_digits word.now }
{
    are_digits(word) && !word.is_empty()
}

/// The number that at most 18 digits write.
#[inline(always)]
fn short_value(digits: &[u8]) -> u64
    requires digits { list_all is_ascii_digit digits.now ≡ true }
    requires short { length digits.now ≤ 18 }
    ensures value { result ≡ digits_value 10 digits.now }
    ensures small { result < 10 ^ 18 }
{
    let mut number = 0;
    for digit in digits {
        number = number * 10 + u64::from(*digit - b'0');
    }
    number
}

/// The number that digits write, leading zeros included; none from 10^20 on. Linear.
#[inline(always)]
pub(crate) fn number_of(digits: &[u8]) -> Option<u128>
    requires { list_all is_ascii_digit digits.now ≡ true }
    ensures { result ≡ capped (10 ^ most_digits) (digits_value 10 digits.now) }
{
    if digits.len() <= SHORT_DIGITS {
        return Some(u128::from(short_value(digits)));
    }
    number_below(digits, BEYOND_TWENTY)
}
