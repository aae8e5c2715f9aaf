// Numbers that words write.
ghost use Rattle.std.specs.Prelude.{◌≡◌, ◌+◌, ◌-◌, ◌*◌, ◌%◌, ◌≤◌, ◌<◌, ◌^◌, length, take, pos, true, false, unsigned_abs, int_lt, nat_lt, IfSome, IfNone};
ghost use Rattle.std.specs.List.{list_all};
ghost use Rattle.std.specs.Option.{option_map};
ghost use Rattle.std.specs.Char.{is_ascii_digit};
ghost use Rattle.std.specs.Ordering.{nat_cmp};
ghost use Rattle.std.specs.Str.Parse.{digits_value};
ghost use Rattle.line_text.specs.Words.{are_digits, natural_of, below_zero, number_of};
ghost use Rattle.line_text.specs.Shown.{signed, wide_limit};

use std::cmp::Ordering;

/// How many digits a number has at most that isn't wide.
const MOST_DIGITS: usize = 31;

/// How many digits at most are read in 64 bits.
const SHORT_DIGITS: usize = 18;

/// A number that a word writes, of any length. The size that few digits write is kept.
#[derive(Drop)]
pub struct Decimal<'t> {
    negative: bool,
    digits: &'t [u8],
    short: u64,
}

impl<'t> std::marker::Model for Decimal<'t> {
    ghost use Rattle.std.specs.Prelude.{ℤ};
    ghost use Rattle.std.specs.Str.Parse.{digits_value};
    ghost use Rattle.line_text.specs.Shown.{signed, IsDecimal};

    ghost Value = { ℤ };

    ghost view = { λ d. signed d.negative (digits_value 10 d.digits.now) };

    ghost invariant = { λ d. IsDecimal d.digits.now d.short };
}

fn are_all_digits(word: &[u8]) -> bool
    ensures { result ≡ list_all is_ascii_digit word.now }
{
    word.iter().all(|byte| byte.is_ascii_digit())
}

/// Whether digits are a number's: one digit, or several of which the first isn't 0.
fn is_led(digits: &[u8]) -> bool
    requires { list_all is_ascii_digit digits.now ≡ true }
    ensures { result ≡ are_digits digits.now }
{
    match digits {
        [] => false,
        [_] => true,
        [first, ..] => *first != b'0',
    }
}

/// A number with one more digit behind it; none where the byte is no digit.
#[inline(always)]
fn with_digit(number: u64, byte: u8) -> Option<u64>
    requires { number < 10 ^ 18 }
    ensures some { IfSome result (λ n. (is_ascii_digit byte ≡ true) × (n ≡ number * 10 + (byte - 48))) }
    ensures none { IfNone result (is_ascii_digit byte ≡ false) }
{
    let digit = u64::from(byte).wrapping_sub(u64::from(b'0'));
    if digit > 9 {
        return None;
    }
    Some(number * 10 + digit)
}

/// The number that the digits at the front of a text write, at most 18 of them, and how many these are.
/// They are read by fours as long as so many bytes are left.
#[inline(always)]
pub(crate) fn front_digits(text: &[u8]) -> (u64, usize)
    ensures within { result.1 ≤ length text.now }
    ensures few { result.1 ≤ 18 }
    ensures digits { list_all is_ascii_digit (take result.1 text.now) ≡ true }
    ensures value { result.0 ≡ digits_value 10 (take result.1 text.now) }
    ensures all { list_all is_ascii_digit text.now ≡ true → length text.now ≤ 18 → result.1 ≡ length text.now }
{
    let mut number: u64 = 0;
    let mut i = 0;
    while i + 4 <= SHORT_DIGITS && i + 4 <= text.len() {
        let Some(one) = with_digit(number, text[i]) else {
            return (number, i);
        };
        let Some(two) = with_digit(one, text[i + 1]) else {
            return (one, i + 1);
        };
        let Some(three) = with_digit(two, text[i + 2]) else {
            return (two, i + 2);
        };
        let Some(four) = with_digit(three, text[i + 3]) else {
            return (three, i + 3);
        };
        number = four;
        i += 4;
    }
    while i < SHORT_DIGITS && i < text.len() {
        let Some(more) = with_digit(number, text[i]) else {
            return (number, i);
        };
        number = more;
        i += 1;
    }
    (number, i)
}

/// The number that at most 31 digits write.
fn long_value(digits: &[u8]) -> u128
    requires digits { list_all is_ascii_digit digits.now ≡ true }
    requires short { length digits.now ≤ 31 }
    ensures value { result ≡ digits_value 10 digits.now }
    ensures small { result < 10 ^ 31 }
{
    let mut number = 0;
    for digit in digits {
        number = number * 10 + u128::from(*digit - b'0');
    }
    number
}

/// What the number that digits write leaves at a division.
fn digits_remainder(digits: &[u8], by: u32) -> u32
    requires digits { list_all is_ascii_digit digits.now ≡ true }
    requires by { 0 < by }
    ensures { result ≡ digits_value 10 digits.now % by }
{
    let mut rest: u64 = 0;
    for digit in digits {
        rest = (rest * 10 + u64::from(*digit - b'0')) % u64::from(by);
    }
    rest as u32
}

/// How the numbers compare that two texts of as many digits write.
#[tactic(auto, using(crate::proofs::Comparing::order_next))]
fn digits_cmp(digits: &[u8], others: &[u8]) -> Ordering
    requires digits { list_all is_ascii_digit digits.now ≡ true }
    requires others { list_all is_ascii_digit others.now ≡ true }
    requires lengths { length digits.now ≡ length others.now }
    ensures { result ≡ nat_cmp (digits_value 10 digits.now) (digits_value 10 others.now) }
{
    let mut order = Ordering::Equal;
    for i in 0..digits.len() {
        order = order.then(digits[i].cmp(&others[i]));
    }
    order
}

/// Whether the number that digits write is below the one that others write, both without leading
/// zeros.
#[tactic(auto, using(crate::proofs::Comparing::length_tells, crate::proofs::Comparing::below_by_order, crate::proofs::LongNumbers::all_digits))]
fn is_less(digits: &[u8], others: &[u8]) -> bool
    requires digits { are_digits digits.now ≡ true }
    requires others { are_digits others.now ≡ true }
    ensures { result ≡ nat_lt (digits_value 10 digits.now) (digits_value 10 others.now) }
{
    if digits.len() == others.len() {
        digits_cmp(digits, others).is_lt()
    } else {
        digits.len() < others.len()
    }
}

impl<'t> Decimal<'t> {
    /// The number whose size digits write; none where they write none. Few digits are looked at once.
    #[tactic(auto, using(crate::proofs::LongNumbers::all_digits, crate::proofs::ShortNumbers::whole_digits))]
    fn of_size(negative: bool, digits: &'t [u8]) -> Option<Self>
        ensures { result ≡ option_map (signed negative) (natural_of digits.now) }
    {
        let (short, len) = front_digits(digits);
        if len < digits.len() && !are_all_digits(digits) {
            return None;
        }
        if !is_led(digits) {
            return None;
        }
        Some(Decimal {
            negative,
            digits,
            short,
        })
    }

    /// The number that few digits write, which is known.
    pub(crate) fn of_few(digits: &'t [u8], short: u64) -> Self
        requires digits { are_digits digits.now ≡ true }
        requires value { short ≡ digits_value 10 digits.now }
        ensures { result ≡ pos short }
    {
        Decimal {
            negative: false,
            digits,
            short,
        }
    }

    /// The size, unless it is wide.
    #[inline]
    fn size(&self) -> Option<u128>
        ensures some { IfSome result (λ n. (n ≡ unsigned_abs self.now) × (n < 10 ^ 31)) }
        ensures none { IfNone result (wide_limit ≤ unsigned_abs self.now) }
    {
        let count = self.digits.len();
        if count > MOST_DIGITS {
            None
        } else if count > SHORT_DIGITS {
            Some(long_value(self.digits))
        } else {
            Some(u128::from(self.short))
        }
    }

    /// The number from 0 on that digits write; none where they write none.
    fn natural(digits: &'t [u8]) -> Option<Self>
        ensures { result ≡ option_map pos (natural_of digits.now) }
    {
        Decimal::of_size(false, digits)
    }

    /// The number below 0 of a size that digits write; none where they write none, and for 0.
    fn below_zero(digits: &'t [u8]) -> Option<Self>
        ensures { result ≡ below_zero (natural_of digits.now) }
    {
        if digits == b"0".as_slice() {
            return None;
        }
        Decimal::of_size(true, digits)
    }

    /// The number that a word writes; none where it writes none.
    pub fn read(word: &'t [u8]) -> Option<Self>
        ensures { result ≡ number_of word.now }
    {
        match word {
            [] => None,
            [b'-', digits @ ..] => Decimal::below_zero(digits),
            _ => Decimal::natural(word),
        }
    }

    /// Whether it is below 0.
    pub fn is_below_zero(&self) -> bool
        ensures { result ≡ int_lt self.now (pos 0) }
    {
        match self.narrow() {
            Some(n) => n < 0,
            None => self.negative,
        }
    }

    /// Whether it is below the other one.
    #[tactic(auto, using(crate::proofs::Comparing::both_below, crate::proofs::Comparing::neither_below, crate::proofs::Comparing::apart, crate::proofs::Comparing::apart_above))]
    pub fn is_below(&self, other: &Decimal) -> bool
        ensures { result ≡ int_lt self.now other.now }
    {
        match (self.is_below_zero(), other.is_below_zero()) {
            (true, true) => is_less(other.digits, self.digits),
            (true, false) => true,
            (false, true) => false,
            (false, false) => is_less(self.digits, other.digits),
        }
    }

    /// The number, unless it is wide.
    #[inline]
    pub fn narrow(&self) -> Option<i128>
        ensures some { IfSome result (λ n. n ≡ self.now) }
        ensures none { IfNone result (wide_limit ≤ unsigned_abs self.now) }
    {
        let size = self.size()? as i128;
        Some(if self.negative { -size } else { size })
    }

    /// What the number's size leaves at a division.
    pub fn remainder(&self, by: u32) -> u32
        requires { 0 < by }
        ensures { result ≡ unsigned_abs self.now % by }
    {
        digits_remainder(self.digits, by)
    }
}
