// The values of the command line.
ghost use Rattle.std.specs.Prelude.{◌≡◌, ◌≤◌, IfSome};
ghost use Rattle.std.specs.Option.{option_map};
ghost use Rattle.std.specs.List.{list_all};
ghost use Rattle.std.specs.Char.{is_ascii_digit};
ghost use Rattle.lift_frac.specs.Frac.{ratio_of};
ghost use Rattle.plift_words.specs.Values.{is_label_byte, goal_of, is_name_byte, reward_of, number_of, number_within};
ghost use Rattle.plift_words.specs.Values.{option_number, steps_of, most_steps, blocks_of};
ghost use Rattle.plift_words.specs.Values.{bound_by, bound_of, most_cap, cap_of, budget_by, budget_of};

use lift_cert::Bound;
use lift_cost::Budget;
use lift_frac::{Frac, read_ratio};
use model_gen::Ladder;

/// How many digits the number of an option has at most.
const MOST_OPTION_DIGITS: usize = 3;

/// How many digits a number of steps has at most.
const MOST_STEP_DIGITS: usize = 2;

/// How many steps may be asked for at most.
const MOST_STEPS: u32 = 64;

/// How many digits a number of blocks has at most.
const MOST_BLOCK_DIGITS: usize = 5;

/// How many digits a cap has at most.
const MOST_CAP_DIGITS: usize = 10;

/// How many blocks a ladder has at most.
const MOST_BLOCKS: u32 = 32_767;

/// Each part of a bound is below this.
const PART_LIMIT: i128 = 1 << 32;

fn are_label_bytes(word: &[u8]) -> bool
    ensures { result ≡ list_all is_label_byte word.now }
{
    word.iter().all(|b| (b' '..=b'~').contains(b))
}

/// A goal label: one or more bytes from the space to the tilde.
pub fn goal_of(word: &[u8]) -> Option<&[u8]>
    ensures { option_map (λ label. label.now) result ≡ goal_of word.entry.now }
{
    if are_label_bytes(word) && !word.is_empty() {
        Some(word)
    } else {
        None
    }
}

fn are_name_bytes(word: &[u8]) -> bool
    ensures { result ≡ list_all is_name_byte word.now }
{
    word.iter().all(|b| (b'!'..=b'~').contains(b))
}

/// The name of a reward: one or more bytes from the exclamation mark to the tilde.
pub fn reward_of(word: &[u8]) -> Option<&[u8]>
    ensures { option_map (λ name. name.now) result ≡ reward_of word.entry.now }
{
    if are_name_bytes(word) && !word.is_empty() {
        Some(word)
    } else {
        None
    }
}

fn are_digits(word: &[u8]) -> bool
    ensures { result ≡ list_all is_ascii_digit word.now }
{
    word.iter().all(|b| b.is_ascii_digit())
}

// A number of one digit or more, up to `most`.
fn number_of(word: &str, most: usize) -> Option<u64>
    requires { most ≤ 10 }
    ensures { result ≡ number_of most word.now }
{
    if !are_digits(word.as_bytes()) || word.is_empty() || word.len() > most {
        return None;
    }
    word.parse().ok()
}

// Such a number, from `low` to `high`.
fn number_within(word: &str, most: usize, low: u32, high: u32) -> Option<u32>
    requires { most ≤ 10 }
    ensures value { result ≡ number_within most low high word.now }
    ensures range { IfSome result (λ n. (low ≤ n) × (n ≤ high)) }
{
    let number = number_of(word, most)?;
    if u64::from(low) <= number && number <= u64::from(high) {
        Some(number as u32)
    } else {
        None
    }
}

/// The number of an option, of one to three digits, from `low` to `high`.
pub fn option_number(word: &str, low: u32, high: u32) -> Option<u32>
    ensures value { result ≡ option_number low high word.now }
    ensures range { IfSome result (λ n. (low ≤ n) × (n ≤ high)) }
{
    number_within(word, MOST_OPTION_DIGITS, low, high)
}

/// A number of steps, of one or two digits, from 1 to 64.
pub fn steps_of(word: &str) -> Option<u32>
    ensures value { result ≡ steps_of word.now }
    ensures range { IfSome result (λ h. (1 ≤ h) × (h ≤ most_steps)) }
{
    number_within(word, MOST_STEP_DIGITS, 1, MOST_STEPS)
}

/// The ladder of so many blocks, a number of one to five digits, from 1 to 32,767.
pub fn ladder_of(word: &str) -> Option<Ladder>
    ensures { option_map (λ ladder. ladder.blocks) result ≡ blocks_of word.now }
{
    let blocks = number_within(word, MOST_BLOCK_DIGITS, 1, MOST_BLOCKS)?;
    Some(Ladder { blocks })
}

/// A cap, of one to ten digits, from 1 to 2^32 - 1.
pub fn cap_of(word: &str) -> Option<u32>
    ensures value { result ≡ cap_of word.now }
    ensures range { IfSome result (λ cap. (1 ≤ cap) × (cap ≤ most_cap)) }
{
    number_within(word, MOST_CAP_DIGITS, 1, u32::MAX)
}

fn bound_by(fraction: Frac) -> Option<Bound>
    ensures { result ≡ bound_by (ratio_of fraction) }
{
    let Frac { num, den } = fraction;
    if 0 <= num && num <= den && den < PART_LIMIT {
        Some(Bound {
            num: num as u32,
            den: den as u32,
        })
    } else {
        None
    }
}

/// A bound: a fraction from 0 to 1 whose denominator in lowest terms is below 2^32, written
/// `literal` or `literal/literal`.
pub fn bound_of(word: &str) -> Option<Bound>
    ensures { result ≡ bound_of word.now }
{
    bound_by(read_ratio(word)?)
}

fn budget_by(fraction: Frac, cap: u32) -> Option<Budget>
    ensures { result ≡ budget_by cap (ratio_of fraction) }
{
    let Frac { num, den } = fraction;
    if 0 <= num && num <= i128::from(cap) * den && den < PART_LIMIT {
        Some(Budget {
            num: num as u64,
            den: den as u32,
        })
    } else {
        None
    }
}

/// A budget: a fraction from 0 to the cap whose denominator in lowest terms is below 2^32, written
/// `literal` or `literal/literal`.
pub fn budget_of(word: &str, cap: u32) -> Option<Budget>
    ensures { result ≡ budget_of cap word.now }
{
    budget_by(read_ratio(word)?, cap)
}
