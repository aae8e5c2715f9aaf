//! What is noted of states while guesses are tried.

ghost use Rattle.std.specs.Prelude.{◌≡◌, ◌≢◌, ◌≤ℤ◌, ◌%◌, pos, length, IsTrue, IsFalse};
ghost use Rattle.float_guess.specs.Notes.{low_word, noted_word, share_levels};

use std::num::{nearest_i64_to_f64, saturating_f64_to_u32};

/// How many levels of a share there are.
const LEVELS: u32 = 16;

/// The same as a float.
const PARTS: f64 = 16.0;

/// How many numbers the other 28 bits tell apart.
const WORDS: u64 = 1 << 28;

/// What a share is taken times for each of the first two levels, and for each further one times this again.
const STEP: f64 = 0.55;

/// What is noted of a state: the low bits of its number in a guess, to see later whether it still has that, and at
/// what level its share is, which is how often that was made less. While a guess is made, the number is a position.
#[derive(Clone, Copy)]
pub struct Note {
    /// How it is kept.
    pub bits: u32,
}

/// The low 28 bits of a number.
#[inline]
fn low_word_of(number: i64) -> u32
    requires { pos 0 ≤ℤ number }
    ensures { result ≡ low_word number }
{
    (number as u64 % WORDS) as u32
}

impl Note {
    /// The note with this for its number, where the level stays.
    #[inline]
    pub fn with_number(self, number: i64) -> Note
        requires { pos 0 ≤ℤ number }
        ensures number { noted_word result.bits ≡ low_word number }
        ensures level { result.bits % share_levels ≡ self.bits % share_levels }
    {
        Note {
            bits: low_word_of(number) * LEVELS + self.bits % LEVELS,
        }
    }

    /// Whether it is one of a state with that number, by the low bits.
    #[inline]
    pub fn is_of(self, number: i64) -> bool
        requires { pos 0 ≤ℤ number }
        ensures same { IsTrue result → noted_word self.bits ≡ low_word number }
        ensures other { IsFalse result → noted_word self.bits ≢ low_word number }
    {
        self.bits / LEVELS == low_word_of(number)
    }

    /// How far that number is from the noted one, if by less than 2 to the 27.
    pub fn move_to(self, number: i64) -> i64
        requires { pos 0 ≤ℤ number }
    {
        let words = WORDS as i64;
        let distance = i64::from(low_word_of(number)) - i64::from(self.bits / LEVELS);
        if distance >= words / 2 {
            distance - words
        } else if distance < -(words / 2) {
            distance + words
        } else {
            distance
        }
    }

    /// The note with a lesser share, or with the least.
    pub(crate) fn with_less_share(self) -> Note
        ensures { noted_word result.bits ≡ noted_word self.bits }
    {
        if self.bits % LEVELS + 1 < LEVELS {
            Note {
                bits: self.bits + 1,
            }
        } else {
            self
        }
    }

    /// What the share of all states is taken times for this one.
    pub(crate) fn share(self) -> f64 {
        let mut share = 1.0;
        let mut step = STEP;
        for level in 0..self.bits % LEVELS {
            share *= step;
            if level > 0 {
                step *= STEP;
            }
        }
        share
    }

    /// The note whose level tells a part of 1, to the nearest of as many as there are: the higher, the lesser.
    pub(crate) fn with_part(self, part: f64) -> Note
        ensures { noted_word result.bits ≡ noted_word self.bits }
    {
        let parts = saturating_f64_to_u32(part * PARTS + 0.5).min(LEVELS - 1);
        Note {
            bits: self.bits - self.bits % LEVELS + (LEVELS - 1 - parts),
        }
    }

    /// The part of 1 that its level tells.
    pub(crate) fn part(self) -> f64 {
        nearest_i64_to_f64(i64::from(LEVELS - 1 - self.bits % LEVELS)) / PARTS
    }

    /// The note with a position for its number.
    pub(crate) fn with_position(self, position: u32) -> Note {
        self.with_number(i64::from(position))
    }

    /// The position that is its number.
    pub(crate) fn position(self) -> u32 {
        self.bits / LEVELS
    }
}

/// What is noted at a position.
pub(crate) fn note_at(noted: &[u32], position: u32) -> Note {
    Note {
        bits: noted.get(position as usize).copied().unwrap_or(0),
    }
}

/// Lets each state have its whole share.
pub fn make_shares_whole(noted: &mut [u32])
    ensures { length noted.new ≡ length noted.old }
{
    for note in noted {
        *note = 0;
    }
}

/// Makes the share of the state at a position less.
pub fn lessen_share(noted: &mut [u32], position: u32)
    ensures { length noted.new ≡ length noted.old }
{
    if let Some(bits) = noted.get_mut(position as usize) {
        *bits = Note { bits: *bits }.with_less_share().bits;
    }
}
