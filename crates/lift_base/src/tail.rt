// Short texts that are put together from the back to the front, as digits come.
ghost use Rattle.std.specs.Prelude.{◌≡◌, ◌+◌, ◌*◌, ◌≤◌, ◌<◌, ◌∷◌, ◌++◌, [], length, IsTrue};
ghost use Rattle.std.specs.Fmt.{decimal, signed_decimal};
ghost use Rattle.std.specs.List.{flat_map};
ghost use Rattle.lift_base.specs.Word.{spaced, mark_text, spaced_mark, word_text};
ghost use Rattle.lift_base.specs.declared.tail.TheConstants.{GROUP, WIDTH, ROOM};

use crate::Word;
use itoa::write_digits;
use std::marker::Model;

/// How many numbers there is room for.
pub const GROUP: usize = 16;

/// How many bytes a number takes at most, with its sign and the blank before it.
pub const WIDTH: usize = 22;

const ROOM: usize = GROUP * WIDTH;

/// The end of a text, at most `ROOM` bytes, before which more is put. It takes no memory but its own
/// array.
#[derive(Drop)]
pub struct Tail {
    bytes: [u8; ROOM],
    start: usize,
}

impl Model for Tail {
    ghost use Rattle.std.specs.Prelude.{List, ℕ, drop, ◌≤◌};
    ghost use Rattle.lift_base.specs.declared.tail.TheConstants.{ROOM};

    ghost Value = { List ℕ };

    ghost view = { λ t. drop t.start t.bytes };

    ghost invariant = { λ t. t.start ≤ ROOM };
}

impl Tail {
    /// Nothing stands there yet.
    #[inline]
    pub fn new() -> Self
        ensures { result ≡ [] }
    {
        Tail {
            bytes: [0u8; ROOM],
            start: ROOM,
        }
    }

    /// The text.
    #[inline]
    pub fn as_slice(&self) -> &[u8]
        ensures { result.now ≡ self.now }
    {
        &self.bytes[self.start..]
    }

    #[inline]
    fn put_byte(&mut self, byte: u8)
        requires { length self.old < ROOM }
        ensures { self.new ≡ byte ∷ self.old }
    {
        self.start -= 1;
        self.bytes[self.start] = byte;
    }

    #[inline]
    fn put_count(&mut self, n: u64)
        requires { length self.old + WIDTH ≤ ROOM }
        ensures text { self.new ≡ decimal n ++ self.old }
        ensures short { length self.new + 2 ≤ length self.old + WIDTH }
    {
        self.start = write_digits(n, &mut self.bytes, self.start);
    }

    #[inline]
    fn put_signed(&mut self, n: i64)
        requires { length self.old + WIDTH ≤ ROOM }
        ensures text { self.new ≡ signed_decimal n ++ self.old }
        ensures short { length self.new + 1 ≤ length self.old + WIDTH }
    {
        self.put_count(n.unsigned_abs());
        if n < 0 {
            self.put_byte(b'-');
        }
    }

    // A number behind a blank.
    #[inline]
    fn put_number(&mut self, n: i64)
        requires { length self.old + WIDTH ≤ ROOM }
        ensures text { self.new ≡ spaced n ++ self.old }
        ensures short { length self.new ≤ length self.old + WIDTH }
    {
        self.put_signed(n);
        self.put_byte(b' ');
    }

    #[inline]
    fn put_named(&mut self, mark: u32, none: u32)
        requires { length self.old + WIDTH ≤ ROOM }
        ensures text { self.new ≡ mark_text none mark ++ self.old }
        ensures short { length self.new + 1 ≤ length self.old + WIDTH }
    {
        if mark == none {
            self.put_byte(b'-');
        } else {
            self.put_count(u64::from(mark));
        }
    }

    // A mark behind a blank.
    #[inline]
    fn put_mark(&mut self, mark: u32, none: u32)
        requires { length self.old + WIDTH ≤ ROOM }
        ensures text { self.new ≡ spaced_mark none mark ++ self.old }
        ensures short { length self.new ≤ length self.old + WIDTH }
    {
        self.put_named(mark, none);
        self.put_byte(b' ');
    }

    // A piece, where there is room for it.
    #[inline]
    fn try_text(&mut self, piece: &[u8]) -> bool
        ensures { IsTrue result → self.new ≡ piece.now ++ self.old }
    {
        let fits = piece.len() <= self.start;
        if fits {
            let start = self.start - piece.len();
            self.bytes[start..self.start].copy_from_slice(piece);
            self.start = start;
        }
        fits
    }

    // A count, where there is room for each.
    #[inline]
    fn try_count(&mut self, n: u64) -> bool
        ensures { IsTrue result → self.new ≡ decimal n ++ self.old }
    {
        let fits = WIDTH <= self.start;
        if fits {
            self.put_count(n);
        }
        fits
    }

    // A number, where there is room for each and it is short.
    #[inline]
    fn try_number(&mut self, n: i128) -> bool
        ensures { IsTrue result → self.new ≡ signed_decimal n ++ self.old }
    {
        match i64::try_from(n) {
            Ok(short) if WIDTH <= self.start => {
                self.put_signed(short);
                true
            }
            _ => false,
        }
    }

    #[inline]
    fn try_word(&mut self, word: &Word) -> bool
        ensures { IsTrue result → self.new ≡ word_text word.now ++ self.old }
    {
        match *word {
            Word::Text(piece) => self.try_text(piece),
            Word::Count(n) => self.try_count(n),
            Word::Number(n) => self.try_number(n),
            Word::Numbers(_) => false,
        }
    }

    /// Puts the words before the text, and tells whether there was room for all. Lists of numbers
    /// and numbers of more than 64 bits are never put.
    pub fn try_words(&mut self, words: &[Word]) -> bool
        ensures { IsTrue result → self.new ≡ flat_map word_text words.now ++ self.old }
    {
        for word in words.iter().rev() {
            if !self.try_word(word) {
                return false;
            }
        }
        true
    }

    /// Puts each number before the text, with a blank before each.
    pub fn put_numbers(&mut self, numbers: &[i64])
        requires { length self.old + WIDTH * length numbers.now ≤ ROOM }
        ensures { self.new ≡ flat_map spaced numbers.now ++ self.old }
    {
        for number in numbers.iter().rev() {
            self.put_number(*number);
        }
    }

    /// Puts each mark before the text, with a blank before each.
    pub fn put_marks(&mut self, marks: &[u32], none: u32)
        requires { length self.old + WIDTH * length marks.now ≤ ROOM }
        ensures { self.new ≡ flat_map (spaced_mark none) marks.now ++ self.old }
    {
        for mark in marks.iter().rev() {
            self.put_mark(*mark, none);
        }
    }
}
