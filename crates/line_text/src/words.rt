// The words of a line.
ghost use Rattle.std.specs.Prelude.{◌≡◌, ◌≢◌, ◌≤◌, ◌<◌, [], Some, pos, true, false, length, take, slice_index_or, IsTrue, IfSome, IfNone, OnErr};
ghost use Rattle.std.specs.List.{list_all, position_or_len};
ghost use Rattle.std.specs.Char.{is_ascii_digit};
ghost use Rattle.line_text.specs.Words.{are_digits, number_of, pair_of, words};
ghost use Rattle.line_text.specs.Parts.{first, keyed, single};
ghost use Rattle.line_text.specs.Shown.{Says, begins_alone, behind_byte, is_none_left, is_space, first_of};

use crate::decimal::{Decimal, front_digits};
use crate::error::TextCause;
use lift_bytes::len_before;

/// The words of a line that are left: those of a text, or none.
#[derive(Drop)]
pub struct Words<'t> {
    text: Option<&'t [u8]>,
}

impl<'t> std::marker::Model for Words<'t> {
    ghost use Rattle.line_text.specs.Parts.{Words as WordList};
    ghost use Rattle.std.specs.Option.{option_map};
    ghost use Rattle.line_text.specs.Shown.{words_left};

    ghost Value = { WordList };

    ghost view = { λ w. words_left (option_map (λ text. text.now) w.text) };
}

/// The first word of a text, which has so many bytes, and those behind it.
#[inline(always)]
fn cut(text: &[u8], len: usize) -> (&[u8], Words)
    requires within { len ≤ length text.now }
    requires len { len ≡ position_or_len is_space text.now }
    ensures word { result.0.now ≡ take len text.now }
    ensures first { first (words text.now) ≡ Ok (result.0.now, result.1) }
{
    let word = &text[..len];
    if len == text.len() {
        return (word, Words { text: None });
    }
    (word, Words::of(&text[len + 1..]))
}

/// Whether so many digits, at the front of a text, are a number's: one, or several of which the first
/// isn't 0.
fn is_front_number(text: &[u8], len: usize) -> bool
    requires within { len ≤ length text.now }
    requires digits { list_all is_ascii_digit (take len text.now) ≡ true }
    ensures { IsTrue result → are_digits (take len text.now) ≡ true }
{
    len != 0 && (text[0] != b'0' || len == 1)
}

/// Whether so many digits, at the front of a text, are its first word, and that without leading zeros.
fn is_word(text: &[u8], len: usize) -> bool
    requires within { len ≤ length text.now }
    requires digits { list_all is_ascii_digit (take len text.now) ≡ true }
    ensures digits { IsTrue result → are_digits (take len text.now) ≡ true }
    ensures len { IsTrue result → len ≡ position_or_len is_space text.now }
{
    if !is_front_number(text, len) {
        return false;
    }
    len == text.len() || text[len] == b' '
}

/// Whether so many digits, at the front of a text, are without leading zeros, and that byte ends them,
/// which is no digit and no space.
fn is_before(text: &[u8], len: usize, byte: u8) -> bool
    requires within { len ≤ length text.now }
    requires digits { list_all is_ascii_digit (take len text.now) ≡ true }
    ensures digits { IsTrue result → are_digits (take len text.now) ≡ true }
    ensures within { IsTrue result → len < length text.now }
    ensures there { IsTrue result → slice_index_or text.now len 0 ≡ byte }
    ensures space { IsTrue result → byte ≢ 32 }
    ensures byte { IsTrue result → is_ascii_digit byte ≡ false }
{
    if !is_front_number(text, len) {
        return false;
    }
    len < text.len() && text[len] == byte && byte != b' ' && !byte.is_ascii_digit()
}

/// Whether the first word of a text is that byte alone.
#[inline]
fn is_alone(text: &[u8], byte: u8) -> bool
    ensures value { result ≡ begins_alone byte (words text.now) }
    ensures within { IsTrue result → 1 ≤ length text.now }
    ensures len { IsTrue result → 1 ≡ position_or_len is_space text.now }
{
    if byte == b' ' || text.is_empty() || text[0] != byte {
        return false;
    }
    text.len() == 1 || text[1] == b' '
}

/// Whether a key, in which no space is, stands at the front of a text, and a space or nothing behind it.
#[inline(always)]
fn is_key(text: &[u8], key: &[u8]) -> bool
    ensures within { IsTrue result → length key.now ≤ length text.now }
    ensures word { IsTrue result → take (length key.now) text.now ≡ key.now }
    ensures len { IsTrue result → length key.now ≡ position_or_len is_space text.now }
{
    if text.len() < key.len() || &text[..key.len()] != key {
        return false;
    }
    if text.len() != key.len() && text[key.len()] != b' ' {
        return false;
    }
    len_before(key, b' ') == key.len()
}

/// The number that the first word of a text writes, and those behind it; none where it writes none.
fn first_number(text: &[u8]) -> Option<(Decimal, Words)>
    ensures { result ≡ first_of number_of (words text.now) }
{
    let (word, rest) = cut(text, len_before(text, b' '));
    let number = Decimal::read(word)?;
    Some((number, rest))
}

/// The two numbers that a word writes with this byte between them.
pub fn pair_of(word: &[u8], byte: u8) -> Option<(Decimal, Decimal)>
    ensures { result ≡ pair_of byte word.now }
{
    let len = len_before(word, byte);
    if len == word.len() {
        return None;
    }
    let first = Decimal::read(&word[..len])?;
    let second = Decimal::read(&word[len + 1..])?;
    Some((first, second))
}

/// What stands behind the first word of a text, if that is the key.
#[inline(never)]
fn first_keyed<'t>(text: &'t [u8], key: &[u8]) -> Result<Words<'t>, TextCause>
    ensures { Says (λ x. x) result (keyed key.now (words text.now)) }
{
    match Words::of(text).first()? {
        (word, rest) if word == key => Ok(rest),
        _ => Err(TextCause::Syntax),
    }
}

impl<'t> Words<'t> {
    /// The words of a line.
    pub fn of(line: &'t [u8]) -> Self
        ensures { result ≡ words line.now }
    {
        Words { text: Some(line) }
    }

    /// The text of the words that are left; none where no word is left.
    #[inline]
    pub fn text(&self) -> Option<&'t [u8]>
        ensures some { IfSome result (λ text. self.now ≡ words text.now) }
        ensures none { IfNone result (self.now ≡ []) }
    {
        self.text
    }

    /// The first word, and those behind it; Syntax where there is none.
    #[inline(always)]
    pub fn first(&self) -> Result<(&'t [u8], Words<'t>), TextCause>
        ensures value { Says (λ x. (x.0.now, x.1)) result (first self.now) }
        ensures none { OnErr result (self.now ≡ []) }
    {
        let Some(text) = self.text() else {
            return Err(TextCause::Syntax);
        };
        Ok(cut(text, len_before(text, b' ')))
    }

    /// The number that the first word writes, and those behind it; none where there is no word, or it
    /// writes none. A short number is read at once with its word's end.
    #[inline(always)]
    pub fn number(&self) -> Option<(Decimal<'t>, Words<'t>)>
        ensures { result ≡ first_of number_of self.now }
    {
        let text = self.text()?;
        let (short, len) = front_digits(text);
        if is_word(text, len) {
            let (word, rest) = cut(text, len);
            return Some((Decimal::of_few(word, short), rest));
        }
        first_number(text)
    }

    /// The words behind the first one, where that is this byte alone; none where it isn't.
    #[inline]
    pub fn behind(&self, byte: u8) -> Option<Words<'t>>
        ensures { result ≡ behind_byte byte self.now }
    {
        let text = self.text()?;
        if !is_alone(text, byte) {
            return None;
        }
        let (_, rest) = cut(text, 1);
        Some(rest)
    }

    /// The number of few digits, none of them a sign, that the first word writes, and those behind it;
    /// none where it writes no such number.
    #[inline(always)]
    pub fn short(&self) -> Option<(u64, Words<'t>)>
        ensures { IfSome result (λ x. first_of number_of self.now ≡ Some (pos x.0, x.1)) }
    {
        let text = self.text()?;
        let (short, len) = front_digits(text);
        if !is_word(text, len) {
            return None;
        }
        let (_, rest) = cut(text, len);
        Some((short, rest))
    }

    /// The number of few digits that the first word writes, and those behind it; none where it writes no
    /// such number.
    fn signed(&self) -> Option<(i128, Words<'t>)>
        ensures { IfSome result (λ x. first_of number_of self.now ≡ Some (x.0, x.1)) }
    {
        let text = self.text()?;
        match text {
            [b'-', digits @ ..] => {
                let (n, rest) = Words::of(digits).short()?;
                if n == 0 {
                    return None;
                }
                Some((-i128::from(n), rest))
            }
            _ => {
                let (n, rest) = self.short()?;
                Some((i128::from(n), rest))
            }
        }
    }

    /// The two numbers of few digits that the first word writes with this byte between them, the first one
    /// without a sign, and those behind it; none where it writes no such numbers.
    pub fn short_pair(&self, byte: u8) -> Option<(u64, i128, Words<'t>)>
        ensures { IfSome result (λ x. first_of (pair_of byte) self.now ≡ Some ((pos x.0, x.1), x.2)) }
    {
        let text = self.text()?;
        let (first, len) = front_digits(text);
        if !is_before(text, len, byte) {
            return None;
        }
        let (second, rest) = Words::of(&text[len + 1..]).signed()?;
        Some((first, second, rest))
    }

    /// The two numbers that the first word writes with this byte between them, and those behind it;
    /// none where there is no word, or it writes none.
    pub fn pair(&self, byte: u8) -> Option<((Decimal<'t>, Decimal<'t>), Words<'t>)>
        ensures { result ≡ first_of (pair_of byte) self.now }
    {
        let text = self.text()?;
        let (word, rest) = cut(text, len_before(text, b' '));
        let pair = pair_of(word, byte)?;
        Some((pair, rest))
    }

    /// How often that byte stands in the words.
    pub fn count_of(&self, byte: u8) -> usize {
        let Some(text) = self.text() else {
            return 0;
        };
        let mut count = 0;
        for here in text {
            if *here == byte {
                count += 1;
            }
        }
        count
    }

    /// Whether no word is left.
    pub fn is_empty(&self) -> bool
        ensures { result ≡ is_none_left self.now }
    {
        self.text.is_none()
    }

    /// What stands behind a word that has to stand first.
    #[inline(always)]
    #[tactic(auto, using(crate::proofs::Keys::behind_key))]
    pub fn keyed(&self, key: &[u8]) -> Result<Words<'t>, TextCause>
        ensures { Says (λ x. x) result (keyed key.now self.now) }
    {
        let Some(text) = self.text() else {
            return Err(TextCause::Syntax);
        };
        if !is_key(text, key) {
            let rest = first_keyed(text, key)?;
            return Ok(rest);
        }
        let (_, rest) = cut(text, key.len());
        Ok(rest)
    }

    /// The only word.
    pub fn single(&self) -> Result<&'t [u8], TextCause>
        ensures { Says (λ w. w.now) result (single self.now) }
    {
        let (word, rest) = self.first()?;
        if rest.is_empty() {
            Ok(word)
        } else {
            Err(TextCause::Syntax)
        }
    }
}
