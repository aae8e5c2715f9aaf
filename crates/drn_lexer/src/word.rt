ghost use Rattle.std.specs.Prelude.{◌≡◌, ℕ, ◌↔◌, ◌+◌, ◌-◌, ◌<◌, ◌≤◌, ◌==◌, ◌∷◌, length};
ghost use Rattle.std.specs.Prelude.{slice_range, Ok, Err, None, IfOk, IfErr, IfSome, IsTrue, Some};
ghost use Rattle.std.specs.Prelude.{if◌then◌else◌};
ghost use Rattle.std.specs.List.{prefix_len, list_all, list_any, position_or_len};
ghost use Rattle.lift_bytes.specs.Bytes.{is_blank, behind};
ghost use Rattle.drn_lexer.specs.Spans.{LiesIn, IsOn, first_word, IsNextWord};
ghost use Rattle.drn_lexer.specs.Steps.{FrontIs};
ghost use Rattle.drn_lexer.specs.Words.{words, word_front, begins_open_quote, unquoted};

use crate::bytes::behind_blanks;
use crate::error::LexError;
use crate::line::Line;
use lift_bytes::{is_blank, len_before};

/// What a word is.
#[derive(Clone, Copy, Debug, PartialEq, Eq)]
pub enum WordForm {
    /// A run of bytes without blanks that begins with none of `"` and `[`.
    Plain,
    /// From `"` to the next `"`, both included.
    Quoted,
    /// From `[` to the next `]`, both included; to the end of the line where there is no `]`.
    Group,
}

/// A word: the bytes of the text from `from` to before `to`, with its quotes or brackets.
#[derive(Clone, Copy)]
pub struct Word {
    pub from: usize,
    pub to: usize,
    pub form: WordForm,
}

/// How many bytes stand before the first blank; all of them where there is none.
fn plain_len(text: &[u8]) -> usize
    ensures within { result ≤ length text.now }
    ensures len { result ≡ position_or_len is_blank text.now }
{
    for (i, byte) in text.iter().enumerate() {
        if is_blank(*byte) {
            return i;
        }
    }
    text.len()
}

/// How many bytes run to the first one that is `end`, with that byte, if there is one.
fn closed_len(text: &[u8], end: u8) -> Option<usize>
    ensures within { IfSome result (λ len. len ≤ length text.now) }
    ensures len { let is_end = λ (b : ℕ). b == end in
        result ≡ (if list_any is_end text.now
        then Some (position_or_len is_end text.now + 1) else None) }
{
    let len = len_before(text, end);
    if len < text.len() {
        Some(len + 1)
    } else {
        None
    }
}

/// The word at the front of a text that begins with no blank: its length and form.
fn word_front(first: u8, tail: &[u8]) -> Result<(usize, WordForm), LexError>
    ensures within { IfOk result (λ front. (0 < front.0) × (front.0 ≤ 1 + length tail.now)) }
    ensures front { FrontIs result (word_front first tail.now) }
{
    match first {
        b'"' => {
            let len = closed_len(tail, b'"').ok_or(LexError::OpenQuote)?;
            Ok((1 + len, WordForm::Quoted))
        }
        b'[' => {
            let len = closed_len(tail, b']').unwrap_or(tail.len());
            Ok((1 + len, WordForm::Group))
        }
        _ => Ok((1 + plain_len(tail), WordForm::Plain)),
    }
}

/// What a word says, where these are its form and its bytes: a quoted word without its quotes, and
/// any other word as it stands. Labels are compared by it.
pub fn unquoted(form: WordForm, bytes: &[u8]) -> &[u8]
    ensures { result.now ≡ unquoted form bytes.now }
{
    match (form, bytes) {
        (WordForm::Quoted, [_, inner @ .., _]) => inner,
        (WordForm::Quoted, _) => &[],
        _ => bytes,
    }
}

/// The next word of a line from the place `at` on. None exactly where only blanks follow.
/// `OpenQuote` exactly where the next word begins with a quote that has no end on the line.
///
/// `at` lies on the line, which lies in the text. The cost is linear in what is read.
pub fn next_word(text: &[u8], line: Line, at: usize) -> Result<Option<Word>, LexError>
    requires line { LiesIn line text.now }
    requires place { IsOn at line }
    ensures none { (result ≡ Ok None)
        ↔ IsTrue (list_all is_blank (slice_range text.now at line.to)) }
    ensures answer { let rest = slice_range text.now at line.to in
        result ≡ first_word (at + prefix_len is_blank rest) (words rest) }
    ensures quote { let rest = slice_range text.now at line.to in
        (result ≡ Err LexError.OpenQuote) ↔ IsTrue (begins_open_quote (behind is_blank rest)) }
    ensures cause { IfErr result (λ fault. fault ≡ LexError.OpenQuote) }
    ensures next { IfOk result (λ found. IfSome found (IsNextWord text.now line at)) }
{
    let (from, rest) = behind_blanks(text, line, at);
    match rest {
        [] => Ok(None),
        [first, tail @ ..] => {
            let (len, form) = word_front(*first, tail)?;
            let word = Word {
                from,
                to: from + len,
                form,
            };
            Ok(Some(word))
        }
    }
}
