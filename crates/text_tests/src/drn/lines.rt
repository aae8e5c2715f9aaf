//! Tests of the lines, words and symbols of a model text.

ghost use Rattle.std.specs.Prelude.{◌≡◌, length};

use crate::cells::each_row;
use crate::drn::text_of;
use drn_lexer::{
    LexError, Line, Place, Symbol, Word, WordForm, next_line, next_symbol, next_word, unquoted,
};
use std::alloc::{AllocError, Global};
use std::string::String;
use test_cells::{Teller, Unreported, cut, number};

/// Where a line begins and ends and its number, or why it is refused.
fn shown_line(alloc: Global, answer: Result<Option<Line>, LexError>) -> Result<String, AllocError> {
    match answer {
        Ok(Some(Line { from, to, number })) => format!(in alloc; "{from} {to} {number}"),
        Ok(None) => format!(in alloc; "none"),
        Err(cause) => format!(in alloc; "{cause:?}"),
    }
}

/// A text, its first two lines, and the place behind them: its first byte, and the line's number.
/// A `;` stands for a line feed of the text.
const LINES: &str = "\
a | 0 1 1, none, 1 2
 | none, none, 0 1
; | 0 0 1, none, 1 2
ab;;c | 0 2 1, 3 3 2, 4 3
a\r;b\r | 0 1 1, 3 4 2, 5 3
a\r\r;b | NotText, NotText, 0 1
a\r ;b | NotText, NotText, 0 1
\t a\tb \t\r; | 2 5 1, none, 9 2
\x20// \u{200}\r\r;//;x | 12 13 3, none, 13 4
// | none, none, 2 2
/ /;\u{7f} | 0 3 1, NotText, 4 2
~;//;\u{200} | 0 1 1, NotText, 5 3
\x20\u{1f} | NotText, NotText, 0 1";

/// The first two lines of a text, and the place behind them.
type TwoLines = (Found, Found, Place);

/// A line that is found, or why none is.
type Found = Result<Option<Line>, LexError>;

fn two_lines(text: &[u8]) -> Option<TwoLines> {
    if text.len() >= 100 {
        return None;
    }
    let mut place = Place::start();
    let first = next_line(text, &mut place);
    let second = next_line(text, &mut place);
    Some((first, second, place))
}

/// The same as it is shown.
fn shown_lines(alloc: Global, lines: TwoLines) -> Result<String, AllocError> {
    let (first, second, place) = lines;
    let first = shown_line(alloc, first)?;
    let second = shown_line(alloc, second)?;
    format!(in alloc; "{first}, {second}, {} {}", place.at, place.number)
}

struct Lines;

impl Teller for Lines {
    type Reported = String;

    type Error = Unreported;

    fn tell(&self, alloc: Global, asked: &str) -> Result<String, Unreported> {
        let text = text_of(alloc, asked)?;
        let lines = two_lines(&text).ok_or(Unreported::Cell)?;
        Ok(shown_lines(alloc, lines)?)
    }
}

#[test]
fn finds_lines(rt: HostRuntime) {
    each_row(&rt, rt.alloc(), LINES, &Lines);
}

/// The byte of which a line is made, how often it stands there, and the line.
const LONG_LINES: &str = "\
a | 1048576 | 0 1048576 1
a | 1048577 | LongLine
/ | 1048576 | none
/ | 1048577 | LongLine
\r | 1048577 | LongLine";

/// The first line of a text.
fn first_line(alloc: Global, text: &[u8]) -> Result<String, Unreported> {
    if text.len() >= 2000000 {
        return Err(Unreported::Cell);
    }
    let line = next_line(text, &mut Place::start());
    Ok(shown_line(alloc, line)?)
}

/// A line of that byte, so often.
fn long_line(alloc: Global, byte: u8, count: usize) -> Result<Vec<u8>, AllocError> {
    let mut text = vec![in alloc; byte; count]?;
    text.push(b'\n')?;
    Ok(text)
}

struct LongLines;

impl Teller for LongLines {
    type Reported = String;

    type Error = Unreported;

    fn tell(&self, alloc: Global, asked: &str) -> Result<String, Unreported> {
        let (byte, count) = cut(asked);
        let byte = byte.bytes().next().unwrap_or(b'?');
        let text = long_line(alloc, byte, number(count) as usize)?;
        first_line(alloc, &text)
    }
}

#[test]
fn limits_lines(rt: HostRuntime) {
    each_row(&rt, rt.alloc(), LONG_LINES, &LongLines);
}

/// A text, a place in it, and the next word from there: where it begins and ends, and its form.
const WORDS: &str = "\
a\"b [c | 0 | 0 3 Plain
a\"b [c | 3 | 4 6 Group
 | 0 | none
 \t  | 0 | none
\"a b\"c | 0 | 0 5 Quoted
\"a b\"c | 5 | 5 6 Plain
\"a\"\t[x]y | 3 | 4 7 Group
\"a\"\t[x]y | 7 | 7 8 Plain
[\"]] | 0 | 0 3 Group
[x y | 0 | 0 4 Group
\"\" | 0 | 0 2 Quoted
\"\" | 2 | none
a[ \"b | 2 | OpenQuote
\" | 0 | OpenQuote";

fn shown_word(alloc: Global, answer: Result<Option<Word>, LexError>) -> Result<String, AllocError> {
    match answer {
        Ok(Some(Word { from, to, form })) => format!(in alloc; "{from} {to} {form:?}"),
        Ok(None) => format!(in alloc; "none"),
        Err(cause) => format!(in alloc; "{cause:?}"),
    }
}

/// The line that is a whole text.
fn whole(text: &[u8]) -> Line
    ensures { (result.from ≡ 0) × (result.to ≡ length text.now) }
{
    Line {
        from: 0,
        to: text.len(),
        number: 1,
    }
}

struct NextWords;

impl Teller for NextWords {
    type Reported = String;

    type Error = Unreported;

    fn tell(&self, alloc: Global, asked: &str) -> Result<String, Unreported> {
        let (text, at) = cut(asked);
        let (text, at) = (text.as_bytes(), number(at) as usize);
        if at > text.len() {
            return Err(Unreported::Cell);
        }
        Ok(shown_word(alloc, next_word(text, whole(text), at))?)
    }
}

#[test]
fn finds_words(rt: HostRuntime) {
    each_row(&rt, rt.alloc(), WORDS, &NextWords);
}

/// A word, its form, and what it says.
const UNQUOTED: &str = "\
\"all done\" | Quoted | all done
\"\" | Quoted | 
[\"] | Group | [\"]
a\"b\" | Plain | a\"b\"";

fn form(name: &str) -> WordForm {
    match name {
        "Quoted" => WordForm::Quoted,
        "Group" => WordForm::Group,
        _ => WordForm::Plain,
    }
}

struct UnquotedWords;

impl Teller for UnquotedWords {
    type Reported = String;

    type Error = AllocError;

    fn tell(&self, alloc: Global, asked: &str) -> Result<String, AllocError> {
        let (word, name) = cut(asked);
        String::from_utf8_lossy(alloc, unquoted(form(name), word.as_bytes()))
    }
}

#[test]
fn takes_quotes_off(rt: HostRuntime) {
    each_row(&rt, rt.alloc(), UNQUOTED, &UnquotedWords);
}

/// A text, a place in it, and the next symbol from there: where it begins and ends, and its form.
const SYMBOLS: &str = "\
2e5 | 0 | 0 3 Literal
 | 0 | none
 \t | 0 | none
2e | 0 | 0 1 Literal
2e | 1 | 1 2 Name
2e+ | 0 | 0 1 Literal
2e+ | 2 | 2 3 Plus
1.5 | 0 | 0 3 Literal
1. | 0 | 0 1 Literal
1. | 1 | 1 2 Other
 $a_1  | 0 | 1 5 Dollar
$1 | 0 | 0 2 Dollar
$ a | 0 | 0 1 Other
p*q | 0 | 0 1 Name
p*q | 1 | 1 2 Times
_1/q | 0 | 0 2 Name
_1/q | 2 | 2 3 Over
-^():; | 0 | 0 1 Minus
-^():; | 1 | 1 2 Power
-^():; | 2 | 2 3 Left
-^():; | 3 | 3 4 Right
-^():; | 4 | 4 5 Colon
-^():; | 5 | 5 6 Other";

fn shown_symbol(alloc: Global, answer: Option<Symbol>) -> Result<String, AllocError> {
    match answer {
        Some(Symbol { from, to, form }) => format!(in alloc; "{from} {to} {form:?}"),
        None => format!(in alloc; "none"),
    }
}

struct NextSymbols;

impl Teller for NextSymbols {
    type Reported = String;

    type Error = Unreported;

    fn tell(&self, alloc: Global, asked: &str) -> Result<String, Unreported> {
        let (text, at) = cut(asked);
        let (text, at) = (text.as_bytes(), number(at) as usize);
        if at > text.len() {
            return Err(Unreported::Cell);
        }
        Ok(shown_symbol(alloc, next_symbol(text, whole(text), at))?)
    }
}

#[test]
fn finds_symbols(rt: HostRuntime) {
    each_row(&rt, rt.alloc(), SYMBOLS, &NextSymbols);
}
