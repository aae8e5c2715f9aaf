ghost use Rattle.std.specs.Prelude.{◌≡◌, ℕ, List, ◌↔◌, ◌==◌, ◌+◌, ◌-◌, ◌<◌, ◌≤◌, ◌^◌, length};
ghost use Rattle.std.specs.Prelude.{slice_range, IsTrue, IfNone, IfSome, IfOk, OnErr, Ok, None, take, true};
ghost use Rattle.std.specs.List.{list_all, position_or_len};
ghost use Rattle.lift_bytes.specs.Bytes.{code, first_passes};
ghost use Rattle.drn_lexer.specs.Bytes.{is_text_byte};
ghost use Rattle.drn_lexer.specs.Lines.{text_limit, without_return, content, span_of, lines_at};
ghost use Rattle.drn_lexer.specs.Lines.{lines, behind_comments, is_passed_over, answer_of};
ghost use Rattle.drn_lexer.specs.Lines.{place_behind, place_after};
ghost use Rattle.drn_lexer.specs.Steps.{text_line, IsAtEnd, IsFirstLine, judged};
ghost use Rattle.drn_lexer.specs.Spans.{LiesIn, IsNextLine};

use crate::bytes::text_len;
use crate::error::LexError;
use lift_bytes::{blanks_len, len_before, trimmed};

/// The most bytes of a line without its line feed: `line_limit` in the definitions.
const LINE_LIMIT: usize = 1 << 20;

/// A place where a line of a text begins: its first byte, and the line's number.
#[derive(Clone, Copy)]
pub struct Place {
    pub at: usize,
    pub number: u32,
}

impl Place {
    /// The start of a text. Its first line has number 1.
    pub fn start() -> Place
        ensures at { result.at ≡ 0 }
        ensures number { result.number ≡ 1 }
        ensures lines { (text : List ℕ) → lines_at text result ≡ lines text }
    {
        Place { at: 0, number: 1 }
    }
}

/// A line: the bytes of the text from `from` to before `to`, and its number from 1 on.
#[derive(Clone, Copy)]
pub struct Line {
    pub from: usize,
    pub to: usize,
    pub number: u32,
}

/// A line as it stands in its text, and whether its bytes are known to be text.
#[derive(Clone, Copy)]
struct RawLine {
    line: Line,
    is_text: bool,
}

/// Whether a text begins with a line feed.
#[inline(always)]
fn begins_feed(text: &[u8]) -> bool
    ensures { result ≡ first_passes (λ b. b == code "\n") text.now }
{
    match text {
        [first, ..] => *first == b'\n',
        [] => false,
    }
}

/// How many bytes stand before the first line feed, which is mostly the first byte.
#[inline(always)]
fn len_before_feed(text: &[u8]) -> usize
    ensures within { result ≤ length text.now }
    ensures len { result ≡ position_or_len (λ b. b == code "\n") text.now }
{
    if begins_feed(text) {
        return 0;
    }
    len_before(text, b'\n')
}

/// How many bytes stand before the first line feed, all of them where there is none, and whether
/// they are known to be text. Where they are, each is looked at once.
#[inline(always)]
fn line_len(text: &[u8]) -> (usize, bool)
    ensures within { result.0 ≤ length text.now }
    ensures len { result.0 ≡ position_or_len (λ b. b == code "\n") text.now }
    ensures is_text { result.1 ≡ true → list_all is_text_byte (take result.0 text.now) ≡ true }
{
    let front = text_len(text);
    let more = len_before_feed(&text[front..]);
    (front + more, more == 0)
}

/// The line at a place as it stands there, up to its line feed, if one is left.
#[inline(always)]
fn raw_line(text: &[u8], place: Place) -> Option<RawLine>
    requires { place.at ≤ length text.now }
    ensures none { IfNone result (IsAtEnd text.now place) }
    ensures line { IfSome result (λ raw. IsFirstLine text.now place raw.line) }
    ensures is_text { IfSome result (λ raw. raw.is_text ≡ true
        → list_all is_text_byte (slice_range text.now raw.line.from raw.line.to) ≡ true) }
{
    let rest = &text[place.at..];
    if rest.is_empty() {
        return None;
    }
    let (len, is_text) = line_len(rest);
    let line = Line {
        from: place.at,
        to: place.at + len,
        number: place.number,
    };
    Some(RawLine { line, is_text })
}

/// The place behind a line: behind its line feed, or at the end of the text.
#[inline(always)]
fn place_behind(text: &[u8], raw: Line) -> Place
    requires line { LiesIn raw text.now }
    requires short { length text.now < text_limit }
    requires number { raw.number ≤ raw.from + 1 }
    ensures { result ≡ place_behind text.now (text_line text.now raw) }
{
    Place {
        at: (raw.to + 1).min(text.len()),
        number: raw.number + 1,
    }
}

/// A line's bytes without one carriage return at the end.
#[inline(always)]
fn without_return(bytes: &[u8]) -> &[u8]
    ensures { result.now ≡ without_return bytes.now }
{
    match bytes {
        [front @ .., b'\r'] => front,
        _ => bytes,
    }
}

/// Where what a line says stands: without a carriage return at the end, and without blanks at
/// both ends.
#[inline(always)]
fn content_of(text: &[u8], raw: Line) -> Line
    requires { LiesIn raw text.now }
    ensures span { result ≡ span_of (text_line text.now raw) }
    ensures content { slice_range text.now result.from result.to
        ≡ content (text_line text.now raw) }
    ensures lies { LiesIn result text.now }
{
    let bytes = without_return(&text[raw.from..raw.to]);
    let from = raw.from + blanks_len(bytes);
    Line {
        from,
        to: from + trimmed(bytes).len(),
        number: raw.number,
    }
}

/// Whether there are only tabs and bytes from a space to a tilde, where that may be known.
#[inline(always)]
fn is_text(content: &[u8], is_known: bool) -> bool
    requires { is_known ≡ true → list_all is_text_byte content.now ≡ true }
    ensures { result ≡ list_all is_text_byte content.now }
{
    is_known || text_len(content) == content.len()
}

/// What a line gives: what is wrong with it, nothing where it is a comment, or where it stands.
#[inline(always)]
fn judged(text: &[u8], raw: RawLine) -> Result<Option<Line>, LexError>
    requires line { LiesIn raw.line text.now }
    requires is_text { raw.is_text ≡ true
        → list_all is_text_byte (slice_range text.now raw.line.from raw.line.to) ≡ true }
    ensures answer { result ≡ judged (text_line text.now raw.line) }
    ensures content { IfOk result (λ found. IfSome found (λ line.
        slice_range text.now line.from line.to ≡ content (text_line text.now raw.line))) }
    ensures lies { IfOk result (λ found. IfSome found (λ line. LiesIn line text.now)) }
{
    if raw.line.to - raw.line.from > LINE_LIMIT {
        return Err(LexError::LongLine);
    }
    let line = content_of(text, raw.line);
    let content = &text[line.from..line.to];
    if content.starts_with(b"//") {
        Ok(None)
    } else if is_text(content, raw.is_text) {
        Ok(Some(line))
    } else {
        Err(LexError::NotText)
    }
}

/// The next line from a place on that isn't a comment, without one carriage return at its end and
/// then without blanks at both ends. Afterwards `place` is behind that line. A blank line is given
/// too: its span is empty.
///
/// None exactly where nothing but comment lines, none of them too long, or nothing at all is
/// left; `place` is then at the end of the text. `LongLine` exactly where the next line that isn't
/// passed over has more than 2^20 bytes without its line feed, a comment or not, and else
/// `NotText` exactly where it holds a byte that is neither a tab nor from a space to a tilde;
/// `place` then names that line.
///
/// The text has fewer than 2^31 bytes. `place.at` is at most its length, and `place.number` at
/// most `place.at + 1`, and both stay so. The cost is linear in what is read.
pub fn next_line(text: &[u8], place: &mut Place) -> Result<Option<Line>, LexError>
    requires short { length text.now < text_limit }
    requires at { place.old.at ≤ length text.now }
    requires number { place.old.number ≤ place.old.at + 1 }
    ensures answer { result ≡ answer_of (behind_comments (lines_at text.now place.old)) }
    ensures place { let left = behind_comments (lines_at text.now place.old) in
        place.new ≡ place_after text.now place.old left }

    // What follows from these, as callers go on with it.
    ensures none { (result ≡ Ok None)
        ↔ IsTrue (list_all is_passed_over (lines_at text.now place.old)) }
    ensures line { IfOk result (λ found. IfSome found (IsNextLine text.now place.old place.new)) }
    ensures refused { OnErr result
        (behind_comments (lines_at text.now place.old) ≡ lines_at text.now place.new) }
    ensures at { place.new.at ≤ length text.now }
    ensures number { place.new.number ≤ place.new.at + 1 }
{
    while let Some(raw) = raw_line(text, *place) {
        let line = judged(text, raw)?;
        *place = place_behind(text, raw.line);
        if line.is_some() {
            return Ok(line);
        }
    }
    Ok(None)
}
