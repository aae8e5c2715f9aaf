// Cuts the nodes of a report off its text, one after another.
ghost use Rattle.std.specs.Prelude.{◌≡◌, ◌<◌, ◌++◌, ℕ, List, Some, codes, false, length, nat_eq, pos, take};
ghost use Rattle.std.specs.List.{concat, starts_with};
ghost use Rattle.lift_model.specs.Valid.{most_parameters};
ghost use Rattle.line_text.specs.Words.{words};
ghost use Rattle.cert_text.specs.Report.{number_words, split_line};
ghost use Rattle.cert_text.specs.Migrated.{lines_of};
ghost use Rattle.cert_text.specs.Cut.{CutsNode, IsBehind, lines_ahead};

use crate::migrate::cut_line;
use lift_bytes::len_before;
use line_text::Words;

/// A node of a report's text. A decided leaf has the bytes of its lines.
#[derive(Clone, Copy, Debug, PartialEq, Eq)]
pub enum NodeText<'t> {
    /// A split on that parameter. The nodes of the lower half follow it, then those of the upper half.
    Split(u32),
    /// An accepting leaf.
    Accept(&'t [u8]),
    /// A rejecting leaf.
    Reject(&'t [u8]),
    /// An unknown leaf.
    Unknown,
}

/// What stands behind the first line of a text; nothing where there is no line.
fn behind_line(text: &[u8]) -> &[u8]
    ensures { IsBehind 1 text.now result.now }
{
    if text.is_empty() {
        return text;
    }
    cut_line(text).1
}

/// What stands behind so many lines of a text; nothing where there are fewer.
pub fn behind_lines(text: &[u8], count: u32) -> &[u8]
    ensures { IsBehind count text.now result.now }
{
    let mut rest = text;
    for _ in 0..count {
        rest = behind_line(rest);
    }
    rest
}

/// The first so many lines of a text, and what stands behind them.
pub fn cut_lines(text: &[u8], count: u32) -> (&[u8], &[u8])
    ensures lines { result.0.now ≡ concat (take count (lines_of text.now)) }
    ensures behind { IsBehind count text.now result.1.now }
{
    let behind = behind_lines(text, count);
    (&text[..text.len() - behind.len()], behind)
}

/// The number behind the first word of a line.
fn second_number(line: &[u8]) -> Option<i128>
    ensures { (key : List ℕ) (n : ℕ) → n < most_parameters → words line.now ≡ number_words key n → result ≡ Some (pos n) }
{
    match Words::of(line).first() {
        Ok((_, rest)) => match rest.number() {
            Some((number, _)) => number.narrow(),
            None => None,
        },
        Err(_) => None,
    }
}

/// The parameter of a split, whose line begins the text.
fn axis_in(text: &[u8]) -> u32
    ensures { (axis : ℕ) (rest : List ℕ) → axis < most_parameters → text.now ≡ split_line axis ++ rest → result ≡ axis }
{
    match second_number(&text[..len_before(text, b'\n')]) {
        Some(n) if 0 <= n && n <= i128::from(u32::MAX) => n as u32,
        _ => 0,
    }
}

/// How many lines stand before those of a decided leaf: that of its precision, in the second version.
fn lines_ahead(text: &[u8]) -> u32
    ensures { result ≡ lines_ahead text.now }
{
    if text.starts_with(b"at ") { 1 } else { 0 }
}

/// Cuts off a decided leaf.
fn cut_leaf(text: &[u8]) -> (NodeText<'_>, &[u8])
    requires split { starts_with nat_eq text.now (codes "split") ≡ false }
    requires unknown { starts_with nat_eq text.now (codes "unknown") ≡ false }
    ensures { CutsNode text.now result.0 result.1.now }
{
    let ahead = lines_ahead(text);
    if behind_lines(text, ahead).starts_with(b"accept") {
        let (lines, rest) = cut_lines(text, ahead + 1);
        (NodeText::Accept(lines), rest)
    } else {
        let (lines, rest) = cut_lines(text, ahead + 4);
        (NodeText::Reject(lines), rest)
    }
}

/// Cuts off the node of a report that begins the text. Takes no memory.
pub fn cut_node(text: &[u8]) -> (NodeText<'_>, &[u8])
    ensures { CutsNode text.now result.0 result.1.now }
{
    if text.starts_with(b"split") {
        (NodeText::Split(axis_in(text)), behind_line(text))
    } else if text.starts_with(b"unknown") {
        (NodeText::Unknown, behind_line(text))
    } else {
        cut_leaf(text)
    }
}
