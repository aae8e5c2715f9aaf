//! The parts of a formula's text, each a piece of it. No call takes memory.

ghost use Rattle.std.specs.Prelude.{◌≡◌, ◌≤◌, length, true, false};
ghost use Rattle.std.specs.List.{list_all, prefix_len};
ghost use Rattle.std.specs.Option.{option_map, option_copied};
ghost use Rattle.lift_frac.specs.Literal.{Literal, is_literal};
ghost use Rattle.lift_frac.specs.Grammar.{Writes as WritesLiteral};
ghost use Rattle.lift_frac.specs.Written.{cut_at as cut_of};
ghost use Rattle.lift_grid.specs.Region.{behind_mark};
ghost use Rattle.property_text.specs.Grammar.{IsRatio, is_label_byte};
ghost use Rattle.property_text.specs.Reading.{op_at, label_at, path_to, path_at};
ghost use Rattle.property_text.specs.Reading.{is_bound_byte, from_bound, written_at, is_ratio};

use crate::op::Op;
use lift_bytes::{digits_len, is_blank, len_before, trimmed_front};
use lift_frac::literal_len;

/// What a formula's text writes.
#[derive(Drop)]
pub(crate) struct Parts<'a> {
    /// Its comparison.
    pub op: Op,
    /// The text of its bound.
    pub bound: &'a [u8],
    /// The label of the safe states, if it has one.
    pub safe: Option<&'a [u8]>,
    /// The label of the goal states.
    pub goal: &'a [u8],
}

impl<'a> std::marker::Model for Parts<'a> {
    ghost use Rattle.std.specs.Option.{option_copied};
    ghost use Rattle.property_text.specs.Grammar.{Written};

    ghost Value = { Written };

    ghost view = { λ p. record { op = p.op; bound = p.bound.now; safe = option_copied p.safe; goal = p.goal.now } };
}

/// A path at the front of a text, and what stands behind it.
#[derive(Drop)]
struct Path<'a> {
    safe: Option<&'a [u8]>,
    goal: &'a [u8],
    rest: &'a [u8],
}

impl<'a> std::marker::Model for Path<'a> {
    ghost use Rattle.std.specs.Option.{option_copied};
    ghost use Rattle.property_text.specs.Reading.{Path};

    ghost Value = { Path };

    ghost view = { λ p. record { safe = option_copied p.safe; goal = p.goal.now; rest = p.rest.now } };
}

/// What stands behind a mark, where blanks before it are passed over.
fn behind_mark<'a>(mark: &[u8], text: &'a [u8]) -> Option<&'a [u8]>
    ensures { option_copied result ≡ behind_mark mark.now text.now }
{
    trimmed_front(text).strip_prefix(mark)
}

/// What stands before and behind the first byte that is `mark`.
fn cut_at(text: &[u8], mark: u8) -> Option<(&[u8], &[u8])>
    ensures { option_map (λ parts. (parts.0.now, parts.1.now)) result ≡ cut_of mark text.now }
{
    let len = len_before(text, mark);
    if len < text.len() {
        Some((&text[..len], &text[len + 1..]))
    } else {
        None
    }
}

/// The comparison at the front, and what stands behind it.
fn op_at(text: &[u8]) -> Option<(Op, &[u8])>
    ensures { option_map (λ parts. (parts.0, parts.1.now)) result ≡ op_at text.now }
{
    if let Some(rest) = behind_mark(b"<=", text) {
        return Some((Op::AtMost, rest));
    }
    if let Some(rest) = behind_mark(b"<", text) {
        return Some((Op::Below, rest));
    }
    if let Some(rest) = behind_mark(b">=", text) {
        return Some((Op::AtLeast, rest));
    }
    let rest = behind_mark(b">", text)?;
    Some((Op::Above, rest))
}

/// Whether all are bytes of labels.
fn are_label_bytes(bytes: &[u8]) -> bool
    ensures { result ≡ list_all is_label_byte bytes.now }
{
    bytes
        .iter()
        .all(|byte| b' ' <= *byte && *byte <= b'~' && *byte != b'"')
}

/// The label in quotes at the front, and what stands behind it.
fn label_at(text: &[u8]) -> Option<(&[u8], &[u8])>
    ensures { option_map (λ parts. (parts.0.now, parts.1.now)) result ≡ label_at text.now }
{
    let rest = behind_mark(b"\"", text)?;
    let (label, rest) = cut_at(rest, b'"')?;
    if are_label_bytes(label) && !label.is_empty() {
        Some((label, rest))
    } else {
        None
    }
}

/// A path that ends with a label.
fn path_to<'a>(safe: Option<&'a [u8]>, text: &'a [u8]) -> Option<Path<'a>>
    ensures { result ≡ path_to (option_copied safe.entry) text.now }
{
    let (goal, rest) = label_at(text)?;
    Some(Path { safe, goal, rest })
}

/// The path at the front.
fn path_at(text: &[u8]) -> Option<Path<'_>>
    ensures { result ≡ path_at text.now }
{
    if let Some(rest) = behind_mark(b"F", text) {
        return path_to(None, rest);
    }
    let (safe, rest) = label_at(text)?;
    path_to(Some(safe), behind_mark(b"U", rest)?)
}

/// Whether it is a byte of a bound: neither a blank nor the bracket behind it.
fn is_bound_byte(byte: u8) -> bool
    ensures { result ≡ is_bound_byte byte }
{
    !is_blank(byte) && byte != b'['
}

/// How many bytes of a bound stand at the front.
fn bound_len(text: &[u8]) -> usize
    ensures within { result ≤ length text.now }
    ensures len { result ≡ prefix_len is_bound_byte text.now }
{
    for (i, byte) in text.iter().enumerate() {
        if !is_bound_byte(*byte) {
            return i;
        }
    }
    text.len()
}

/// A formula from its bound on, whose text begins there.
fn from_bound(op: Op, text: &[u8]) -> Option<Parts<'_>>
    ensures { result ≡ from_bound op text.now }
{
    let (bound, rest) = text.split_at(bound_len(text));
    let Path { safe, goal, rest } = path_at(behind_mark(b"[", rest)?)?;
    let rest = behind_mark(b"]", rest)?;
    if !rest.is_empty() {
        return None;
    }
    Some(Parts {
        op,
        bound,
        safe,
        goal,
    })
}

/// What a text writes, where it is a formula but for its bound.
pub(crate) fn written_at(text: &[u8]) -> Option<Parts<'_>>
    ensures { result ≡ written_at text.now }
{
    let (op, rest) = op_at(text.strip_prefix(b"P")?)?;
    from_bound(op, trimmed_front(rest))
}

/// Whether a text is a literal.
fn is_literal(text: &[u8]) -> bool
    ensures is { result ≡ is_literal text.now }
    ensures yes { result ≡ true → (l : Literal) × WritesLiteral text.now l }
    ensures no { result ≡ false → (l : Literal) → WritesLiteral text.now l → ⊥ }
{
    digits_len(text) > 0 && literal_len(text) == text.len()
}

/// Whether a text is a literal, or one over another.
pub(crate) fn is_ratio(text: &[u8]) -> bool
    ensures is { result ≡ is_ratio text.now }
    ensures yes { result ≡ true → IsRatio text.now }
    ensures no { result ≡ false → IsRatio text.now → ⊥ }
{
    match cut_at(text, b'/') {
        Some((above, below)) => is_literal(above) && is_literal(below),
        None => is_literal(text),
    }
}
