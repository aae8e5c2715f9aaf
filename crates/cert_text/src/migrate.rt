// The text of a report in the second version, made of that in the first.
ghost use Rattle.std.specs.Prelude.{◌≡◌, ◌≤◌, ◌<◌, ◌∷◌, ℕ, List, length};
ghost use Rattle.std.specs.List.{flat_map};
ghost use Rattle.lift_base.specs.Lines.{feed_at};
ghost use Rattle.lift_base.specs.Outside.{Wrote};
ghost use Rattle.cert_text.specs.Migrated.{MigratesTo, lines_of, precision_in, second_line};

use lift_base::{Sink, Word, WriteFault, write_all, write_words, writes_in_turn};
use memchr::memchr;

/// With what the line of the precision begins.
const PRECISION: &[u8] = b"precision ";

/// How many bytes stand before the first line feed; all of them where there is none.
#[tactic(auto, using(crate::proofs::TextLines::no_feed, crate::proofs::TextLines::first_feed))]
fn line_len(text: &[u8]) -> usize
    ensures within { result ≤ length text.now }
    ensures len { result ≡ feed_at text.now }
{
    match memchr(b'\n', text) {
        Some(len) => len,
        None => text.len(),
    }
}

/// The first line of a text, with its line feed, and what stands behind it.
pub(crate) fn cut_line(text: &[u8]) -> (&[u8], &[u8])
    requires { 0 < length text.now }
    ensures lines { lines_of text.now ≡ result.0.now ∷ lines_of result.1.now }
    ensures shorter { length result.1.now < length text.now }
{
    let len = line_len(text) + 1;
    text.split_at(len.min(text.len()))
}

/// The number in the line of the precision, and its line feed.
fn precision_of(text: &[u8]) -> &[u8]
    ensures { result.now ≡ precision_in (lines_of text.now) }
{
    let mut rest = text;
    while !rest.is_empty() {
        let (line, behind) = cut_line(rest);
        if line.starts_with(PRECISION) {
            return &line[PRECISION.len()..];
        }
        rest = behind;
    }
    b""
}

/// Writes what the second version has in place of a line of the first.
fn write_line<'t, K: Sink>(
    out: &mut K,
    line: &'t [u8],
    precision: &'t [u8],
) -> Result<(), WriteFault>
    ensures { Wrote K.taken K.faults out.old out.new result (second_line precision.now line.now) }
{
    if line.starts_with(b"plift ") {
        write_all(out, b"plift 2\n")
    } else if line.starts_with(PRECISION) {
        write_words(
            out,
            &[
                Word::Text(line),
                Word::Text(b"from "),
                Word::Text(precision),
            ],
        )
    } else if line.starts_with(b"accept") || line.starts_with(b"reject") {
        write_words(
            out,
            &[Word::Text(b"at "), Word::Text(precision), Word::Text(line)],
        )
    } else {
        write_all(out, line)
    }
}

/// Writes what the second version has in place of the lines of a text.
fn write_lines<'t, K: Sink>(
    out: &mut K,
    text: &'t [u8],
    precision: &'t [u8],
) -> Result<(), WriteFault>
    ensures { Wrote K.taken K.faults out.old out.new result
        (flat_map (second_line precision.now) (lines_of text.now)) }
{
    writes_in_turn::<K>();
    let mut rest = text;
    while !rest.is_empty() {
        let (line, behind) = cut_line(rest);
        write_line(out, line, precision)?;
        rest = behind;
    }
    Ok(())
}

/// Writes the text of the second version for a report's text of the first: that of the same head and tree, whose
/// range is the precision alone, which each decided leaf has. Takes no memory.
pub fn migrate_text<K: Sink>(text: &[u8], out: &mut K) -> Result<(), WriteFault>
    requires { (new : List ℕ) × MigratesTo text.now new }
    ensures { (new : List ℕ) → MigratesTo text.now new → Wrote K.taken K.faults out.old out.new result new }
{
    write_lines(out, text, precision_of(text))
}
