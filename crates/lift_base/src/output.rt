// Where bytes go, and the calls that write.
ghost use Rattle.std.specs.Prelude.{◌≡◌, ◌<◌, ◌≤◌, List, [], ℕ, length, take, Option};
ghost use Rattle.std.specs.Borrow.{GName};
ghost use Rattle.std.specs.Io.KnownBytes.{Appends};
ghost use Rattle.std.specs.Fmt.{decimal, signed_decimal};
ghost use Rattle.std.specs.List.{flat_map};
ghost use Rattle.lift_base.specs.Outside.{Puts, Rose, Wrote};
ghost use Rattle.lift_base.specs.Word.{spaced, spaced_mark, word_text};
ghost use Rattle.lift_base.specs.declared.tail.TheConstants.{GROUP};

use crate::tail::{GROUP, Tail};
use itoa::Buffer;

/// What one write did.
#[derive(Clone, Copy)]
pub enum Put {
    /// So many bytes were taken from the front of the piece, at least one.
    Took(usize),
    /// Nothing was taken, and a fault was counted.
    Failed,
}

/// Where bytes go.
pub trait Sink {
    /// The bytes that were taken, where they are told.
    ghost taken: { Self → Option (List ℕ) };

    /// How often a write has failed.
    ghost faults: { Self → ℕ };

    /// Where the sink is a reference, its name in the logic, which no write changes.
    ghost reference: { Self → GName } = { λ _. 0 };

    /// Takes bytes from the front of the piece.
    fn write(&mut self, piece: &[u8]) -> Put
        requires { 0 < length piece.now }
        ensures does { Puts taken faults self.old self.new result piece.now }
        ensures same { reference self.new ≡ reference self.old };
}

impl<K: Sink> Sink for &mut K {
    ghost taken = { λ s. K.taken s.now };

    ghost faults = { λ s. K.faults s.now };

    ghost reference = { λ s. s.ghost_name };

    fn write(&mut self, piece: &[u8]) -> Put {
        (**self).write(piece)
    }
}

/// A write failed, and a part of the bytes may have been taken.
#[derive(Clone, Copy, Debug)]
pub struct WriteFault;

// Writes until all is taken or a write fails, and tells how many bytes were taken.
pub(crate) fn write_most<K: Sink>(out: &mut K, piece: &[u8]) -> usize
    ensures bound { result ≤ length piece.now }
    ensures taken { Appends (K.taken out.old) (K.taken out.new) (take result piece.now) }
    ensures calm { result ≡ length piece.now → K.faults out.new ≡ K.faults out.old }
    ensures cause { result < length piece.now → Rose (K.faults out.old) (K.faults out.new) }
    ensures later { K.faults out.old ≤ K.faults out.new }
    ensures same { K.reference out.new ≡ K.reference out.old }
    ensures no_call { piece.now ≡ [] → out.new ≡ out.old }
{
    let mut rest = piece;
    while !rest.is_empty() {
        match out.write(rest) {
            Put::Took(count) => rest = &rest[count..],
            Put::Failed => return piece.len() - rest.len(),
        }
    }
    piece.len()
}

/// Writes the whole piece, and makes no call where that is empty. Takes no memory.
pub fn write_all<K: Sink>(out: &mut K, piece: &[u8]) -> Result<(), WriteFault>
    ensures wrote { Wrote K.taken K.faults out.old out.new result piece.now }
    ensures no_call { piece.now ≡ [] → (result ≡ Ok tt) × (out.new ≡ out.old) }
{
    if write_most(out, piece) < piece.len() {
        Err(WriteFault)
    } else {
        Ok(())
    }
}

/// Writes the decimal text of a number: `-` before a negative one, and no leading zeros. Takes no
/// memory.
pub fn put_number<K: Sink>(out: &mut K, n: i128) -> Result<(), WriteFault>
    ensures { Wrote K.taken K.faults out.old out.new result (signed_decimal n) }
{
    let mut digits = Buffer::new();
    write_all(out, digits.format(n).as_bytes())
}

/// A part of a text that is written.
#[derive(Clone, Copy)]
pub enum Word<'a> {
    /// Bytes as they are.
    Text(&'a [u8]),
    /// The decimal text of a number.
    Count(u64),
    /// The decimal text of a number, with `-` before a negative one.
    Number(i128),
    /// The decimal text of each number, with a blank before each.
    Numbers(&'a [i64]),
}

// Writes a few numbers, each behind a blank, at once.
fn write_group<K: Sink>(out: &mut K, numbers: &[i64]) -> Result<(), WriteFault>
    requires { length numbers.now ≤ GROUP }
    ensures { Wrote K.taken K.faults out.old out.new result (flat_map spaced numbers.now) }
{
    let mut text = Tail::new();
    text.put_numbers(numbers);
    write_all(out, text.as_slice())
}

/// Writes each number behind a blank. Takes no memory.
pub fn write_numbers<K: Sink>(out: &mut K, numbers: &[i64]) -> Result<(), WriteFault>
    ensures { Wrote K.taken K.faults out.old out.new result (flat_map spaced numbers.now) }
{
    for group in numbers.chunks(GROUP) {
        write_group(out, group)?;
    }
    Ok(())
}

// Writes a few marks, each behind a blank, at once.
fn write_few_marks<K: Sink>(out: &mut K, marks: &[u32], none: u32) -> Result<(), WriteFault>
    requires { length marks.now ≤ GROUP }
    ensures { Wrote K.taken K.faults out.old out.new result (flat_map (spaced_mark none) marks.now) }
{
    let mut text = Tail::new();
    text.put_marks(marks, none);
    write_all(out, text.as_slice())
}

/// Writes the decimal text of each mark behind a blank, and `-` in place of one that is `none`. Takes
/// no memory.
pub fn write_marks<K: Sink>(out: &mut K, marks: &[u32], none: u32) -> Result<(), WriteFault>
    ensures { Wrote K.taken K.faults out.old out.new result (flat_map (spaced_mark none) marks.now) }
{
    for group in marks.chunks(GROUP) {
        write_few_marks(out, group, none)?;
    }
    Ok(())
}

// Writes the decimal text of a count.
fn put_count<K: Sink>(out: &mut K, n: u64) -> Result<(), WriteFault>
    ensures { Wrote K.taken K.faults out.old out.new result (decimal n) }
{
    let mut buffer = Buffer::new();
    write_all(out, buffer.format(n).as_bytes())
}

// Writes one part.
fn put_word<K: Sink>(out: &mut K, word: &Word) -> Result<(), WriteFault>
    ensures { Wrote K.taken K.faults out.old out.new result (word_text word.now) }
{
    match *word {
        Word::Text(text) => write_all(out, text),
        Word::Count(n) => put_count(out, n),
        Word::Number(n) => put_number(out, n),
        Word::Numbers(numbers) => write_numbers(out, numbers),
    }
}

// Writes one part after the other.
fn write_each<K: Sink>(out: &mut K, words: &[Word]) -> Result<(), WriteFault>
    ensures { Wrote K.taken K.faults out.old out.new result (flat_map word_text words.now) }
{
    for word in words {
        put_word(out, word)?;
    }
    Ok(())
}

/// Writes texts and numbers, one after the other, at once where they are short. Takes no memory.
pub fn write_words<K: Sink>(out: &mut K, words: &[Word]) -> Result<(), WriteFault>
    ensures { Wrote K.taken K.faults out.old out.new result (flat_map word_text words.now) }
{
    let mut text = Tail::new();
    if text.try_words(words) {
        write_all(out, text.as_slice())
    } else {
        write_each(out, words)
    }
}
