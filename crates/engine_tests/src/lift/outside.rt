//! Tests of what reads and writes.
ghost use Rattle.std.specs.Prelude.{List, ℕ};
ghost use Rattle.std.specs.List.{flat_map};
ghost use Rattle.lift_base.specs.Word.{word_text};

use crate::cells::each_row;
use lift_base::{
    MemSink, MemSource, ReadError, Sink, SureSink, SureSource, Text, Word, WriteFault, put_number,
    read_all, write_all, write_buffered, write_words,
};
use std::alloc::{AllocError, Global};
use std::string::String;
use test_cells::{Teller, Unreported, cut, number};

/// The number of the one call that fails.
fn calls(alloc: Global, failing: u64) -> Result<Vec<u64>, AllocError> {
    Vec::from_slice(alloc, &[failing])
}

/// Reads ten digits, three a call; and again after a fault: the bytes of the calls before it are
/// lost, and the rest is there.
fn read_digits(alloc: Global, failing: u64, limit: usize) -> Result<Vec<u8>, ReadError> {
    let digits = Vec::from_slice(alloc, b"0123456789")?;
    let mut source = MemSource::new(digits, 3, calls(alloc, failing)?);
    match read_all(alloc, &mut source, limit) {
        Err(ReadError::Fault) => read_all(alloc, &mut source, limit),
        first => first,
    }
}

/// The call that fails, the limit, and the bytes that come or why none do.
const READ: &str = "\
0 | 10 | 0123456789
0 | 9 | TooLong
3 | 10 | 6789
5 | 10 | ";

/// The bytes that come, or why none do.
fn shown(alloc: Global, answer: Result<Vec<u8>, ReadError>) -> Result<String, AllocError> {
    match answer {
        Ok(bytes) => String::from_utf8_lossy(alloc, &bytes),
        Err(cause) => format!(in alloc; "{cause:?}"),
    }
}

struct Digits;

impl Teller for Digits {
    type Reported = String;

    type Error = AllocError;

    fn tell(&self, alloc: Global, asked: &str) -> Result<String, AllocError> {
        let (failing, limit) = cut(asked);
        shown(
            alloc,
            read_digits(alloc, number(failing), number(limit) as usize),
        )
    }
}

#[test]
fn reads_to_the_end_or_the_limit_or_a_fault(rt: HostRuntime) {
    each_row(&rt, rt.alloc(), READ, &Digits);
}

/// Whether all of a source comes that never fails.
fn reads_sure(alloc: Global, text: &[u8]) -> Result<bool, ReadError> {
    let mut sure = SureSource::new(Vec::from_slice(alloc, text)?);
    Ok(read_all(alloc, &mut sure, 5)?.as_slice() == text)
}

#[test]
fn reads_a_source_that_never_fails(rt: HostRuntime) {
    assert!(rt; matches!(reads_sure(rt.alloc(), b"plain"), Ok(true)));
}

/// Some parts, as a text.
#[derive(Drop)]
struct Parts<'a> {
    words: &'a [Word<'a>],
}

impl<'a> Text for Parts<'a> {
    ghost text = { λ p. flat_map word_text p.words.now };

    fn write_to<K: Sink>(&self, out: &mut K) -> Result<(), WriteFault> {
        write_words(out, self.words)
    }
}

const WORDS: [Word; 4] = [
    Word::Text(b"n"),
    Word::Count(18446744073709551615),
    Word::Number(-170141183460469231731687303715884105728),
    Word::Numbers(&[0, -1, 10]),
];

const WORDS_TEXT: &[u8] = b"n18446744073709551615-170141183460469231731687303715884105728 0 -1 10";

/// The bytes of room, the call that fails, and how many bytes are taken, one a call.
const TAKEN: &str = "\
99 | 0 | 69
69 | 0 | 69
68 | 0 | 68
99 | 1 | 0
99 | 24 | 23";

/// A sink that takes one byte in a call, with the room and the failing call of these cells.
fn sink(alloc: Global, cells: &str) -> Result<MemSink, AllocError> {
    let (room, failing) = cut(cells);
    MemSink::new(
        alloc,
        number(room) as usize,
        1,
        calls(alloc, number(failing))?,
    )
}

/// How many bytes of the words the sink took, where it was said rightly whether these are all; none else.
fn taken(out: &MemSink, is_whole: bool) -> Option<usize> {
    let taken = out.taken();
    let is_right = WORDS_TEXT.starts_with(taken) && is_whole == (taken.len() == WORDS_TEXT.len());
    is_right.then_some(taken.len())
}

/// How many bytes are taken of words that are written.
fn written(out: &mut MemSink, words: &[Word]) -> Option<usize> {
    let is_whole = write_words(out, words).is_ok();
    taken(out, is_whole)
}

struct WrittenWords;

impl Teller for WrittenWords {
    type Reported = usize;

    type Error = Unreported;

    fn tell(&self, alloc: Global, asked: &str) -> Result<usize, Unreported> {
        let mut out = sink(alloc, asked)?;
        written(&mut out, &WORDS).ok_or(Unreported::Cell)
    }
}

#[test]
fn writes_numbers_and_stops_at_a_fault(rt: HostRuntime) {
    each_row(&rt, rt.alloc(), TAKEN, &WrittenWords);
}

/// How many bytes are taken of words that are gathered.
fn gathered(out: &mut MemSink, words: &[Word]) -> Option<usize> {
    let is_whole = write_buffered(out, &Parts { words }).is_ok();
    taken(out, is_whole)
}

struct GatheredWords;

impl Teller for GatheredWords {
    type Reported = usize;

    type Error = Unreported;

    fn tell(&self, alloc: Global, asked: &str) -> Result<usize, Unreported> {
        let mut out = sink(alloc, asked)?;
        gathered(&mut out, &WORDS).ok_or(Unreported::Cell)
    }
}

#[test]
fn gathers_numbers_and_stops_at_a_fault(rt: HostRuntime) {
    each_row(&rt, rt.alloc(), TAKEN, &GatheredWords);
}

/// The call that fails, and how many bytes are taken of 3000 pieces of 7 bytes: 1170 of them fit
/// 8192 bytes, so three calls do.
const GATHERED: &str = "\
4 | 21000
3 | 16380
1 | 0";

/// How many bytes are taken of the pieces, where it was said rightly whether these are all; none else.
fn pieces_taken(out: &mut MemSink, pieces: &[Word]) -> Option<usize> {
    let is_whole = write_buffered(out, &Parts { words: pieces }).is_ok();
    let count = out.taken().len();
    (is_whole == (count == 21000)).then_some(count)
}

struct Pieces;

impl Teller for Pieces {
    type Reported = usize;

    type Error = Unreported;

    fn tell(&self, alloc: Global, asked: &str) -> Result<usize, Unreported> {
        let mut out = MemSink::new(alloc, 21000, 8192, calls(alloc, number(asked))?)?;
        let pieces = [Word::Text(b"seven, "); 3000];
        pieces_taken(&mut out, &pieces).ok_or(Unreported::Cell)
    }
}

#[test]
fn gathers_small_pieces(rt: HostRuntime) {
    each_row(&rt, rt.alloc(), GATHERED, &Pieces);
}

/// How many bytes a word and a number have.
fn counted() -> Option<u64> {
    let mut sure = SureSink::new();
    write_all(&mut sure, b"plain").ok()?;
    put_number(&mut sure, -12).ok()?;
    Some(sure.count())
}

#[test]
fn counts_what_comes(rt: HostRuntime) {
    assert!(rt; counted() == Some(8));
}
