//! Tests of lines that are read one by one.

use crate::cells::each_row;
use lift_base::{LineError, Lines, MemSource, Piece};
use std::alloc::{AllocError, Global};
use std::fmt::Write;
use std::string::String;
use test_cells::{Teller, cut, cut_three, number};

/// The bytes of a text, in which `/` stands for a line feed.
fn bytes_of(alloc: Global, text: &str) -> Result<Vec<u8>, AllocError> {
    let mut bytes = Vec::new(alloc);
    for byte in text.as_bytes() {
        bytes.push(if *byte == b'/' { b'\n' } else { *byte })?;
    }
    Ok(bytes)
}

/// A source of these bytes, by `step` of them a call, of which one call fails.
fn source_of(
    alloc: Global,
    bytes: Vec<u8>,
    step: usize,
    failing: u64,
) -> Result<MemSource, AllocError> {
    let calls = Vec::from_slice(alloc, &[failing])?;
    Ok(MemSource::new(bytes, step.max(1), calls))
}

/// What is told of an answer that gives no line.
fn name_of(answer: Result<Piece, LineError>) -> &'static str {
    match answer {
        Ok(Piece::Line { .. }) => "Line",
        Ok(Piece::Cut) => "Cut",
        Ok(Piece::Long) => "Long",
        Ok(Piece::End) => "End",
        Err(LineError::Fault) => "Fault",
        Err(LineError::TooLong) => "TooLong",
    }
}

/// Tells the next line, a `/` behind it, or the name of an answer that gives none, unless it is the last one again; and
/// gives that name.
fn tell_next(
    lines: &mut Lines,
    source: &mut MemSource,
    last: &str,
    reported: &mut Vec<u8>,
) -> Result<&'static str, AllocError> {
    match lines.next(source) {
        Ok(Piece::Line { from, to }) => {
            reported.extend_from_slice(&lines.text()[from..to])?;
            reported.push(b'/')?;
            Ok("")
        }
        answer => {
            let name = name_of(answer);
            if name != last {
                reported.extend_from_slice(name.as_bytes())?;
            }
            Ok(name)
        }
    }
}

/// Tells the lines, and what is answered behind them until an answer comes again.
fn tell_lines(
    lines: &mut Lines,
    source: &mut MemSource,
    reported: &mut Vec<u8>,
) -> Result<(), AllocError> {
    let mut last = "";
    for _ in 0..20 {
        let name = tell_next(lines, source, last, reported)?;
        if !name.is_empty() && name == last {
            return Ok(());
        }
        last = name;
    }
    Ok(())
}

/// The lines and answers that come of a source.
fn reported_of(alloc: Global, source: &mut MemSource, limit: u64) -> Result<String, AllocError> {
    let mut lines = Lines::make(alloc, limit.min(99))?;
    let mut reported = Vec::new(alloc);
    tell_lines(&mut lines, source, &mut reported)?;
    String::from_utf8_lossy(alloc, &reported)
}

/// A text; how many bytes a call gives; the call that fails, none where it is 0; how many bytes are
/// allowed; and what comes, with the answer at which it stays. A call that isn't needed isn't made: the
/// five bytes come in three calls of two, the end in a fourth, and there is no fifth.
const REPORTED: &str = "\
/ | 1 | 0 | 99 | /End
 | 1 | 0 | 99 | End
// | 9 | 0 | 99 | //End
a/bc//d/ | 1 | 0 | 99 | a/bc//d/End
a/bc//d/ | 3 | 0 | 99 | a/bc//d/End
a/bc//d/ | 9 | 0 | 99 | a/bc//d/End
a/bc//d | 1 | 0 | 99 | a/bc//Cut
a/bc//d | 9 | 0 | 99 | a/bc//Cut
a | 1 | 0 | 99 | Cut
a/bc/ | 2 | 1 | 99 | Fault
a/bc/ | 2 | 2 | 99 | a/Fault
a/bc/ | 2 | 3 | 99 | a/Fault
a/bc/ | 2 | 4 | 99 | a/bc/Fault
a/bc/ | 2 | 5 | 99 | a/bc/End
a/bc | 2 | 3 | 99 | a/Fault
a/bc | 2 | 4 | 99 | a/Cut
a/bc/ | 1 | 0 | 5 | a/bc/End
a/bc/ | 1 | 0 | 4 | a/TooLong
a/bc/ | 9 | 0 | 5 | a/bc/End
a/bc/ | 9 | 0 | 4 | TooLong
a/bc | 1 | 0 | 4 | a/Cut
a/bc | 1 | 0 | 3 | a/TooLong
a | 1 | 2 | 0 | TooLong
 | 1 | 0 | 0 | End";

struct Reported;

impl Teller for Reported {
    type Reported = String;

    type Error = AllocError;

    fn tell(&self, alloc: Global, asked: &str) -> Result<String, AllocError> {
        let (text, step, failing, limit) = cut_three(asked);
        let bytes = bytes_of(alloc, text)?;
        let mut source = source_of(alloc, bytes, number(step) as usize, number(failing))?;
        reported_of(alloc, &mut source, number(limit))
    }
}

#[test]
fn gives_lines_and_stays_at_the_last_answer(rt: HostRuntime) {
    each_row(&rt, rt.alloc(), REPORTED, &Reported);
}

/// Adds a line of so many bytes, without its line feed where a dash stands behind the number.
fn push_line(bytes: &mut Vec<u8>, cell: &str) -> Result<(), AllocError> {
    let (count, is_cut) = match cell.strip_suffix('-') {
        Some(count) => (count, true),
        None => (cell, false),
    };
    for _ in 0..number(count) {
        bytes.push(b'x')?;
    }
    if !is_cut {
        bytes.push(b'\n')?;
    }
    Ok(())
}

/// Lines that have so many bytes, the last one perhaps without its line feed.
fn long_bytes(alloc: Global, counts: &str) -> Result<Vec<u8>, AllocError> {
    let mut bytes = Vec::new(alloc);
    for cell in counts.split(' ') {
        push_line(&mut bytes, cell)?;
    }
    Ok(bytes)
}

/// Tells how many bytes the next line has, or the answer that gives none and how many lines there were; and whether a
/// line came.
fn tell_length(
    lines: &mut Lines,
    source: &mut MemSource,
    reported: &mut String,
) -> Result<bool, AllocError> {
    match lines.next(source) {
        Ok(Piece::Line { from, to }) => {
            write!(reported, "{} ", lines.text()[from..to].len())?;
            Ok(true)
        }
        answer => {
            write!(reported, "{} {}", name_of(answer), lines.given())?;
            Ok(false)
        }
    }
}

/// Tells how many bytes each line has, and the first answer that gives none.
fn tell_lengths(
    lines: &mut Lines,
    source: &mut MemSource,
    reported: &mut String,
) -> Result<(), AllocError> {
    for _ in 0..20 {
        if !tell_length(lines, source, reported)? {
            return Ok(());
        }
    }
    Ok(())
}

/// The lengths of the lines that come of a source, and the answer behind them.
fn lengths_of(alloc: Global, source: &mut MemSource) -> Result<String, AllocError> {
    let mut lines = Lines::make(alloc, 1 << 32)?;
    let mut reported = String::new(alloc);
    tell_lengths(&mut lines, source, &mut reported)?;
    Ok(reported)
}

/// The lengths of lines, a dash behind one without line feed; the call that fails, each giving 4096 bytes;
/// and the lengths that are given, the answer that gives none and how many lines there were.
const LONG: &str = "\
1048576 | 0 | 1048576 End 1
1048577 | 0 | Long 0
1048576- | 0 | Cut 0
1048577- | 0 | Long 0
1048576 1048576 0 3 1048576 | 0 | 1048576 1048576 0 3 1048576 End 5
70000 1048575 1048577 | 0 | 70000 1048575 Long 2
5000 | 2 | Fault 0
5000 | 3 | 5000 Fault 1
5000 | 4 | 5000 End 1
1048577 | 258 | Long 0
1048577 | 257 | Fault 0";

struct Lengths;

impl Teller for Lengths {
    type Reported = String;

    type Error = AllocError;

    fn tell(&self, alloc: Global, asked: &str) -> Result<String, AllocError> {
        let (counts, failing) = cut(asked);
        let bytes = long_bytes(alloc, counts)?;
        let mut source = source_of(alloc, bytes, 1 << 30, number(failing))?;
        lengths_of(alloc, &mut source)
    }
}

#[test]
fn gives_lines_of_all_lengths(rt: HostRuntime) {
    each_row(&rt, rt.alloc(), LONG, &Lengths);
}
