// Runs of the program that shows reports, and what they are compared with.
use crate::cells::each_claim;
use crate::pictures::{find_report, is_within, lines_of};
use check_notes::Status;
use lift_base::{MemSink, MemSource};
use std::alloc::{AllocError, Global};
use test_cells::{Claim, Unreported};
use view_follow::Lines;
use view_top::run;

// Each row: the words, the report, the status, a part of the output, and the note; a dash is nothing.
// In TWO and THREE p comes first, then q, then r; each goes from 0 to 1. The canvas has 1048576 units
// in each direction. Of THREE the slice at q = 1/2, where two leaves share a side, is the upper one's.
const VIEWS: &str = "\
--y p --x q | TWO | Done | url(#unknown)\" d=\"M524288 1048576H1048576V524288H524288z | -
 | TWO | Done | url(#accepted)\" d=\"M0 1048576H524288V524288H0z\" | -
--x q | TWO | Done | url(#unknown)\" d=\"M524288 1048576H1048576V524288H524288z | -
 | THREE | Done | r = 1/2 | -
--at r=0 | THREE | Done | url(#accepted)\" d=\"M0 1048576H524288V524288H0zM0 524288H524288V0H0zM524288 1048576H1048576V524288H524288z | -
--at=r=1/2 | THREE | Done | url(#unknown)\" d=\"M0 524288H524288V0H0zM524288 1048576H1048576V524288H524288zM524288 \
    524288H1048576V0H524288z | -
--x p --y r --at q=0.5 | THREE | Done | url(#accepted)\" d=\"M0 1048576H524288V524288H0z\" | -
--x p --y r --at q=49e-2 | THREE | Done | url(#accepted)\" d=\"M0 1048576H524288V0H0zM524288 1048576H1048576V524288H524288z\" | -
 | WIDE | Done | viewBox=\"0 0 720 268\" | -
 | THREE | Done | viewBox=\"0 0 720 768\" | -
 | THREE | Done | <text x=\"130\" y=\"550\">0.250</text> | -
 | PLAIN | Done | url(#accepted)\" d=\"M0 1048576H1048576V0H0z\" | -
--summary | THREE | Done | leaves accept 3 reject 0 unknown 4;share accept 1/2 50.0000 %;share reject 0 0.0000 %;\
    share unknown 1/2 50.0000 %;greatest accept depth 2 p 0 1/2 q 0 1/2 r 0 1;\
    least accept depth 3 p 0 1/2 q 1/2 1 r 0 1/2;depth 0 accept 0 reject 0 unknown 0;\
    depth 1 accept 0 reject 0 unknown 0;depth 2 accept 1 reject 0 unknown 0;depth 3 accept 2 reject 0 unknown 4; | -
--summary | WIDE | Done | greatest accept depth 1 p 1/10 1/2;least reject depth 2 p 7/10 9/10; | -
--follow | THREE | Done | split 0;split 1;accept 4 8 16 0 16;split 2;accept 4 8 8 0 16;unknown; | \
    decided 25 %, accepted 25 %, rejected 0 %, unknown 0 %, leaves 1;\
    decided 37 %, accepted 37 %, rejected 0 %, unknown 0 %, leaves 2;\
    decided 37 %, accepted 37 %, rejected 0 %, unknown 12 %, leaves 3;\
    decided 50 %, accepted 50 %, rejected 0 %, unknown 12 %, leaves 4;\
    decided 50 %, accepted 50 %, rejected 0 %, unknown 25 %, leaves 5;\
    decided 50 %, accepted 50 %, rejected 0 %, unknown 37 %, leaves 6;\
    decided 50 %, accepted 50 %, rejected 0 %, unknown 50 %, leaves 7;\
    decided 50 %, accepted 50 %, rejected 0 %, unknown 50 %, leaves 7;
--follow | UNSOUND | Done | accept 3 16 0; | decided 100 %, accepted 100 %, rejected 0 %, unknown 0 %, leaves 1;\
    decided 100 %, accepted 100 %, rejected 0 %, unknown 0 %, leaves 1;
 | UNSOUND | NotSound | - | not sound: node 0 state 0 choice 0 corner 0: 16 > 12;
--summary | UNSOUND | NotSound | - | not sound: node 0 state 0 choice 0 corner 0: 16 > 12;
--x s | TWO | Usage | - | usage: --x UnknownName;
--y s | TWO | Usage | - | usage: --y UnknownName;
--x p --y p | TWO | Usage | - | usage: --y Repeated;
--at p=1/2 | TWO | Usage | - | usage: --at 1 Repeated;
--at r=1/2 --at r=1/4 | THREE | Usage | - | usage: --at 2 Repeated;
--at r=3/2 | THREE | Usage | - | usage: --at 1 Outside;
--at r=-1/2 | THREE | Usage | - | usage: --at 1 Outside;
--at r | THREE | Usage | - | usage: --at 1 Syntax;
--at r=1/0 | THREE | Usage | - | usage: --at 1 Syntax;
--at s=1 | THREE | Usage | - | usage: --at 1 UnknownName;
--x p --x q | TWO | Usage | - | usage: words;
--summary --x p | TWO | Usage | - | usage: words;
--summary --follow | TWO | Usage | - | usage: words;
--z p | TWO | Usage | - | usage: words;
check | TWO | Usage | - | usage: words;
";

// Each row: the words; which call fails at the source, at the sink and at the notes, none where it is
// 0; how many bytes the sink holds; the status, the output, and the note. The report is PLAIN, of
// which a read gives 16 bytes and a write takes one.
const FAULTS: &str = "\
--follow | 3 | 0 | 0 | 1000 | ReadFault | plift 1;kind dtmc;parameters 0;c | \
    decided 0 %, accepted 0 %, rejected 0 %, unknown 0 %, leaves 0;read fault;
--follow | 0 | 0 | 0 | 10 | WriteFault | plift 1;ki | decided 0 %, accepted 0 %, rejected 0 %, unknown 0 %, leaves 0;write fault;
--follow | 0 | 2 | 1 | 1000 | WriteFault | p | write fault;
--summary | 3 | 0 | 0 | 1000 | ReadFault | - | read fault;
--summary | 0 | 0 | 0 | 10 | WriteFault | leaves acc | write fault;
";

#[derive(Clone, Copy)]
struct Want<'a> {
    words: &'a str,
    report: &'a str,
    read: u64,
    write: u64,
    tell: u64,
    room: usize,
    status: &'a str,
    taken: &'a str,
    reported: &'a str,
}

// A row of the first table; none where there are fewer cells.
fn view_of(row: &str) -> Option<Want<'_>> {
    let mut cells = row.split(" | ");
    Some(Want {
        words: cells.next()?,
        report: cells.next()?,
        read: 0,
        write: 0,
        tell: 0,
        room: 10_000,
        status: cells.next()?,
        taken: cells.next()?,
        reported: cells.next()?,
    })
}

// A row of the second table; none where there are fewer cells, or one isn't a number.
fn fault_of(row: &str) -> Option<Want<'_>> {
    let mut cells = row.split(" | ");
    Some(Want {
        words: cells.next()?,
        report: "PLAIN",
        read: cells.next()?.parse().ok()?,
        write: cells.next()?.parse().ok()?,
        tell: cells.next()?.parse().ok()?,
        room: cells.next()?.parse().ok()?,
        status: cells.next()?,
        taken: cells.next()?,
        reported: cells.next()?,
    })
}

fn words_of(alloc: Global, line: &str) -> Result<Vec<String>, AllocError> {
    let mut words = Vec::new(alloc);
    for word in line.split(' ') {
        if !word.is_empty() {
            words.push(String::from_str(alloc, word)?)?;
        }
    }
    Ok(words)
}

fn status_name(status: Status) -> &'static str {
    match status {
        Status::Done => "Done",
        Status::NotSound => "NotSound",
        Status::Usage => "Usage",
        Status::ReadFault => "ReadFault",
        Status::WriteFault => "WriteFault",
        Status::TooLong => "TooLong",
        Status::Memory => "Memory",
        Status::ModelRefused | Status::RowsRefused => "another",
    }
}

// A sink with so much room that takes so many bytes a call, and of which one call fails, none where it is 0.
fn sink(alloc: Global, room: usize, step: usize, call: u64) -> Result<MemSink, AllocError> {
    MemSink::new(alloc, room, step.max(1), Vec::from_slice(alloc, &[call])?)
}

// The bytes of a cell: nothing where it is a dash.
fn cell_of(alloc: Global, cell: &str) -> Result<Vec<u8>, AllocError> {
    if cell == "-" {
        Ok(Vec::new(alloc))
    } else {
        lines_of(alloc, cell)
    }
}

// The name of the status with which the program ends. Nothing is promised of it, so that no other proof carries what `run`
// promises.
fn ending(
    alloc: Global,
    words: &str,
    source: &mut MemSource,
    out: &mut MemSink,
    notes: &mut MemSink,
) -> Result<&'static str, AllocError> {
    let words = words_of(alloc, words)?;
    let status = run(alloc, &words, source, out, notes, Lines::Apart);
    Ok(status_name(status))
}

// Whether the output is the row's text, or at Done has it as a part.
fn has_written(alloc: Global, want: Want<'_>, out: &MemSink) -> Result<bool, AllocError> {
    let taken = cell_of(alloc, want.taken)?;
    Ok(if want.status == "Done" {
        is_within(out.taken(), &taken)
    } else {
        out.taken() == taken.as_slice()
    })
}

// Whether the notes are the row's.
fn has_reported(alloc: Global, want: Want<'_>, notes: &MemSink) -> Result<bool, AllocError> {
    let reported = cell_of(alloc, want.reported)?;
    Ok(notes.taken() == reported.as_slice())
}

// Whether a run on that report gives what the row says.
fn is_answered_on(alloc: Global, want: Want<'_>, report: Vec<u8>) -> Result<bool, AllocError> {
    let mut source = MemSource::new(report, 16, Vec::from_slice(alloc, &[want.read])?);
    let mut out = sink(alloc, want.room, 1, want.write)?;
    let mut notes = sink(alloc, 1000, 1000, want.tell)?;
    let got = ending(alloc, want.words, &mut source, &mut out, &mut notes)?;
    Ok(got == want.status && has_written(alloc, want, &out)? && has_reported(alloc, want, &notes)?)
}

// Whether a run gives what the row says, if it is one.
fn is_answered(alloc: Global, want: Option<Want<'_>>) -> Result<bool, AllocError> {
    let Some(want) = want else {
        return Ok(false);
    };
    match find_report(want.report) {
        Some(report) => is_answered_on(alloc, want, lines_of(alloc, report)?),
        None => Ok(false),
    }
}

struct Shown;

impl Claim for Shown {
    fn holds(&self, alloc: Global, row: &str) -> Result<bool, Unreported> {
        Ok(is_answered(alloc, view_of(row))?)
    }
}

#[test]
fn views_are_written(rt: HostRuntime) {
    each_claim(&rt, rt.alloc(), VIEWS, &Shown);
}

struct Faulty;

impl Claim for Faulty {
    fn holds(&self, alloc: Global, row: &str) -> Result<bool, Unreported> {
        Ok(is_answered(alloc, fault_of(row))?)
    }
}

#[test]
fn faults_are_reported(rt: HostRuntime) {
    each_claim(&rt, rt.alloc(), FAULTS, &Faulty);
}
