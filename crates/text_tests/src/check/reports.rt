// The reports of the tests, each by its name, and what is answered to them. A semicolon stands between
// two lines.
use crate::changes::changed;
use cert_check::{CheckError, Summary, check};
use lift_base::MemSource;
use std::alloc::{AllocError, Global};
use std::string::String;
use test_cells::Unreported;

// COIN: a coin that is accepted. HIGH: one that is rejected. SPLIT: one whose region is halved twice,
// with a leaf of each kind. MIDDLE: one that is left unknown. HALVED: the same, halved once. IDLE: a
// second parameter that no row has. BACK: a coin that is tossed again, and rejected by numbers that its
// self loop keeps.
const REPORTS: &str = "\
COIN = plift 1;kind dtmc;parameters 1 p;common 1;states 3;init 0;goal 1 1;\
    row 0 0 2;to 1 1:1;to 2 0:1 1:-1;row 1 0 1;to 1 0:1;row 2 0 1;to 2 0:1;\
    bound 1/2;precision 4;depth 0;grid 10;box 1 4;accept 7 16 0
HIGH = plift 1;kind dtmc;parameters 1 p;common 1;states 3;init 0;goal 1 1;\
    row 0 0 2;to 1 1:1;to 2 0:1 1:-1;row 1 0 1;to 1 0:1;row 2 0 1;to 2 0:1;\
    bound 1/2;precision 4;depth 0;grid 10;box 6 9;reject e 1 k 1 m 1 b 9/16;y 9 16 0;choice 0 - -;rank 1 0 -
SPLIT = plift 1;kind dtmc;parameters 1 p;common 1;states 3;init 0;goal 1 1;\
    row 0 0 2;to 1 1:1;to 2 0:1 1:-1;row 1 0 1;to 1 0:1;row 2 0 1;to 2 0:1;\
    bound 1/2;precision 4;depth 2;grid 40;box 4 36;\
    split 0;accept 8 16 0;split 0;unknown;reject e 1 k 1 m 1 b 11/16;y 11 16 0;choice 0 - -;rank 1 0 -
MIDDLE = plift 1;kind dtmc;parameters 1 p;common 1;states 3;init 0;goal 1 1;\
    row 0 0 2;to 1 1:1;to 2 0:1 1:-1;row 1 0 1;to 1 0:1;row 2 0 1;to 2 0:1;\
    bound 1/2;precision 4;depth 0;grid 5;box 2 3;unknown
HALVED = plift 1;kind dtmc;parameters 1 p;common 1;states 3;init 0;goal 1 1;\
    row 0 0 2;to 1 1:1;to 2 0:1 1:-1;row 1 0 1;to 1 0:1;row 2 0 1;to 2 0:1;\
    bound 1/2;precision 4;depth 1;grid 10;box 4 6;split 0;accept 8 16 0;unknown
UNHALVED = plift 1;kind dtmc;parameters 1 p;common 1;states 3;init 0;goal 1 1;\
    row 0 0 2;to 1 1:1;to 2 0:1 1:-1;row 1 0 1;to 1 0:1;row 2 0 1;to 2 0:1;\
    bound 1/2;precision 4;depth 1;grid 10;box 4 6;unknown
IDLE = plift 1;kind dtmc;parameters 2 p q;common 1;states 3;init 0;goal 1 1;\
    row 0 0 2;to 1 1:1;to 2 0:1 1:-1;row 1 0 1;to 1 0:1;row 2 0 1;to 2 0:1;\
    bound 1/2;precision 4;depth 1;grid 10;box 4 6 0 10;split 0;accept 8 16 0;unknown
BACK = plift 1;kind dtmc;parameters 1 p;common 1;states 3;init 0;goal 1 1;\
    row 0 0 2;to 1 1:1;to 0 0:1 1:-1;row 1 0 1;to 1 0:1;row 2 0 1;to 2 0:1;\
    bound 1/4;precision 4;depth 0;grid 2;box 0 1;reject e 1 k 1 m 1 b 16/16;y 16 16 0;choice 0 - -;rank 1 0 -
";

/// The report of that name; none where there is none.
pub fn find_report(name: &str) -> Option<&'static str> {
    for row in REPORTS.lines() {
        if let Some((key, report)) = row.split_once(" = ") {
            if key == name {
                return Some(report);
            }
        }
    }
    None
}

/// The bytes of the report of that name, with changes.
pub fn changed_report(alloc: Global, name: &str, changes: &str) -> Result<Vec<u8>, Unreported> {
    match find_report(name) {
        Some(report) => Ok(changed(alloc, report, changes)?),
        None => Err(Unreported::Cell),
    }
}

/// An answer, as it is shown.
pub fn shown(alloc: Global, answer: Result<Summary, CheckError>) -> Result<String, AllocError> {
    match answer {
        Ok(summary) => format!(in alloc; "{summary:?}"),
        Err(error) => format!(in alloc; "{error:?}"),
    }
}

/// A text as a source, a call of which may fail: none where it is 0.
fn source_of(alloc: Global, text: Vec<u8>, failing: u64) -> Result<MemSource, AllocError> {
    Ok(MemSource::new(text, 7, Vec::from_slice(alloc, &[failing])?))
}

/// What is answered to a text, a call of whose source may fail: none where it is 0.
pub fn answer_of(alloc: Global, text: Vec<u8>, failing: u64) -> Result<String, Unreported> {
    let mut source = source_of(alloc, text, failing)?;
    let answer = check(alloc, &mut source);
    drop(source);
    Ok(shown(alloc, answer)?)
}
