// The reports of the tests. A semicolon stands between two lines.
use crate::changes::changed;
use cert_text::FileError;
use lift_base::Lines;
use std::alloc::{AllocError, Global};

// A coin, a chain of three states.
const COIN: &str = "plift 1;kind dtmc;parameters 1 p;common 1;states 3;init 0;goal 1 1;\
    row 0 0 2;to 1 1:1;to 2 0:1 1:-1;row 1 0 1;to 1 0:1;row 2 0 1;to 2 0:1;\
    bound 1/2;precision 4;depth 0;grid 10;box 1 4;accept 7 16 0";

// A process with two parameters, and two choices at its first state.
const PAIR: &str = "plift 1;kind mdp;parameters 2 p q;common 2;states 2;init 0;goal 1 1;\
    row 0 0 2;to 1 1:2;to 0 0:2 1:-2;row 0 1 1;to 0 0:2;row 1 0 1;to 1 0:2;\
    bound 1/1;precision 10;depth 2;grid 40;box 4 36 -8 40;unknown";

/// The bytes of a report with changes, of which its name stands in front, as in `COIN 20=unknown`.
pub fn changed_report(alloc: Global, reported: &str) -> Result<Vec<u8>, AllocError> {
    let (name, changes) = reported.split_once(' ').unwrap_or(("", ""));
    changed(alloc, if name == "PAIR" { PAIR } else { COIN }, changes)
}

/// A fault as its line and its cause.
pub fn shown_fault(alloc: Global, error: FileError) -> Result<String, AllocError> {
    match error {
        FileError::Text(error) => format!(in alloc; "{} {:?}", error.line, error.cause),
        other => format!(in alloc; "{other:?}"),
    }
}

/// Lines of which none was read.
pub fn fresh_lines(alloc: Global) -> Result<Lines, AllocError> {
    Lines::make(alloc, 1 << 32)
}

/// The number of the line that is due.
pub fn line_due(lines: &Lines) -> u64 {
    u64::from(lines.given()) + 1
}
