// How many bytes may be taken, and a fault of the text before one of the source.
use crate::cells::each_row;
use crate::check::reports::{answer_of, changed_report, shown};
use cert_check::check_within;
use lift_base::MemSource;
use std::alloc::{AllocError, Global};
use std::string::String;
use test_cells::{Teller, Unreported, cut, cut_two, number};

// Each row: the report, how many bytes may be taken, and the answer.
const LIMITS: &str = "\
COIN | 197 | TooLong
COIN | 198 | Summary { accept: 1, reject: 0, unknown: 0, version: 1 }
";

// What is answered to a text, where so many bytes may be taken.
fn answer_within(alloc: Global, text: Vec<u8>, limit: u64) -> Result<String, AllocError> {
    let mut source = MemSource::new(text, 7, Vec::new(alloc));
    let answer = check_within(alloc, &mut source, limit.min(1 << 32));
    drop(source);
    shown(alloc, answer)
}

struct Limited;

impl Teller for Limited {
    type Reported = String;

    type Error = Unreported;

    fn tell(&self, alloc: Global, asked: &str) -> Result<String, Unreported> {
        let (name, limit) = cut(asked);
        let text = changed_report(alloc, name, "-")?;
        Ok(answer_within(alloc, text, number(limit))?)
    }
}

#[test]
fn one_byte_more_is_too_long(rt: HostRuntime) {
    each_row(&rt, rt.alloc(), LIMITS, &Limited);
}

// Each row: the report, the changes of its lines, which call of its source fails, and the answer.
const FAULTS: &str = "\
COIN | 1=plift | 2 | Text(TextError { line: 1, cause: Syntax })
";

struct Failing;

impl Teller for Failing {
    type Reported = String;

    type Error = Unreported;

    fn tell(&self, alloc: Global, asked: &str) -> Result<String, Unreported> {
        let (name, changes, call) = cut_two(asked);
        let text = changed_report(alloc, name, changes)?;
        answer_of(alloc, text, number(call))
    }
}

#[test]
fn a_fault_of_the_text_is_reported_before_one_behind_it(rt: HostRuntime) {
    each_row(&rt, rt.alloc(), FAULTS, &Failing);
}
