// Runs in which one call after another fails.
use crate::cells::each_claim;
use crate::models::{are_front, model_text};
use crate::runs::{End, Sinks, sink, wanted, words_of};
use lift_base::MemSource;
use std::alloc::{AllocError, Global};
use test_cells::{Claim, Unreported, cut_two, number};

// Each row: the words, the input, how many bytes a read takes, where calls fail, the first and the last
// of the calls of which one fails, the status, how much is written, and the note. A write takes one byte.
const FAULTS: &str = "\
verify --goal heads --bound 1/2 --precision 4 --depth 0 --region 1/10<=p<=2/5 | COIN | 16 | read | 1 | 7 | ReadFault | nothing | read fault;
verify --goal heads --bound 1/2 --precision 4 --depth 0 --region 1/10<=p<=2/5 | COIN | 16 | read | 8 | 8 | Done | report | -
verify --goal heads --bound 1/2 --precision 4 --depth 0 --region 1/10<=p<=2/5 | COIN | 16 | write | 1 | 198 | \
    WriteFault | front | write fault;
verify --goal heads --bound 1/2 --precision 4 --depth 0 --region 1/10<=p<=2/5 | COIN | 16 | write | 199 | 199 | Done | report | -
check | REPORT | 7 | read | 1 | 30 | ReadFault | nothing | read fault;
";

// The coin's report over that region.
const REPORT: &str =
    "plift 1;kind dtmc;parameters 1 p;common 1;states 3;init 0;goal 1 1;row 0 0 2;to 1 1:1;to 2 0:1 1:-1;row 1 0 1;\
    to 1 0:1;row 2 0 1;to 2 0:1;bound 1/2;precision 4;depth 0;grid 10;box 1 4;accept 7 16 0;";

// Runs, of which one call fails each, and how each ends.
#[derive(Clone, Copy)]
struct Runs<'a> {
    words: &'a str,
    input: &'a str,
    step: usize,
    place: &'a str,
    want: End<'a>,
    written: &'a str,
}

// How many bytes of the report are written, where that call fails and a write takes one byte.
fn count_of(written: &str, call: u64) -> usize {
    match written {
        "front" => (call as usize).saturating_sub(1),
        "report" => REPORT.len(),
        _ => 0,
    }
}

impl Runs<'_> {
    // The one call, where it fails at this place; else none.
    fn failing_at(self, place: &str, call: u64) -> u64 {
        if self.place == place { call } else { 0 }
    }

    // The source of the input.
    fn source(self, alloc: Global, call: u64) -> Result<MemSource, Unreported> {
        let failing = Vec::from_slice(alloc, &[self.failing_at("read", call)])?;
        let input = model_text(alloc, self.input)?;
        Ok(MemSource::new(input, self.step.max(1), failing))
    }

    fn sinks(self, alloc: Global, call: u64) -> Result<Sinks, AllocError> {
        Ok(Sinks {
            out: sink(alloc, 1000, 1, self.failing_at("write", call))?,
            notes: sink(alloc, 100, 3, 0)?,
        })
    }

    // Whether the run whose call of that number fails ends as it should.
    fn is_reported(self, alloc: Global, call: u64) -> Result<bool, Unreported> {
        let mut source = self.source(alloc, call)?;
        let mut sinks = self.sinks(alloc, call)?;
        let words = words_of(alloc, self.words, ' ')?;
        let comes = self.want.comes(alloc, &words, &mut source, &mut sinks);
        let count = count_of(self.written, call);
        Ok(comes && are_front(sinks.out.taken(), REPORT, count))
    }

    // Whether each of these runs ends as it should, and there is one.
    fn are_reported(self, alloc: Global, first: u64, last: u64) -> Result<bool, Unreported> {
        for call in first..last.saturating_add(1) {
            if !self.is_reported(alloc, call)? {
                return Ok(false);
            }
        }
        Ok(first <= last)
    }
}

// That each of a row's runs ends as it should.
struct EachFault;

impl Claim for EachFault {
    fn holds(&self, alloc: Global, row: &str) -> Result<bool, Unreported> {
        let (words, input, rest) = cut_two(row);
        let (step, place, rest) = cut_two(rest);
        let (first, last, rest) = cut_two(rest);
        let (want, written) = wanted(rest);
        let runs = Runs {
            words,
            input,
            step: number(step) as usize,
            place,
            want,
            written,
        };
        runs.are_reported(alloc, number(first), number(last))
    }
}

#[test]
fn each_fault_is_reported(rt: HostRuntime) {
    each_claim(&rt, rt.alloc(), FAULTS, &EachFault);
}
