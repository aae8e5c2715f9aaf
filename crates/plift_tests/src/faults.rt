// Faults of the source, of the sink, and of the notes.
use crate::cells::each_claim;
use crate::models::{are_lines, model_text};
use crate::runs::{Sinks, sink, wanted, words_of};
use lift_base::MemSource;
use std::alloc::{AllocError, Global};
use test_cells::{Claim, Unreported, cut_two, number};

// Each row: the words and the model; which call fails at the source, at the sink and at the notes,
// none where it is 0; how many bytes the sink holds; the status, the output, and the note.
const FAULTS: &str = "\
verify --goal heads --bound 1/2 --precision 4 | PLAIN | 3 | 0 | 0 | 1000 | ReadFault | - | read fault;
verify --goal heads --bound 1/2 --precision 4 | PLAIN | 0 | 2 | 0 | 1000 | WriteFault | p | write fault;
verify --goal heads --bound 1/2 --precision 4 | PLAIN | 0 | 0 | 0 | 10 | WriteFault | plift 1;ki | write fault;
verify --goal heads --bound 1/2 --precision 4 | PLAIN | 8 | 0 | 0 | 1000 | Done | plift 1;kind dtmc;parameters 0;\
    common 4;states 3;init 0;goal 1 1;row 0 0 2;to 1 0:1;to 2 0:3;row 1 0 1;to 1 0:4;row 2 0 1;to 2 0:4;bound 1/2;\
    precision 4;depth 0;grid 1;box;accept 4 16 0; | -
verify --goal heads --bound 1/2 --precision 4 | CTMC | 0 | 0 | 1 | 1000 | ModelRefused | - | -
verify --goal heads --bound 1/2 --precision 4 --depth 0 --region 1/10<=p<=2/5 | COIN | 3 | 0 | 0 | 1000 | ReadFault | - | read fault;
verify --goal heads --bound 1/2 --precision 4 --depth 0 --region 1/10<=p<=2/5 | COIN | 0 | 2 | 0 | 1000 | WriteFault | p | write fault;
verify --goal heads --bound 1/2 --precision 4 --depth 0 --region 1/10<=p<=2/5 | COIN | 0 | 0 | 0 | 198 | Done | \
    plift 1;kind dtmc;parameters 1 p;common 1;states 3;init 0;goal 1 1;row 0 0 2;to 1 1:1;to 2 0:1 1:-1;row 1 0 1;\
    to 1 0:1;row 2 0 1;to 2 0:1;bound 1/2;precision 4;depth 0;grid 10;box 1 4;accept 7 16 0; | -
verify --goal heads --bound 1/2 --precision 4 --depth 0 --region 1/10<=p<=2/5 | COIN | 0 | 0 | 0 | 197 | WriteFault | \
    plift 1;kind dtmc;parameters 1 p;common 1;states 3;init 0;goal 1 1;row 0 0 2;to 1 1:1;to 2 0:1 1:-1;row 1 0 1;\
    to 1 0:1;row 2 0 1;to 2 0:1;bound 1/2;precision 4;depth 0;grid 10;box 1 4;accept 7 16 0 | write fault;
verify --goal heads --bound 1/2 --precision 4 --depth 0 --region 1/10<=p<=2/5 | COIN | 0 | 0 | 0 | 100 | WriteFault | \
    plift 1;kind dtmc;parameters 1 p;common 1;states 3;init 0;goal 1 1;row 0 0 2;to 1 1:1;to 2 0:1 1:-1; | \
    write fault;
verify --goal heads --bound 1/2 --precision 4 --depth 0 --region 1/2<=p<=3/2 | COIN | 0 | 0 | 1 | 1000 | RowsRefused | - | -
check | COIN | 2 | 0 | 0 | 1000 | NotSound | - | not sound: line 1: Syntax;
migrate | COIN | 2 | 0 | 0 | 1000 | ReadFault | - | read fault;
migrate | REPORT | 3 | 0 | 0 | 1000 | ReadFault | - | read fault;
migrate | REPORT | 0 | 2 | 0 | 1000 | WriteFault | p | write fault;
migrate | REPORT | 0 | 0 | 0 | 210 | Done | plift 2;kind dtmc;parameters 1 p;common 1;states 3;init 0;goal 1 1;row 0 0 2;\
    to 1 1:1;to 2 0:1 1:-1;row 1 0 1;to 1 0:1;row 2 0 1;to 2 0:1;bound 1/2;precision 4;from 4;depth 0;grid 10;box 1 4;\
    at 4;accept 7 16 0; | -
migrate | REPORT | 0 | 0 | 0 | 131 | WriteFault | plift 2;kind dtmc;parameters 1 p;common 1;states 3;init 0;goal 1 1;\
    row 0 0 2;to 1 1:1;to 2 0:1 1:-1;row 1 0 1;to 1 0:1;row 2 0 1;to | write fault;
";

// A text as a source, of which one call fails.
fn source_of(alloc: Global, text: Vec<u8>, call: u64) -> Result<MemSource, AllocError> {
    Ok(MemSource::new(text, 16, Vec::from_slice(alloc, &[call])?))
}

// Sinks of which one call fails each, by the cells of a row; a write takes one byte.
fn sinks_of(alloc: Global, write: &str, tell: &str, room: &str) -> Result<Sinks, AllocError> {
    Ok(Sinks {
        out: sink(alloc, number(room) as usize, 1, number(write))?,
        notes: sink(alloc, 100, 3, number(tell))?,
    })
}

// That a run with a row's faults gives what the row says.
struct Faults;

impl Claim for Faults {
    fn holds(&self, alloc: Global, row: &str) -> Result<bool, Unreported> {
        let (words, model, rest) = cut_two(row);
        let (read, write, rest) = cut_two(rest);
        let (tell, room, rest) = cut_two(rest);
        let (want, written) = wanted(rest);
        let mut source = source_of(alloc, model_text(alloc, model)?, number(read))?;
        let mut sinks = sinks_of(alloc, write, tell, room)?;
        let words = words_of(alloc, words, ' ')?;
        let comes = want.comes(alloc, &words, &mut source, &mut sinks);
        Ok(comes && are_lines(sinks.out.taken(), written))
    }
}

#[test]
fn faults_are_reported(rt: HostRuntime) {
    each_claim(&rt, rt.alloc(), FAULTS, &Faults);
}
