// A model's text and a report, each with a few lines changed, and what is told of it.
use crate::cells::each_claim;
use crate::models::are_lines;
use crate::runs::{Sinks, wanted, words_of};
use lift_base::SureSource;
use std::alloc::{AllocError, Global};
use test_cells::{Claim, Unreported, cut};

// The coin. A semicolon stands between two lines.
const COIN: &str =
    "@type: DTMC;@parameters;p;@model;state 0 init;1 : p;2 : 1-p;state 1 heads;1 : 1;state 2;2 : 1";

const VERIFY: &str =
    "verify --goal heads --bound 1/2 --precision 4 --depth 0 --region 1/10<=p<=2/5";

// Each row: the changes of the coin's lines, the status, no output, and the note. A change is a line's
// number, and the lines that stand in its place, a semicolon behind each; a `?` stands for the byte 200.
const MODELS: &str = "\
5=state 1 init; | ModelRefused | - | model: line 5: StateOrder;
5=state 0 \"init; | ModelRefused | - | model: line 5: OpenQuote;
5=state 0 !2 init; | ModelRefused | - | model: line 5: ExitRate;
5=state 0 {1} init; | ModelRefused | - | model: line 5: Observation;
7=1 : 1-p; | ModelRefused | - | model: line 7: RepeatedTarget;
7=3 : 1-p; | ModelRefused | - | model: line 7: TargetRange;
8=state 1 init heads; | ModelRefused | - | model: line 11: InitCount;
9= | ModelRefused | - | model: line 8: NoChoice;
3=p p; | ModelRefused | - | model: line 3: RepeatedName;
6=1 : q; | ModelRefused | - | model: line 6: UnknownName;
6=1 : 2p; | ModelRefused | - | model: line 6: Syntax;
6=1 : p/(1-1); | ModelRefused | - | model: line 6: DivisionByZero;
6=1 : 4611686018427387904; | ModelRefused | - | model: line 6: Wide;
6=1 : $r; | ModelRefused | - | model: line 6: UnknownPlace;
6=1 : (((((((((((((((((((((((((((((((((((((((((((((((((((((((((((((((((\
    p))))))))))))))))))))))))))))))))))))))))))))))))))))))))))))))))); | ModelRefused | - | model: line 6: Deep;
6=1 : 1/4000000007*p; & 9=1 : 1/4000000009; | ModelRefused | - | model: line 11: CommonDenominator;
4= | ModelRefused | - | model: line 4: Syntax;
4= & 5= & 6= & 7= & 8= & 9= & 10= & 11= | ModelRefused | - | model: line 3: MissingSection;
1=@type: DTMC;@type: DTMC; | ModelRefused | - | model: line 2: RepeatedSection;
4=@modle; | ModelRefused | - | model: line 4: UnknownSection;
6=action a;1 : p; & 7=action b;2 : 1-p; | ModelRefused | - | model: line 8: ExtraChoice;
4=@nr_states;4;@model; | ModelRefused | - | model: line 13: CountMismatch;
8=state 1 heads?; | ModelRefused | - | model: line 8: NotText;
";

// The coin's report over that region.
const REPORT: &str =
    "plift 1;kind dtmc;parameters 1 p;common 1;states 3;init 0;goal 1 1;row 0 0 2;to 1 1:1;to 2 0:1 1:-1;row 1 0 1;\
    to 1 0:1;row 2 0 1;to 2 0:1;bound 1/2;precision 4;depth 0;grid 10;box 1 4;accept 7 16 0";

// Each row: the changes of the report's lines, the status, the output, and the note.
const REPORTS: &str = "\
6=init 3; | NotSound | - | not sound: line 6: Limit;
9=to 1 2:1; | NotSound | - | not sound: line 9: Limit;
10=to 2 1:-1 0:1; | NotSound | - | not sound: line 10: Syntax;
10=to 2 0:1 1:-2; | NotSound | - | not sound: state 0 choice 0: set 1 sums to -1;
16=precision 41; | NotSound | - | not sound: line 16: Limit;
19=box 4 4; | NotSound | - | not sound: line 19: Syntax;
20=accept 7 17 0; | NotSound | - | not sound: line 20: Limit;
20=accept 7 15 0; | NotSound | - | not sound: node 0 goal state 1 value 15;
20=accept 9 16 0; | NotSound | - | not sound: node 0 bound: 18 > 16;
20=accept 8 16 0; | Done | sound accept 1 reject 0 unknown 0; | -
";

// What stands in the place of a line, where it is changed.
fn change_of<'a>(changes: &'a str, number: usize) -> Option<&'a str> {
    for change in changes.split(" & ") {
        if let Some((key, lines)) = change.split_once('=') {
            if key.parse().ok() == Some(number) {
                return Some(lines);
            }
        }
    }
    None
}

// Appends the bytes of a text, a line feed for each semicolon and the byte 200 for each `?`.
fn push_text(bytes: &mut Vec<u8>, text: &str) -> Result<(), AllocError> {
    for byte in text.as_bytes() {
        bytes.push(match *byte {
            b';' => b'\n',
            b'?' => 200,
            other => other,
        })?;
    }
    Ok(())
}

// Appends what stands in the place of a line, or else the line.
fn push_line(bytes: &mut Vec<u8>, line: &str, change: Option<&str>) -> Result<(), AllocError> {
    match change {
        Some(lines) => push_text(bytes, lines),
        None => {
            push_text(bytes, line)?;
            Ok(bytes.push(b'\n')?)
        }
    }
}

// The bytes of a text with changes.
fn changed(alloc: Global, text: &str, changes: &str) -> Result<Vec<u8>, AllocError> {
    let mut bytes = Vec::new(alloc);
    for (index, line) in text.split(';').enumerate() {
        push_line(&mut bytes, line, change_of(changes, index + 1))?;
    }
    Ok(bytes)
}

// That a text with a row's changes is answered as the row says.
#[derive(Clone, Copy)]
struct Malformed {
    words: &'static str,
    text: &'static str,
}

impl Claim for Malformed {
    fn holds(&self, alloc: Global, row: &str) -> Result<bool, Unreported> {
        let (changes, rest) = cut(row);
        let (want, written) = wanted(rest);
        let mut source = SureSource::new(changed(alloc, self.text, changes)?);
        let mut sinks = Sinks::make(alloc, 1000, 100)?;
        let words = words_of(alloc, self.words, ' ')?;
        let comes = want.comes(alloc, &words, &mut source, &mut sinks);
        Ok(comes && are_lines(sinks.out.taken(), written))
    }
}

const ON_COIN: Malformed = Malformed {
    words: VERIFY,
    text: COIN,
};

const ON_REPORT: Malformed = Malformed {
    words: "check",
    text: REPORT,
};

#[test]
fn malformed_models_are_reported(rt: HostRuntime) {
    each_claim(&rt, rt.alloc(), MODELS, &ON_COIN);
}

#[test]
fn malformed_reports_are_reported(rt: HostRuntime) {
    each_claim(&rt, rt.alloc(), REPORTS, &ON_REPORT);
}
