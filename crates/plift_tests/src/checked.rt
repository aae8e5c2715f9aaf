// Reports that are checked, migrated or gone on from, and what comes of it.
use crate::cells::each_claim;
use crate::models::{are_lines, lines_of};
use crate::runs::{Sinks, wanted, words_of};
use lift_base::SureSource;
use std::alloc::{AllocError, Global};
use test_cells::{Claim, Unreported, cut_two};

// The heads of reports, each by its name. A semicolon stands for the end of a line.
const HEADS: &str = "\
LOW = plift 1;kind dtmc;parameters 1 p;common 1;states 3;init 0;goal 1 1;row 0 0 2;to 1 1:1;to 2 0:1 1:-1;row 1 0 1;\
    to 1 0:1;row 2 0 1;to 2 0:1;bound 1/2;precision 4;depth 0;grid 10;box 1 4;
HIGH = plift 1;kind dtmc;parameters 1 p;common 1;states 3;init 0;goal 1 1;row 0 0 2;to 1 1:1;to 2 0:1 1:-1;row 1 0 1;\
    to 1 0:1;row 2 0 1;to 2 0:1;bound 1/2;precision 4;depth 0;grid 10;box 6 9;
ABOVE = plift 1;kind dtmc;parameters 1 p;common 1;states 3;init 0;goal 1 1;row 0 0 2;to 1 1:1;to 2 0:1 1:-1;row 1 0 1;\
    to 1 0:1;row 2 0 1;to 2 0:1;bound 3/4;precision 4;depth 0;grid 10;box 6 9;
WIDE = plift 1;kind dtmc;parameters 1 p;common 1;states 3;init 0;goal 1 1;row 0 0 2;to 1 1:1;to 2 0:1 1:-1;row 1 0 1;\
    to 1 0:1;row 2 0 1;to 2 0:1;bound 1/2;precision 4;depth 2;grid 40;box 4 36;
HALF = plift 1;kind dtmc;parameters 1 p;common 1;states 3;init 0;goal 1 1;row 0 0 2;to 1 1:1;to 2 0:1 1:-1;row 1 0 1;\
    to 1 0:1;row 2 0 1;to 2 0:1;bound 1/2;precision 4;depth 1;grid 20;box 2 18;
IDLE = plift 1;kind dtmc;parameters 2 p q;common 1;states 3;init 0;goal 1 1;row 0 0 2;to 1 1:1;to 2 0:1 1:-1;\
    row 1 0 1;to 1 0:1;row 2 0 1;to 2 0:1;bound 1/2;precision 4;depth 1;grid 10;box 4 6 0 10;
UNEVEN = plift 1;kind dtmc;parameters 1 p;common 1;states 3;init 0;goal 1 1;row 0 0 2;to 1 1:1;to 2 0:1 1:-2;\
    row 1 0 1;to 1 0:1;row 2 0 1;to 2 0:1;bound 1/2;precision 4;depth 0;grid 10;box 1 4;
NEXT = plift 3;
RANGE = plift 2;kind dtmc;parameters 1 p;common 1;states 3;init 0;goal 1 1;row 0 0 2;to 1 1:1;to 2 0:1 1:-1;row 1 0 1;\
    to 1 0:1;row 2 0 1;to 2 0:1;bound 1/2;precision 4;from 1;depth 0;grid 10;box 1 4;
FAR = plift 1;kind dtmc;parameters 1 p;common 1;states 3;init 3;
NOTHING = -
";

// Each row: the head, what follows it, the status, what is written, and the note.
const FILES: &str = "\
LOW | accept 7 16 0; | Done | sound accept 1 reject 0 unknown 0; | -
LOW | accept 8 16 0; | Done | sound accept 1 reject 0 unknown 0; | -
HIGH | reject e 1 k 1 m 1 b 9/16;y 9 16 0;choice 0 - -;rank 1 0 -; | Done | sound accept 0 reject 1 unknown 0; | -
WIDE | split 0;accept 8 16 0;split 0;unknown;reject e 1 k 1 m 1 b 11/16;y 11 16 0;choice 0 - -;rank 1 0 -; | Done | \
    sound accept 1 reject 1 unknown 1; | -
RANGE | at 1;accept 1 2 0; | Done | sound accept 1 reject 0 unknown 0; | -
RANGE | at 5;accept 1 2 0; | NotSound | - | not sound: line 21: Limit;
RANGE | accept 7 16 0; | NotSound | - | not sound: line 21: Syntax;
LOW | accept 6 16 0; | NotSound | - | not sound: node 0 state 0 choice 0 corner 1: 64 > 60;
LOW | accept 7 15 0; | NotSound | - | not sound: node 0 goal state 1 value 15;
LOW | accept 9 16 0; | NotSound | - | not sound: node 0 bound: 18 > 16;
LOW | accept 7 16 0;x; | NotSound | - | not sound: rest;
LOW | accept 07 16 0; | NotSound | - | not sound: line 20: Syntax;
LOW | accept 7 17 0; | NotSound | - | not sound: line 20: Limit;
LOW | - | NotSound | - | not sound: line 20: Truncated;
NEXT | accept 7 16 0; | NotSound | - | not sound: line 1: Version;
FAR | accept 7 16 0; | NotSound | - | not sound: line 6: Limit;
NOTHING | - | NotSound | - | not sound: line 1: Truncated;
UNEVEN | accept 7 16 0; | NotSound | - | not sound: state 0 choice 0: set 1 sums to -1;
HIGH | reject e 1 k 1 m 1 b 10/16;y 10 16 0;choice 0 - -;rank 1 0 -; | NotSound | - | not sound: node 0 state 0 choice 0 corner 0: 100 > 96;
HIGH | reject e 0 k 1 m 0 b 9/16;y 9 16 0;choice 0 - -;rank 1 0 -; | NotSound | - | \
    not sound: node 0 state 0 choice 0 corner 0: weight 6 times 2^0 < 10;
HIGH | reject e 1 k 1 m 1 b 9/16;y 9 16 0;choice - - -;rank - 0 -; | NotSound | - | not sound: node 0 unranked state 0 value 9;
ABOVE | reject e 1 k 1 m 1 b 9/16;y 9 16 0;choice 0 - -;rank 1 0 -; | NotSound | - | not sound: node 0 bound: 36 <= 48;
IDLE | unknown; | NotSound | - | not sound: node 0 depth;
IDLE | split 1; | NotSound | - | not sound: node 0 axis;
";

// Each row: the head, what follows it, the status, what is written when that is migrated, and the note.
const MIGRATED: &str = "\
LOW | accept 7 16 0; | Done | plift 2;kind dtmc;parameters 1 p;common 1;states 3;init 0;goal 1 1;row 0 0 2;to 1 1:1;\
    to 2 0:1 1:-1;row 1 0 1;to 1 0:1;row 2 0 1;to 2 0:1;bound 1/2;precision 4;from 4;depth 0;grid 10;box 1 4;at 4;\
    accept 7 16 0; | -
HIGH | reject e 1 k 1 m 1 b 9/16;y 9 16 0;choice 0 - -;rank 1 0 -; | Done | plift 2;kind dtmc;parameters 1 p;common 1;\
    states 3;init 0;goal 1 1;row 0 0 2;to 1 1:1;to 2 0:1 1:-1;row 1 0 1;to 1 0:1;row 2 0 1;to 2 0:1;bound 1/2;\
    precision 4;from 4;depth 0;grid 10;box 6 9;at 4;reject e 1 k 1 m 1 b 9/16;y 9 16 0;choice 0 - -;rank 1 0 -; | -
WIDE | split 0;accept 8 16 0;split 0;unknown;reject e 1 k 1 m 1 b 11/16;y 11 16 0;choice 0 - -;rank 1 0 -; | Done | \
    plift 2;kind dtmc;parameters 1 p;common 1;states 3;init 0;goal 1 1;row 0 0 2;to 1 1:1;to 2 0:1 1:-1;row 1 0 1;\
    to 1 0:1;row 2 0 1;to 2 0:1;bound 1/2;precision 4;from 4;depth 2;grid 40;box 4 36;split 0;at 4;accept 8 16 0;\
    split 0;unknown;at 4;reject e 1 k 1 m 1 b 11/16;y 11 16 0;choice 0 - -;rank 1 0 -; | -
RANGE | at 1;accept 1 2 0; | NotSound | - | not sound: line 1: Version;
RANGE | at 5;accept 1 2 0; | NotSound | - | not sound: line 1: Version;
RANGE | - | NotSound | - | not sound: line 1: Version;
NEXT | accept 7 16 0; | NotSound | - | not sound: line 1: Version;
LOW | accept 6 16 0; | NotSound | - | not sound: node 0 state 0 choice 0 corner 1: 64 > 60;
LOW | accept 7 16 0;x; | NotSound | - | not sound: rest;
LOW | at 4;accept 7 16 0; | NotSound | - | not sound: line 20: Syntax;
LOW | - | NotSound | - | not sound: line 20: Truncated;
FAR | accept 7 16 0; | NotSound | - | not sound: line 6: Limit;
NOTHING | - | NotSound | - | not sound: line 1: Truncated;
NOTHING | plift 2 | NotSound | - | not sound: line 1: Truncated;
UNEVEN | accept 7 16 0; | NotSound | - | not sound: state 0 choice 0: set 1 sums to -1;
IDLE | split 1; | NotSound | - | not sound: node 0 axis;
";

// Each row: the head, what follows it, the status, what is written when that is gone on from to depth 2, and the note.
const REFINED: &str = "\
HALF | split 0;accept 8 16 0;unknown; | Done | plift 1;kind dtmc;parameters 1 p;common 1;states 3;init 0;goal 1 1;\
    row 0 0 2;to 1 1:1;to 2 0:1 1:-1;row 1 0 1;to 1 0:1;row 2 0 1;to 2 0:1;bound 1/2;precision 4;depth 2;grid 40;box 4 36;\
    split 0;accept 8 16 0;split 0;unknown;reject e 1 k 1 m 1 b 11/16;y 11 16 0;choice 0 - -;rank 1 0 -; | -
LOW | accept 7 16 0; | Done | plift 1;kind dtmc;parameters 1 p;common 1;states 3;init 0;goal 1 1;row 0 0 2;to 1 1:1;\
    to 2 0:1 1:-1;row 1 0 1;to 1 0:1;row 2 0 1;to 2 0:1;bound 1/2;precision 4;depth 2;grid 40;box 4 16;accept 7 16 0; | -
RANGE | at 1;accept 1 2 0; | Done | plift 2;kind dtmc;parameters 1 p;common 1;states 3;init 0;goal 1 1;row 0 0 2;\
    to 1 1:1;to 2 0:1 1:-1;row 1 0 1;to 1 0:1;row 2 0 1;to 2 0:1;bound 1/2;precision 4;from 1;depth 2;grid 40;box 4 16;\
    at 1;accept 1 2 0; | -
WIDE | split 0;accept 8 16 0;split 0;unknown;reject e 1 k 1 m 1 b 11/16;y 11 16 0;choice 0 - -;rank 1 0 -; | Usage | - | usage: --depth;
WIDE | split 0;accept 8 16 0;split 0;unknown;reject e 1 k 1 m 1 b 11/16;y 11 16 0;choice 0 - -;rank 1 0 -;x; | NotSound | - | not sound: rest;
HALF | unknown; | NotSound | - | not sound: node 0 depth;
LOW | accept 6 16 0; | NotSound | - | not sound: node 0 state 0 choice 0 corner 1: 64 > 60;
LOW | - | NotSound | - | not sound: line 20: Truncated;
NOTHING | - | NotSound | - | not sound: line 1: Truncated;
";

// The head of that name; none where there is none.
fn find_head(name: &str) -> Option<&'static str> {
    for row in HEADS.lines() {
        if let Some((key, head)) = row.split_once(" = ") {
            if key == name {
                return Some(head);
            }
        }
    }
    None
}

// The bytes of a head and what follows it.
fn text_of(alloc: Global, head: &str, rest: &str) -> Result<Vec<u8>, AllocError> {
    let mut text = lines_of(alloc, head)?;
    text.extend_from_slice(&lines_of(alloc, rest)?)?;
    Ok(text)
}

// The bytes of a file, by the name of its head.
fn file_of(alloc: Global, name: &str, rest: &str) -> Result<Vec<u8>, Unreported> {
    match find_head(name) {
        Some(head) => Ok(text_of(alloc, head, rest)?),
        None => Err(Unreported::Cell),
    }
}

// That a command gives at a row's file what stands beside it.
#[derive(Clone, Copy)]
struct Command {
    name: &'static str,
}

impl Claim for Command {
    fn holds(&self, alloc: Global, row: &str) -> Result<bool, Unreported> {
        let (head, rest, answer) = cut_two(row);
        let (want, written) = wanted(answer);
        let mut source = SureSource::new(file_of(alloc, head, rest)?);
        let mut sinks = Sinks::make(alloc, 1000, 7)?;
        let words = words_of(alloc, self.name, ' ')?;
        let comes = want.comes(alloc, &words, &mut source, &mut sinks);
        Ok(comes && are_lines(sinks.out.taken(), written))
    }
}

#[test]
fn files_are_checked(rt: HostRuntime) {
    each_claim(&rt, rt.alloc(), FILES, &Command { name: "check" });
}

#[test]
fn reports_are_migrated(rt: HostRuntime) {
    each_claim(&rt, rt.alloc(), MIGRATED, &Command { name: "migrate" });
}

#[test]
fn reports_are_gone_on_from(rt: HostRuntime) {
    each_claim(
        &rt,
        rt.alloc(),
        REFINED,
        &Command {
            name: "refine --depth 2",
        },
    );
}
