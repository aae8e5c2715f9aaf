// The rectangles of pictures.
use crate::cells::each_claim;
use lift_base::{MemSink, Text};
use std::alloc::{AllocError, Global};
use test_cells::{Claim, Unreported};
use view_map::{ReportMap, read_map, slice_of};
use view_text::Picture;

// Reports, each by its name. A semicolon stands for the end of a line. WIDE: a coin with p from 1/10
// to 9/10, accepted up to 1/2. RANGE: the same in version 2, with precisions from 1 to 4. LONG: a coin whose parameter has
// a long name and goes from 1/1000000 to 1/100000. PLAIN: no parameters. TWO and THREE: as many
// parameters, each step of a chain taken with one of them, accepted up to 1/4. UNSOUND: its
// certificate is too low.
const REPORTS: &str = "\
WIDE = plift 1;kind dtmc;parameters 1 p;common 1;states 3;init 0;goal 1 1;row 0 0 2;to 1 1:1;to 2 0:1 1:-1;row 1 0 1;\
    to 1 0:1;row 2 0 1;to 2 0:1;bound 1/2;precision 4;depth 2;grid 40;box 4 36;split 0;accept 8 16 0;split 0;unknown;\
    reject e 1 k 1 m 1 b 11/16;y 11 16 0;choice 0 - -;rank 1 0 -;
RANGE = plift 2;kind dtmc;parameters 1 p;common 1;states 3;init 0;goal 1 1;row 0 0 2;to 1 1:1;to 2 0:1 1:-1;row 1 0 1;\
    to 1 0:1;row 2 0 1;to 2 0:1;bound 1/2;precision 4;from 1;depth 2;grid 40;box 4 36;split 0;at 1;accept 1 2 0;split 0;\
    unknown;at 4;reject e 1 k 1 m 1 b 11/16;y 11 16 0;choice 0 - -;rank 1 0 -;
LONG = plift 1;kind dtmc;parameters 1 abcdefghijklmnopqrstuvwxyz;common 1;states 3;init 0;goal 1 1;row 0 0 2;to 1 1:1;\
    to 2 0:1 1:-1;row 1 0 1;to 1 0:1;row 2 0 1;to 2 0:1;bound 1/2;precision 4;depth 0;grid 1000000;box 1 10;accept 1 16 0;
PLAIN = plift 1;kind dtmc;parameters 0;common 4;states 3;init 0;goal 1 1;row 0 0 2;to 1 0:1;to 2 0:3;row 1 0 1;\
    to 1 0:4;row 2 0 1;to 2 0:4;bound 1/2;precision 4;depth 0;grid 1;box;accept 4 16 0;
TWO = plift 1;kind dtmc;parameters 2 p q;common 1;states 4;init 0;goal 1 3;row 0 0 2;to 1 1:1;to 2 0:1 1:-1;row 1 0 2;\
    to 3 2:1;to 2 0:1 2:-1;row 2 0 1;to 2 0:1;row 3 0 1;to 3 0:1;bound 1/4;precision 4;depth 2;grid 4;box 0 4 0 4;\
    split 0;split 1;accept 4 8 0 16;unknown;split 1;unknown;unknown;
THREE = plift 1;kind dtmc;parameters 3 p q r;common 1;states 5;init 0;goal 1 4;row 0 0 2;to 1 1:1;to 3 0:1 1:-1;\
    row 1 0 2;to 2 2:1;to 3 0:1 2:-1;row 2 0 2;to 4 4:1;to 3 0:1 4:-1;row 3 0 1;to 3 0:1;row 4 0 1;to 4 0:1;bound 1/4;\
    precision 4;depth 3;grid 8;box 0 8 0 8 0 8;split 0;split 1;accept 4 8 16 0 16;split 2;accept 4 8 8 0 16;unknown;\
    split 1;split 2;accept 4 4 8 0 16;unknown;split 2;unknown;unknown;
UNSOUND = plift 1;kind dtmc;parameters 0;common 4;states 3;init 0;goal 1 1;row 0 0 2;to 1 0:1;to 2 0:3;row 1 0 1;\
    to 1 0:4;row 2 0 1;to 2 0:4;bound 1/2;precision 4;depth 0;grid 1;box;accept 3 16 0;
";

// Each row: the report, and a part of its picture. The canvas has 1048576 units in each direction.
const PICTURES: &str = "\
WIDE | fill=\"url(#accepted)\" d=\"M0 1048576H524288V0H0z\"
WIDE | fill=\"url(#unknown)\" d=\"M524288 1048576H786432V0H524288z\"
WIDE | fill=\"url(#rejected)\" d=\"M786432 1048576H1048576V0H786432z\"
WIDE | accepted 50.0000 %, rejected 25.0000 %, unknown 25.0000 % of the volume
WIDE | stroke-width=\"1000\" d=\"M0 1048576H524288V0H0zM524288 1048576H786432V0H524288zM786432 1048576H1048576V0H786432z\"
WIDE | <title>at most 1/2, numbers over 2^4, depth 2</title>
WIDE | >Markov chain, states: 3</text>
WIDE | <title>p</title>p</text>
WIDE | >from 1/10 to 9/10</text>
WIDE | <text x=\"140\" y=\"20\">0.100</text>
WIDE | <text x=\"530\" y=\"20\">0.700</text>
RANGE | <title>at most 1/2, numbers over 2^1 to 2^4, depth 2</title>
LONG | <title>abcdefghijklmnopqrstuvwxyz</title>abcdefghijk&#8230;opqrstuvwxyz</text>
LONG | <text x=\"270\" y=\"20\">0.000003250</text>
PLAIN | fill=\"url(#accepted)\" d=\"M0 1048576H1048576V0H0z\"
PLAIN | fill=\"url(#rejected)\" d=\"\"
PLAIN | accepted 100.0000 %, rejected 0.0000 %, unknown 0.0000 % of the volume
";

/// The report of that name; none where there is none.
pub fn find_report(name: &str) -> Option<&'static str> {
    for row in REPORTS.lines() {
        if let Some((key, text)) = row.split_once(" = ") {
            if key == name {
                return Some(text);
            }
        }
    }
    None
}

/// The bytes of a text in which a semicolon stands for the end of a line.
pub fn lines_of(alloc: Global, text: &str) -> Result<Vec<u8>, AllocError> {
    let mut bytes = Vec::new(alloc);
    for byte in text.as_bytes() {
        bytes.push(if *byte == b';' { b'\n' } else { *byte })?;
    }
    Ok(bytes)
}

/// Whether the part stands somewhere in the text.
pub fn is_within(text: &[u8], part: &[u8]) -> bool {
    for at in 0..text.len() {
        if text[at..].starts_with(part) {
            return true;
        }
    }
    false
}

// Whether a picture has that part.
fn has_part(alloc: Global, picture: &Picture, part: &str) -> Result<bool, AllocError> {
    let mut out = MemSink::new(alloc, 10_000, 64, Vec::new(alloc))?;
    Ok(picture.write_to(&mut out).is_ok() && is_within(out.taken(), part.as_bytes()))
}

// Whether the picture of a map has that part.
fn shows_part(alloc: Global, map: &ReportMap, part: &str) -> Result<bool, AllocError> {
    let slice = slice_of(alloc, map.head(), None, None, &[])?;
    has_part(alloc, &Picture { map, slice: &slice }, part)
}

// Whether the picture of a report has that part.
fn is_drawn(alloc: Global, text: &[u8], part: &str) -> Result<bool, AllocError> {
    if text.len() > 1 << 26 {
        return Ok(false);
    }
    match read_map(alloc, text) {
        Ok(map) => shows_part(alloc, &map, part),
        Err(_) => Ok(false),
    }
}

struct Drawn;

impl Claim for Drawn {
    fn holds(&self, alloc: Global, row: &str) -> Result<bool, Unreported> {
        let Some((name, part)) = row.split_once(" | ") else {
            return Ok(false);
        };
        match find_report(name) {
            Some(report) => Ok(is_drawn(alloc, &lines_of(alloc, report)?, part)?),
            None => Ok(false),
        }
    }
}

#[test]
fn pictures_have_rectangles(rt: HostRuntime) {
    each_claim(&rt, rt.alloc(), PICTURES, &Drawn);
}

// Whether the report of that name, which has to be short, has no map.
fn has_no_map(alloc: Global, name: &str) -> Result<bool, AllocError> {
    let Some(report) = find_report(name) else {
        return Ok(false);
    };
    let text = lines_of(alloc, report)?;
    Ok(text.len() < 1000 && read_map(alloc, &text).is_err())
}

#[test]
fn unsound_reports_have_no_map(rt: HostRuntime) {
    assert!(rt; matches!(has_no_map(rt.alloc(), "UNSOUND"), Ok(true)));
}
