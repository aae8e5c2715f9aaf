// Heads with changes, and what is read of them.
use crate::cells::each_row;
use crate::text::reports::{changed_report, fresh_lines, line_due, shown_fault};
use cert_text::{Head, read_head};
use lift_model::Row;
use line_text::TextSource;
use std::alloc::{AllocError, Global};
use std::fmt::Write;
use std::string::String;
use test_cells::{Teller, cut, number};

// Each row: the report and the changes of its lines, and what the head tells. That is the parameters,
// the states, the initial state, the bound, the precision, the depth, the grid, the root's sides, and
// the line behind it.
const READ: &str = "\
COIN - | p 3 0 1/2 4 0 10 box 1 4 line 20
COIN 3=parameters 1 aaaaaaaaaaaaaaaaaaaaaaaaaaaaaaaaaaaaaaaaaaaaaaaaaaaaaaaaaaaaaaaa | \
    aaaaaaaaaaaaaaaaaaaaaaaaaaaaaaaaaaaaaaaaaaaaaaaaaaaaaaaaaaaaaaaa 3 0 1/2 4 0 10 box 1 4 line 20
COIN 4=common 4611686018427387903 | p 3 0 1/2 4 0 10 box 1 4 line 20
COIN 6=init 2 / 7=goal 3 0 1 2 | p 3 2 1/2 4 0 10 box 1 4 line 20
COIN 9=to 1 / 10=to 2 1:1267650600228229401496703205375 | p 3 0 1/2 4 0 10 box 1 4 line 20
COIN 2=kind mdp / 14=to 2 0:1;row 2 1 0 | p 3 0 1/2 4 0 10 box 1 4 line 21
COIN 15=bound 0/1 / 16=precision 40 | p 3 0 0/1 40 0 10 box 1 4 line 20
COIN 15=bound 4294967294/4294967295 | p 3 0 4294967294/4294967295 4 0 10 box 1 4 line 20
COIN 17=depth 20 / 19=box 0 1048576 | p 3 0 1/2 4 20 10 box 0 1048576 line 20
COIN 18=grid 4611686018427387903 / 19=box -4611686018427387903 0 | p 3 0 1/2 4 0 4611686018427387903 box -4611686018427387903 0 line 20
COIN 3=parameters 5 a b c d e / 9=to 1 1:1 2:1 12:1 / 19=box 1 4 1 4 1 4 1 4 1 4 | a b c d e 3 0 1/2 4 0 10 box 1 4 1 4 1 4 1 4 1 4 line 20
COIN 3=parameters 4 a b c d / 9=to 1 0:1 1:1 2:1 3:1 4:1 5:1 6:1 7:1 8:1 9:1 10:1 11:1 12:1 13:1 14:1 15:1 / 19=box 1 4 1 4 1 4 1 4 | \
    a b c d 3 0 1/2 4 0 10 box 1 4 1 4 1 4 1 4 line 20
PAIR - | p q 2 0 1/1 10 2 40 box 4 36 -8 40 line 20
";

// Each row: the report and the changes of its lines, and the line and the cause.
const REFUSED: &str = "\
COIN 6=init 3 | 6 Limit
COIN 9=to 3 1:1 | 9 Limit
COIN 9=to 1 2:1 | 9 Limit
COIN 10=to 2 1:-1 0:1 | 10 Syntax
COIN 16=precision 41 | 16 Limit
COIN 19=box 4 4 | 19 Syntax
COIN 1=plift 3 | 1 Version
COIN 1=plift 01 | 1 Syntax
COIN 1=plift 2 2 | 1 Syntax
COIN 3=parameters 17 p | 3 Syntax
COIN 3=parameters 1 0p | 3 Syntax
COIN 5=states  3 | 5 Syntax
COIN 5=states 3  | 5 Syntax
COIN 5=states -1 | 5 Limit
COIN 5=states -0 | 5 Syntax
COIN 5=states 0 | 5 Limit
COIN 5=states 03 | 5 Syntax
COIN 5=states +3 | 5 Syntax
COIN 7=goal 0 | 7 Syntax
COIN 7=goal 2 1 | 7 Syntax
COIN 7=goal 1 3 | 7 Limit
COIN 7=goal 2 1 1 | 7 Syntax
COIN 8=row 0 1 2 | 8 Syntax
COIN 8=row 0 0 -2 | 8 Syntax
COIN 8=row 0 0 262145 | 8 Limit
COIN 11=row 0 1 1 | 11 Syntax
COIN 10=to 1 0:1 1:-1 | 10 Syntax
COIN 9=to 1 1:0 | 9 Syntax
COIN 9=to 1 1:1267650600228229401496703205376 | 9 Limit
COIN 15=bound 2/4 | 15 Syntax
COIN 15=bound 1/0 | 15 Limit
COIN 15=bound 3/2 | 15 Limit
COIN 15=bound -1/2 | 15 Limit
COIN 15=bound 0/2 | 15 Syntax
COIN 17=depth 21 | 17 Limit
COIN 18=grid 0 | 18 Limit
COIN 2=kind ctmc | 2 Syntax
COIN 15=row 3 0 1 | 15 Syntax
COIN 17=depth 1 | 19 Syntax
COIN 3=parameters 0 | 9 Limit
COIN 3=parameters 2 p p | 3 Syntax
COIN 3=parameters 17 a b c d e f g h i j k l m n o p q | 3 Limit
COIN 4=common 0 | 4 Limit
COIN 4=common 4611686018427387904 | 4 Limit
COIN 5=states 65537 | 5 Limit
COIN 7=goal 1 -1 | 7 Limit
COIN 9=to -1 1:1 | 9 Limit
COIN 14=row 2 1 1 | 14 Syntax
COIN 9=to 1 0:1 1:1 2:1 3:1 4:1 5:1 6:1 7:1 8:1 9:1 10:1 11:1 12:1 13:1 14:1 15:1 16:1 | 9 Syntax
COIN 15=bound 4294967296/1 | 15 Limit
COIN 15=bound 4294967296/4294967296 | 15 Limit
COIN 15=bound -2/-4 | 15 Limit
COIN 15=bound 2/-4 | 15 Limit
COIN 15=bound 2/4294967296 | 15 Syntax
COIN 15=bound 1/4294967296 | 15 Limit
COIN 15=bound 6/4 | 15 Syntax
COIN 15=bound 1 | 15 Syntax
COIN 16=precision 0 | 16 Limit
COIN 19=box 1 4 5 | 19 Syntax
COIN 19=box 1 4611686018427387904 | 19 Limit
COIN 1=plift 0 | 1 Version
COIN 1=plift -1 | 1 Version
COIN 1=plift 100000000000000000000000000000000000000000 | 1 Version
COIN 1=plift | 1 Syntax
COIN 1= | 1 Syntax
COIN 1= plift 1 | 1 Syntax
COIN 1=plift 1;plift 1 | 2 Syntax
COIN 2=kind | 2 Syntax
COIN 2=kind dtmc dtmc | 2 Syntax
COIN 2=kind mdp ; | 2 Syntax
COIN 3=parameters 2 p | 3 Syntax
COIN 3=parameters 01 p | 3 Syntax
COIN 3=parameters 1 aaaaaaaaaaaaaaaaaaaaaaaaaaaaaaaaaaaaaaaaaaaaaaaaaaaaaaaaaaaaaaaaa | 3 Limit
COIN 3=parameters 3 p p aaaaaaaaaaaaaaaaaaaaaaaaaaaaaaaaaaaaaaaaaaaaaaaaaaaaaaaaaaaaaaaaa | 3 Syntax
COIN 3=parameters 3 p aaaaaaaaaaaaaaaaaaaaaaaaaaaaaaaaaaaaaaaaaaaaaaaaaaaaaaaaaaaaaaaaa p | 3 Limit
COIN 4=common -1 | 4 Limit
COIN 4=common 1 1 | 4 Syntax
COIN 4=common x | 4 Syntax
COIN 4=common 100000000000000000000000000000000000000000 | 4 Limit
COIN 6=init -1 | 6 Limit
COIN 6=init | 6 Syntax
COIN 7=goal 1 | 7 Syntax
COIN 7=goal 01 1 | 7 Syntax
COIN 7=goal 2 1 3 | 7 Limit
COIN 7=goal 2 3 1 | 7 Limit
COIN 7=goal 2 2 1 | 7 Syntax
COIN 7=goal 2 2 x | 7 Syntax
COIN 8=row 0 0 | 8 Syntax
COIN 8=row 1 0 2 | 8 Syntax
COIN 8=row 0 0 1 | 10 Syntax
COIN 8=row 0 0 3 | 11 Syntax
COIN 8=row 0 0 262144 | 11 Syntax
COIN 8=row 0 0 100000000000000000000000000000000000000000 | 8 Limit
COIN 9=to 1 1:01 | 9 Syntax
COIN 9=to 1 1:-0 | 9 Syntax
COIN 9=to 1 01:1 | 9 Syntax
COIN 9=to 01 1:1 | 9 Syntax
COIN 9=to 1  1:1 | 9 Syntax
COIN 9=to 1 1: | 9 Syntax
COIN 9=to 1 1 | 9 Syntax
COIN 9=to 1 1:1:1 | 9 Syntax
COIN 9=to 1 -1:1 | 9 Limit
COIN 9=to 3 1:0 | 9 Limit
COIN 9=to 3 1:x | 9 Syntax
COIN 9=to 1 2:0 | 9 Limit
COIN 9=to 1 1:0 2:1 | 9 Syntax
COIN 9=to 1 1:-1267650600228229401496703205376 | 9 Limit
COIN 10=to 2 1:1 1:1 | 10 Syntax
COIN 10=to 1 2:1 | 10 Syntax
COIN 10=to 1 1:1 | 10 Syntax
COIN 10=to 3 1:1 | 10 Limit
COIN 10=to 2 1:1  | 10 Syntax
COIN 10=to 2  1:1 | 10 Syntax
COIN 3=parameters 5 a b c d e / 9=to 1 31:1 | 9 Limit
COIN 3=parameters 5 a b c d e / 9=to 1 3:1 5:1 9:1 17:1 | 9 Limit
COIN 3=parameters 5 a b c d e / 9=to 1 3:1 5:1 9:1 | 19 Syntax
COIN 14=to 2 0:1;row 2 1 0 | 15 Syntax
COIN 2=kind mdp / 14=to 2 0:1;row 2 2 0 | 15 Syntax
COIN 15=bound 01/2 | 15 Syntax
COIN 15=bound 1/-0 | 15 Syntax
COIN 15=bound 1/1/2 | 15 Syntax
COIN 15=bound 4294967295/4294967295 | 15 Syntax
COIN 15=bound 3/100000000000000000000000000000000000000000 | 15 Limit
COIN 15=bound 2/100000000000000000000000000000000000000000 | 15 Syntax
COIN 17=depth -1 | 17 Limit
COIN 18=grid -1 | 18 Limit
COIN 18=grid 4611686018427387904 | 18 Limit
COIN 19=box 4 1 | 19 Syntax
COIN 19=box -0 4 | 19 Syntax
COIN 19=box | 19 Syntax
COIN 19=box 1  4 | 19 Syntax
COIN 19=box -4611686018427387904 4 | 19 Limit
COIN 19=box 4611686018427387905 4611686018427387904 | 19 Syntax
COIN 19=box 4611686018427387904 4611686018427387905 | 19 Limit
COIN 17=depth 1 / 19=box 1 4611686018427387904 | 19 Syntax
COIN 17=depth 1 / 19=box 2 4611686018427387904 | 19 Limit
COIN 17=depth 1 / 19=box 2 4611686018427387905 | 19 Syntax
COIN 17=depth 20 / 19=box 0 1048575 | 19 Syntax
PAIR 2=kind dtmc | 11 Syntax
PAIR 11=row 0 2 1 | 11 Syntax
PAIR 11=row 0 1 0 | 12 Syntax
PAIR 13=row 1 1 1 | 13 Syntax
PAIR 9=to 1 4:2 | 9 Limit
PAIR 19=box 4 36 -8 41 | 19 Syntax
PAIR 19=box 4 36 -8 -8 | 19 Syntax
PAIR 19=box 4 36 | 19 Syntax
PAIR 19=box 4 36 4611686018427387904 -8 | 19 Syntax
PAIR 15=bound 1/1;precision 10 | 17 Syntax
";

// Each row: the report, and its rows. Terms stand there twice as well, and once with another number.
const ROWS: &str = "\
COIN - | row 0 0 to 1 1:1 to 2 0:1 1:-1 row 1 0 to 1 0:1 row 2 0 to 2 0:1
COIN 9=to 1 | row 0 0 to 1 to 2 0:1 1:-1 row 1 0 to 1 0:1 row 2 0 to 2 0:1
COIN 8=row 0 0 3 / 9=to 1 0:1 1:-1 / 10=to 2 0:1 1:-1;to 0 0:1 1:1 | row 0 0 to 1 0:1 1:-1 to 2 0:1 1:-1 to 0 0:1 1:1 \
row 1 0 to 1 0:1 row 2 0 to 2 0:1
COIN 8=row 0 0 3 / 9=to 1 1:9999999999999999999 / 10=to 2 1:9999999999999999999;to 0 1:-9999999999999999999 | row 0 0 \
to 1 1:9999999999999999999 to 2 1:9999999999999999999 to 0 1:-9999999999999999999 row 1 0 to 1 0:1 row 2 0 to 2 0:1
COIN 8=row 0 0 3 / 9=to 1 1:10000000000000000000 / 10=to 2 1:10000000000000000000;to 0 1:100000000000000000000 | row 0 0 \
to 1 1:10000000000000000000 to 2 1:10000000000000000000 to 0 1:100000000000000000000 row 1 0 to 1 0:1 row 2 0 to 2 0:1
PAIR - | row 0 0 to 1 1:2 to 0 0:2 1:-2 row 0 1 to 0 0:2 row 1 0 to 1 0:2
PAIR 8=row 0 0 0;row 0 1 2 / 11=row 0 2 1 | row 0 0 row 0 1 to 1 1:2 to 0 0:2 1:-2 row 0 2 to 0 0:2 row 1 0 to 1 0:2
";

// Tells the names of a head's parameters, each with a blank behind it.
fn tell_names(reported: &mut String, head: &Head) -> Result<(), AllocError> {
    let names = head.model().names();
    for index in 0..names.len() {
        for byte in names.get(index) {
            reported.push(char::from(*byte))?;
        }
        reported.push(' ')?;
    }
    Ok(())
}

// Tells the root of a head, by its grid.
fn tell_root(reported: &mut String, head: &Head) -> Result<(), AllocError> {
    let (depth, d) = (head.grid().depth, head.grid().d);
    write!(reported, "{depth} {d} box")?;
    for end in head.root().sides() {
        write!(reported, " {end}")?;
    }
    Ok(())
}

// Tells what a head says beside its rows.
fn tell_head(reported: &mut String, head: &Head) -> Result<(), AllocError> {
    tell_names(reported, head)?;
    let (states, init) = (head.model().states(), head.model().init());
    let (num, den) = (head.bound().num, head.bound().den);
    write!(reported, "{states} {init} {num}/{den} {} ", head.w())?;
    tell_root(reported, head)
}

// Tells a row.
fn tell_row(reported: &mut String, row: &Row) -> Result<(), AllocError> {
    for entry in row.entries() {
        write!(reported, " to {}", entry.target)?;
        for index in 0..entry.poly.len() {
            let (set, number) = entry.poly.term(index);
            write!(reported, " {set}:{number}")?;
        }
    }
    Ok(())
}

// Tells the rows of a head's model.
fn tell_rows(reported: &mut String, head: &Head) -> Result<(), AllocError> {
    let model = head.model();
    for s in 0..model.states() {
        for a in 0..model.choices(s) {
            let blank = if reported.is_empty() { "" } else { " " };
            write!(reported, "{blank}row {s} {a}")?;
            tell_row(reported, model.row(s, a))?;
        }
    }
    Ok(())
}

// What a head tells beside its rows.
fn shown(alloc: Global, head: &Head, line: u64) -> Result<String, AllocError> {
    let mut reported = String::new(alloc);
    tell_head(&mut reported, head)?;
    write!(reported, " line {line}")?;
    Ok(reported)
}

// The rows of a head's model.
fn shown_rows(alloc: Global, head: &Head) -> Result<String, AllocError> {
    let mut reported = String::new(alloc);
    tell_rows(&mut reported, head)?;
    Ok(reported)
}

// The rows of a head's model, or what it tells beside them.
fn reported_of(alloc: Global, head: &Head, line: u64, rows: bool) -> Result<String, AllocError> {
    if rows {
        shown_rows(alloc, head)
    } else {
        shown(alloc, head, line)
    }
}

// What is read of a text's head, or its rows alone.
fn answer_of(alloc: Global, text: &[u8], rows: bool) -> Result<String, AllocError> {
    let mut lines = fresh_lines(alloc)?;
    let read = read_head(alloc, &mut lines, &mut TextSource::new(text));
    let line = line_due(&lines);
    drop(lines);
    match read {
        Ok(head) => {
            let reported = reported_of(alloc, &head, line, rows);
            drop(head);
            reported
        }
        Err(error) => shown_fault(alloc, error),
    }
}

// What is read of heads: their rows alone, or all but them.
#[derive(Clone, Copy)]
struct Heads {
    rows: bool,
}

impl Teller for Heads {
    type Reported = String;

    type Error = AllocError;

    fn tell(&self, alloc: Global, asked: &str) -> Result<String, AllocError> {
        let text = changed_report(alloc, asked)?;
        answer_of(alloc, &text, self.rows)
    }
}

#[test]
fn heads_are_read(rt: HostRuntime) {
    each_row(&rt, rt.alloc(), READ, &Heads { rows: false });
}

#[test]
fn rows_are_read(rt: HostRuntime) {
    each_row(&rt, rt.alloc(), ROWS, &Heads { rows: true });
}

#[test]
fn heads_are_refused(rt: HostRuntime) {
    each_row(&rt, rt.alloc(), REFUSED, &Heads { rows: false });
}

// Each row: of how many bytes the first line is, what stands behind it, where a semicolon stands for a line feed, and the line
// and the cause.
const LONG: &str = "\
0 |  | 1 Truncated
1048576 |  | 1 Truncated
1048576 | ; | 1 Syntax
1048577 |  | 1 Limit
1048577 | ; | 1 Limit
";

// A line of so many bytes, and a line feed behind it where the line ends.
fn long_line(alloc: Global, len: usize, ends: bool) -> Result<Vec<u8>, AllocError> {
    let mut text = vec![in alloc; b'a'; len]?;
    if ends {
        text.push(b'\n')?;
    }
    Ok(text)
}

struct LongLines;

impl Teller for LongLines {
    type Reported = String;

    type Error = AllocError;

    fn tell(&self, alloc: Global, asked: &str) -> Result<String, AllocError> {
        let (len, end) = cut(asked);
        let text = long_line(alloc, number(len) as usize, end == ";")?;
        answer_of(alloc, &text, false)
    }
}

#[test]
fn long_lines_are_refused(rt: HostRuntime) {
    each_row(&rt, rt.alloc(), LONG, &LongLines);
}
