// Models that are read, and the lines of their entries as they are written.
use crate::cells::each_row;
use crate::changes::changed;
use crate::text::reports::fresh_lines;
use cert_text::{read_head, write_model};
use lift_base::MemSink;
use lift_model::Model;
use line_text::TextSource;
use std::alloc::{AllocError, Global};
use test_cells::{Teller, Unreported};

// A chain of five states with four parameters. A semicolon stands between two lines.
const WIDE: &str = "plift 1;kind dtmc;parameters 4 p q r s;common 1;states 5;init 0;goal 1 1;\
    row 0 0 5;to 0;to 1;to 2;to 3;to 4;row 1 0 0;row 2 0 0;row 3 0 0;row 4 0 0;\
    bound 1/2;precision 4;depth 0;grid 10;box 1 4 1 4 1 4 1 4;unknown";

// Each row: the changes of the lines of the first row's entries, and these as they are written. A
// text of terms comes again, and where another one came in between; terms differ in their sets
// alone, in the last number alone, and in the first term alone; some are more than two; and some
// texts have 64 bytes, one more, and many more.
const ENTRIES: &str = "\
- | to 0;to 1;to 2;to 3;to 4;
9=to 0 0:5 / 10=to 1 0:5 / 11=to 2 8:5 / 12=to 3 0:5 / 13=to 4 8:5 | to 0 0:5;to 1 0:5;to 2 8:5;to 3 0:5;to 4 8:5;
9=to 0 3:5 / 10=to 1 3:-5 / 11=to 2 3:5 / 13=to 4 3:50 | to 0 3:5;to 1 3:-5;to 2 3:5;to 3;to 4 3:50;
9=to 0 0:1 1:-1 / 10=to 1 0:1 9:-1 / 11=to 2 0:1 1:-1 / 12=to 3 0:1 9:-1 | to 0 0:1 1:-1;to 1 0:1 9:-1;to 2 0:1 1:-1;\
to 3 0:1 9:-1;to 4;
9=to 0 0:1 2:4 / 10=to 1 0:3 2:4 / 11=to 2 1:3 2:4 / 12=to 3 1:3 2:5 / 13=to 4 2:4 | to 0 0:1 2:4;to 1 0:3 2:4;\
to 2 1:3 2:4;to 3 1:3 2:5;to 4 2:4;
9=to 0 1:2 3:4 / 10=to 1 0:9 1:2 3:4 / 11=to 2 1:2 3:4 / 12=to 3 0:9 1:2 3:4 / 13=to 4 0:9 1:2 | to 0 1:2 3:4;\
to 1 0:9 1:2 3:4;to 2 1:2 3:4;to 3 0:9 1:2 3:4;to 4 0:9 1:2;
9=to 0 1:1267650600228229401496703205375 / 10=to 1 1:-1267650600228229401496703205375 / \
11=to 2 1:1267650600228229401496703205375 | to 0 1:1267650600228229401496703205375;\
to 1 1:-1267650600228229401496703205375;to 2 1:1267650600228229401496703205375;to 3;to 4;
9=to 0 0:1267650600228229401496703205375 1:-12345678901234567890123456 / \
10=to 1 0:1267650600228229401496703205375 1:-123456789012345678901234567 / \
11=to 2 0:1267650600228229401496703205375 1:-12345678901234567890123456 / \
12=to 3 0:-1267650600228229401496703205375 1:-1267650600228229401496703205375 / \
13=to 4 0:-1267650600228229401496703205375 1:-1267650600228229401496703205375 | \
to 0 0:1267650600228229401496703205375 1:-12345678901234567890123456;\
to 1 0:1267650600228229401496703205375 1:-123456789012345678901234567;\
to 2 0:1267650600228229401496703205375 1:-12345678901234567890123456;\
to 3 0:-1267650600228229401496703205375 1:-1267650600228229401496703205375;\
to 4 0:-1267650600228229401496703205375 1:-1267650600228229401496703205375;
";

// The lines of the first row's entries, with a semicolon behind each.
fn shown_entries(alloc: Global, text: &[u8]) -> Result<String, AllocError> {
    let text = String::from_utf8_lossy(alloc, text)?;
    let (_, rows) = text.as_str().split_once("row 0 0 5\n").unwrap_or(("", ""));
    let (entries, _) = rows.split_once("row ").unwrap_or(("", ""));
    let mut reported = String::new(alloc);
    for line in entries.lines() {
        reported.push_str(line)?;
        reported.push(';')?;
    }
    Ok(reported)
}

// What is written of a model's first row.
fn written(alloc: Global, model: &Model) -> Result<String, Unreported> {
    let mut out = MemSink::new(alloc, 10000, 10000, Vec::new(alloc))?;
    match write_model(&mut out, model) {
        Ok(()) => Ok(shown_entries(alloc, out.taken())?),
        Err(_) => Err(Unreported::Cell),
    }
}

struct Entries;

impl Teller for Entries {
    type Reported = String;

    type Error = Unreported;

    fn tell(&self, alloc: Global, asked: &str) -> Result<String, Unreported> {
        let text = changed(alloc, WIDE, asked)?;
        let mut lines = fresh_lines(alloc)?;
        let read = read_head(alloc, &mut lines, &mut TextSource::new(&text));
        drop(lines);
        match read {
            Ok(head) => {
                let reported = written(alloc, head.model());
                drop(head);
                reported
            }
            Err(_) => Err(Unreported::Cell),
        }
    }
}

#[test]
fn entries_are_written(rt: HostRuntime) {
    each_row(&rt, rt.alloc(), ENTRIES, &Entries);
}
