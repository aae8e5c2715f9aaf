// Reports with changes, and what is answered.
use crate::cells::each_row;
use crate::check::reports::{answer_of, changed_report};
use std::alloc::Global;
use std::string::String;
use test_cells::{Teller, Unreported, cut};

// Each row: the report, the changes of its lines, and the answer.
const ANSWERS: &str = "\
COIN | - | Summary { accept: 1, reject: 0, unknown: 0, version: 1 }
COIN | 20=accept 8 16 0 | Summary { accept: 1, reject: 0, unknown: 0, version: 1 }
HIGH | - | Summary { accept: 0, reject: 1, unknown: 0, version: 1 }
SPLIT | - | Summary { accept: 1, reject: 1, unknown: 1, version: 1 }
MIDDLE | - | Summary { accept: 0, reject: 0, unknown: 1, version: 1 }
HALVED | - | Summary { accept: 1, reject: 0, unknown: 1, version: 1 }
IDLE | - | Summary { accept: 1, reject: 0, unknown: 1, version: 1 }
COIN | 20=accept 6 16 0 | Missed { node: 0, miss: Row { state: 0, choice: 0, corner: 1, left: 64, right: 60 } }
COIN | 20=accept 7 16 0;x | Rest
COIN | 20=accept 7 16 0; | Rest
COIN | 1=plift 3 | Text(TextError { line: 1, cause: Version })
COIN | 20=accept 07 16 0 | Text(TextError { line: 20, cause: Syntax })
COIN | 6=init 3 | Text(TextError { line: 6, cause: Limit })
COIN | 9=to 1 2:1 | Text(TextError { line: 9, cause: Limit })
COIN | 10=to 2 1:-1 0:1 | Text(TextError { line: 10, cause: Syntax })
COIN | 10=to 2 0:1 1:-2 | Rows(RowSum { state: 0, choice: 0, set: 1, sum: -1 })
COIN | 16=precision 41 | Text(TextError { line: 16, cause: Limit })
COIN | 19=box 4 4 | Text(TextError { line: 19, cause: Syntax })
COIN | 20=accept 7 17 0 | Text(TextError { line: 20, cause: Limit })
COIN | 20=accept 7 15 0 | Missed { node: 0, miss: Goal { state: 1, value: 15 } }
COIN | 20=accept 9 16 0 | Missed { node: 0, miss: Limit { left: 18, right: 16 } }
COIN | 10=to 2 0:1 1:-2 / 20=accept 07 16 0 | Rows(RowSum { state: 0, choice: 0, set: 1, sum: -1 })
HIGH | 20=reject e 1 k 1 m 1 b 10/16 / 21=y 10 16 0 | Missed { node: 0, miss: Row { state: 0, choice: 0, corner: 0, left: 100, right: 96 } }
HIGH | 20=reject e 0 k 1 m 0 b 9/16 | Missed { node: 0, miss: Rate { state: 0, choice: 0, corner: 0, weight: 6, e: 0, whole: 10 } }
HIGH | 20=reject e 1 k 1 m 2 b 9/16 | Text(TextError { line: 20, cause: Syntax })
HIGH | 22=choice - - - / 23=rank - 0 - | Missed { node: 0, miss: Unranked { state: 0, value: 9 } }
HIGH | 15=bound 3/4 | Missed { node: 0, miss: Limit { left: 36, right: 48 } }
BACK | - | Missed { node: 0, miss: Rate { state: 0, choice: 0, corner: 0, weight: 0, e: 1, whole: 2 } }
UNHALVED | - | Depth { node: 0 }
MIDDLE | 20=split 0 | Depth { node: 0 }
IDLE | 20=split 1 | Axis { node: 0 }
SPLIT | 23=unknown;unknown | Rest
SPLIT | 23=split 0 | Depth { node: 3 }
SPLIT | 21=accept 7 16 0 | Missed { node: 1, miss: Row { state: 0, choice: 0, corner: 1, left: 320, right: 280 } }
SPLIT | 21=unknown / 23=split 0 | Depth { node: 1 }
SPLIT | 24=reject e 1 k 1 m 1 b 12/16 / 25=y 12 16 0 | \
    Missed { node: 4, miss: Row { state: 0, choice: 0, corner: 0, left: 480, right: 448 } }
";

/// What is answered to reports with changes.
pub struct Answered;

impl Teller for Answered {
    type Reported = String;

    type Error = Unreported;

    fn tell(&self, alloc: Global, asked: &str) -> Result<String, Unreported> {
        let (name, changes) = cut(asked);
        let text = changed_report(alloc, name, changes)?;
        answer_of(alloc, text, 0)
    }
}

#[test]
fn files_are_answered(rt: HostRuntime) {
    each_row(&rt, rt.alloc(), ANSWERS, &Answered);
}
