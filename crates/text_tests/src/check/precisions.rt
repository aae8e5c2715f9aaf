// Reports of the second version, whose leaves have their own precisions, and what is answered.
use crate::cells::each_row;
use crate::check::answers::Answered;

// Each row: the report, the changes of its lines, and the answer.
const ANSWERS: &str = "\
COIN | 1=plift 2 | Text(TextError { line: 17, cause: Syntax })
COIN | 1=plift 2 / 16=precision 4;from 4 / 20=at 4;accept 7 16 0 | Summary { accept: 1, reject: 0, unknown: 0, version: 2 }
COIN | 1=plift 2 / 16=precision 4;from 1 / 20=at 4;accept 7 16 0 | Summary { accept: 1, reject: 0, unknown: 0, version: 2 }
COIN | 1=plift 2 / 16=precision 4;from 1 / 20=at 1;accept 1 2 0 | Summary { accept: 1, reject: 0, unknown: 0, version: 2 }
COIN | 1=plift 2 / 16=precision 4;from 1 / 20=at 5;accept 1 2 0 | Text(TextError { line: 21, cause: Limit })
COIN | 1=plift 2 / 16=precision 4;from 2 / 20=at 1;accept 1 2 0 | Text(TextError { line: 21, cause: Limit })
COIN | 1=plift 2 / 16=precision 4;from 1 / 20=accept 7 16 0 | Text(TextError { line: 21, cause: Syntax })
COIN | 1=plift 2 / 16=precision 4;from 1 / 20=at 3;accept 3 8 0 | \
    Missed { node: 0, miss: Row { state: 0, choice: 0, corner: 1, left: 32, right: 30 } }
COIN | 1=plift 2 / 16=precision 4;from 1 / 20=at 3;accept 5 8 0 | Missed { node: 0, miss: Limit { left: 10, right: 8 } }
COIN | 1=plift 2 / 16=precision 4;from 1 / 20=at 3;accept 4 4 0 | Missed { node: 0, miss: Goal { state: 1, value: 4 } }
COIN | 1=plift 2 / 16=precision 4;from 1 / 20=at 3;accept 4 16 0 | Text(TextError { line: 22, cause: Limit })
COIN | 1=plift 2 / 16=precision 4;from 1 / 20=at 1;accept 1 2 0;x | Rest
COIN | 10=to 2 0:1 1:-2 / 1=plift 2 / 16=precision 4;from 1 / 20=at 1;accept 1 2 0 | Rows(RowSum { state: 0, choice: 0, set: 1, sum: -1 })
HIGH | 1=plift 2 / 16=precision 4;from 1 / 20=at 4;reject e 1 k 1 m 1 b 9/16 | Summary { accept: 0, reject: 1, unknown: 0, version: 2 }
HIGH | 1=plift 2 / 16=precision 5;from 4 / 20=at 4;reject e 1 k 1 m 1 b 9/16 | Summary { accept: 0, reject: 1, unknown: 0, version: 2 }
HIGH | 1=plift 2 / 16=precision 4;from 1 / 20=at 3;reject e 1 k 1 m 1 b 4/8 / 21=y 4 8 0 | \
    Missed { node: 0, miss: Limit { left: 8, right: 8 } }
HIGH | 1=plift 2 / 16=precision 4;from 1 / 20=at 3;reject e 1 k 1 m 1 b 5/8 / 21=y 5 8 0 | \
    Missed { node: 0, miss: Row { state: 0, choice: 0, corner: 0, left: 50, right: 48 } }
HIGH | 1=plift 2 / 16=precision 4;from 1 / 20=at 3;reject e 1 k 1 m 1 b 9/16 | Text(TextError { line: 23, cause: Limit })
SPLIT | 1=plift 2 / 16=precision 4;from 1 / 21=at 1;accept 1 2 0 / 24=at 4;reject e 1 k 1 m 1 b 11/16 | \
    Summary { accept: 1, reject: 1, unknown: 1, version: 2 }
SPLIT | 1=plift 2 / 16=precision 4;from 1 / 21=at 1;accept 1 2 0 / 24=at 5;reject e 1 k 1 m 1 b 11/16 | \
    Text(TextError { line: 26, cause: Limit })
SPLIT | 1=plift 2 / 16=precision 4;from 1 / 21=unknown | Depth { node: 1 }
";

#[test]
fn precisions_are_answered(rt: HostRuntime) {
    each_row(&rt, rt.alloc(), ANSWERS, &Answered);
}
