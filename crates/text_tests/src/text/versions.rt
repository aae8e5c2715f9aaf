// Reports of both versions, and what is read of their precisions.
use crate::cells::each_row;
use crate::text::nodes::FirstNode;

// Each row: the report and the changes of its lines; and what is read: the version, the least and the
// greatest precision, and the first node, with its own precision and the line behind it.
const READ: &str = "\
COIN - | 1 4 4 at 4 accept 7 16 0 line 21
COIN 20=unknown | 1 4 4 unknown line 21
COIN 20=reject e 1 k 1 m 1 b 9/16;y 9 16 0;choice 0 - -;rank 1 0 - | 1 4 4 at 4 reject 1 1 y 9 16 0 choice 0 - - rank 1 0 - line 24
COIN 1=plift 2 / 16=precision 4;from 1 / 20=at 1;accept 1 2 0 | 2 1 4 at 1 accept 1 2 0 line 23
COIN 1=plift 2 / 16=precision 4;from 1 / 20=at 4;accept 16 16 16 | 2 1 4 at 4 accept 16 16 16 line 23
COIN 1=plift 2 / 16=precision 4;from 4 / 20=at 4;accept 7 16 0 | 2 4 4 at 4 accept 7 16 0 line 23
COIN 1=plift 2 / 16=precision 40;from 40 / 20=at 40;accept 1099511627776 0 1 | 2 40 40 at 40 accept 1099511627776 0 1 line 23
COIN 1=plift 2 / 16=precision 4;from 2 / 20=at 2;reject e 1 k 1 m 1 b 3/4;y 3 4 0;choice 0 - -;rank 1 0 - | \
    2 2 4 at 2 reject 1 1 y 3 4 0 choice 0 - - rank 1 0 - line 26
COIN 1=plift 2 / 16=precision 4;from 2 / 20=at 3;reject e 1 k 1 m 1 b 5/8;y 5 8 0;choice 0 - -;rank 1 0 - | \
    2 2 4 at 3 reject 1 1 y 5 8 0 choice 0 - - rank 1 0 - line 26
COIN 1=plift 2 / 16=precision 4;from 1 / 20=split 0 | 2 1 4 split 0 line 22
COIN 1=plift 2 / 16=precision 4;from 1 / 20=unknown | 2 1 4 unknown line 22
PAIR 1=plift 2 / 16=precision 10;from 3 / 20=at 9;accept 512 0 | 2 3 10 at 9 accept 512 0 line 23
";

// Each row: the report and the changes of its lines, and the line and the cause.
const REFUSED: &str = "\
COIN 1=plift 3 / 16=precision 4;from 1 | 1 Version
COIN 1=plift 2 | 17 Syntax
COIN 1=plift 2 / 16=precision 4;from 0 | 17 Limit
COIN 1=plift 2 / 16=precision 4;from 5 | 17 Limit
COIN 1=plift 2 / 16=precision 4;from -1 | 17 Limit
COIN 1=plift 2 / 16=precision 4;from 100000000000000000000000000000000000000000 | 17 Limit
COIN 1=plift 2 / 16=precision 4;from | 17 Syntax
COIN 1=plift 2 / 16=precision 4;from 04 | 17 Syntax
COIN 1=plift 2 / 16=precision 4;from 4 4 | 17 Syntax
COIN 1=plift 2 / 16=precision 4;from x | 17 Syntax
COIN 1=plift 2 / 16=precision 4;from 4;from 4 | 18 Syntax
COIN 1=plift 2 / 16=from 4;precision 4 | 16 Syntax
COIN 1=plift 2 / 17=depth 0;from 4 | 17 Syntax
COIN 1=plift 2 / 16=precision 0;from 1 | 16 Limit
COIN 16=precision 4;from 4 | 17 Syntax
COIN 20=at 4;accept 7 16 0 | 20 Syntax
COIN 20=at 5 | 20 Syntax
COIN 1=plift 2 / 16=precision 4;from 2 / 20=accept 7 16 0 | 21 Syntax
COIN 1=plift 2 / 16=precision 4;from 2 / 20=reject e 1 k 1 m 1 b 9/16;y 9 16 0;choice 0 - -;rank 1 0 - | 21 Syntax
COIN 1=plift 2 / 16=precision 4;from 2 / 20=at 1;accept 1 2 0 | 21 Limit
COIN 1=plift 2 / 16=precision 4;from 2 / 20=at 5;accept 7 16 0 | 21 Limit
COIN 1=plift 2 / 16=precision 4;from 2 / 20=at -3;accept 7 16 0 | 21 Limit
COIN 1=plift 2 / 16=precision 4;from 2 / 20=at 1 | 21 Limit
COIN 1=plift 2 / 16=precision 4;from 2 / 20=at | 21 Syntax
COIN 1=plift 2 / 16=precision 4;from 2 / 20=at 03;accept 3 8 0 | 21 Syntax
COIN 1=plift 2 / 16=precision 4;from 2 / 20=at 3 3;accept 3 8 0 | 21 Syntax
COIN 1=plift 2 / 16=precision 4;from 2 / 20=at 3 ;accept 3 8 0 | 21 Syntax
COIN 1=plift 2 / 16=precision 4;from 2 / 20=at 3 | 22 Truncated
COIN 1=plift 2 / 16=precision 4;from 2 / 20=at 3;unknown | 22 Syntax
COIN 1=plift 2 / 16=precision 4;from 2 / 20=at 3;split 0 | 22 Syntax
COIN 1=plift 2 / 16=precision 4;from 2 / 20=at 3;at 3;accept 3 8 0 | 22 Syntax
COIN 1=plift 2 / 16=precision 4;from 2 / 20=at 3;leaf | 22 Syntax
COIN 1=plift 2 / 16=precision 4;from 2 / 20=at 3; | 22 Syntax
COIN 1=plift 2 / 16=precision 4;from 2 / 20=at 3;accept 3 9 0 | 22 Limit
COIN 1=plift 2 / 16=precision 4;from 2 / 20=at 3;accept 3 -1 0 | 22 Limit
COIN 1=plift 2 / 16=precision 4;from 2 / 20=at 3;accept 3 9 | 22 Syntax
COIN 1=plift 2 / 16=precision 4;from 2 / 20=at 3;reject e 1 k 1 m 1 b 5/16;y 5 8 0;choice 0 - -;rank 1 0 - | 22 Syntax
COIN 1=plift 2 / 16=precision 4;from 2 / 20=at 3;reject e 1 k 1 m 2 b 5/8;y 5 8 0;choice 0 - -;rank 1 0 - | 22 Syntax
COIN 1=plift 2 / 16=precision 4;from 2 / 20=at 3;reject e 1 k 1 m 1 b 5/8;y 5 9 0;choice 0 - -;rank 1 0 - | 23 Limit
COIN 1=plift 2 / 16=precision 4;from 2 / 20=at 3;reject e 127 k 1 m 127 b 5/8;y 5 8 0;choice 0 - -;rank 1 0 - | 22 Limit
COIN 1=plift 2 / 16=precision 4;from 2 / 20=at 3;reject e 1 k 1 m 1 b 5/8;y 5 8 0;choice 0 - - | 25 Truncated
COIN 1=plift 2 / 16=precision 4;from 2 / 20=split 1 | 21 Limit
COIN 1=plift 2 / 16=precision 4;from 2 / 20=unknown 1 | 21 Syntax
";

#[test]
fn both_versions_are_read(rt: HostRuntime) {
    each_row(&rt, rt.alloc(), READ, &FirstNode::WithPrecisions);
}

#[test]
fn precisions_are_refused(rt: HostRuntime) {
    each_row(&rt, rt.alloc(), REFUSED, &FirstNode::WithPrecisions);
}
