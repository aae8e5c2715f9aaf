// Ranges of precisions: each leaf at the least one that decides. The numbers of the leaves were worked out by hand.
use crate::cells::each_claim;
use crate::runs::{Answered, Checked, Job, each_front};

// Each row: the words, the model, the status, how the output ends, and the notes.
const RANGES: &str = "\
verify --goal heads --bound 1/2 --precision 4 --from 1 --region 1/10<=p<=2/5 | COIN | Done | plift 2;kind dtmc;\
    parameters 1 p;common 1;states 3;init 0;goal 1 1;row 0 0 2;to 1 1:1;to 2 0:1 1:-1;row 1 0 1;to 1 0:1;row 2 0 1;\
    to 2 0:1;bound 1/2;precision 4;from 1;depth 0;grid 10;box 1 4;at 1;accept 1 2 0; | -
verify --from=2 --goal=heads --bound=1/2 --precision=4 --region=1/10<=p<=2/5 | COIN | Done | ;precision 4;from 2;\
    depth 0;grid 10;box 1 4;at 2;accept 2 4 0; | -
verify --goal heads --bound 1/2 --precision 4 --from 3 --region 1/10<=p<=2/5 | COIN | Done | ;from 3;depth 0;grid 10;\
    box 1 4;at 3;accept 4 8 0; | -
verify --goal heads --bound 1/2 --precision 4 --from 4 --region 1/10<=p<=2/5 | COIN | Done | ;from 4;depth 0;grid 10;\
    box 1 4;at 4;accept 7 16 0; | -
verify --goal heads --bound 1/2 --precision 4 --from 1 --region 3/5<=p<=9/10 | COIN | Done | plift 2;kind dtmc;\
    parameters 1 p;common 1;states 3;init 0;goal 1 1;row 0 0 2;to 1 1:1;to 2 0:1 1:-1;row 1 0 1;to 1 0:1;row 2 0 1;\
    to 2 0:1;bound 1/2;precision 4;from 1;depth 0;grid 10;box 6 9;at 4;reject e 1 k 1 m 1 b 9/16;y 9 16 0;choice 0 - -;\
    rank 1 0 -; | -
verify --goal heads --bound 1/2 --precision 4 --from 1 --depth 1 --region 2/5<=p<=3/5 | COIN | Done | ;precision 4;\
    from 1;depth 1;grid 10;box 4 6;split 0;at 1;accept 1 2 0;unknown; | -
verify --goal heads --bound 1/2 --precision 4 --from 0 --region 1/10<=p<=2/5 | COIN | Usage | - | usage: --from;
verify --goal heads --bound 1/2 --precision 4 --from 5 --region 1/10<=p<=2/5 | COIN | Usage | - | usage: --from;
verify --goal heads --bound 1/2 --precision 4 --from x --region 1/10<=p<=2/5 | COIN | Usage | - | usage: --from;
verify --goal heads --bound 1/2 --precision 4 --from 0001 --region 1/10<=p<=2/5 | COIN | Usage | - | usage: --from;
verify --goal tails --bound 1/2 --precision 4 --from 1 | COIN | ModelRefused | - | model: line 11: UnknownLabel;
verify --goal heads --bound 1/2 --precision 4 --from 1 | COIN | Usage | - | usage: --region Missing;
verify --goal heads --bound 1/2 --from 1 | LESS | RowsRefused | - | rows: state 0 choice 0: set 0 sums to 3;
bounded --goal heads --bound 1/2 --steps 1 --from 1 --region 1/10<=p<=2/5 | COIN | Usage | - | usage: words;
lumped --goal heads --bound 1/2 --from 1 --region 1/10<=p<=2/5 | COIN | Usage | - | usage: words;
";

// A job whose tree has every kind of node, and its report.
const REGION: &str =
    "verify --goal heads --bound 1/2 --precision 4 --from 1 --depth 2 --region 1/10<=p<=9/10";

const REPORT: &str =
    "plift 2;kind dtmc;parameters 1 p;common 1;states 3;init 0;goal 1 1;row 0 0 2;to 1 1:1;to 2 0:1 1:-1;row 1 0 1;\
    to 1 0:1;row 2 0 1;to 2 0:1;bound 1/2;precision 4;from 1;depth 2;grid 40;box 4 36;split 0;at 1;accept 1 2 0;\
    split 0;unknown;at 3;reject e 1 k 1 m 1 b 5/8;y 5 8 0;choice 0 - -;rank 1 0 -;";

const JOB: Job<'static> = Job {
    words: REGION,
    model: "COIN",
    text: REPORT,
};

#[test]
fn leaves_are_decided_within_ranges(rt: HostRuntime) {
    each_claim(&rt, rt.alloc(), RANGES, &Answered);
}

#[test]
fn reports_with_ranges_are_sound(rt: HostRuntime) {
    each_claim(&rt, rt.alloc(), RANGES, &Checked);
}

#[test]
fn reports_with_ranges_are_cut_off_anywhere(rt: HostRuntime) {
    each_front(&rt, rt.alloc(), JOB);
}
