// Trees: regions that are halved, and reports that are cut off.
use crate::cells::each_claim;
use crate::runs::{Answered, CUT_OFF, DONE, Job, Sinks, each_front, sink};
use std::alloc::Global;
use test_cells::Unreported;

// Each row: the words, the model, the status, how the output ends, and no notes. A parameter that no
// row depends on is never split.
const TREES: &str = "\
verify --goal heads --bound 1/2 --precision 4 --depth 1 --region 2/5<=p<=3/5 | COIN | Done | plift 1;kind dtmc;\
    parameters 1 p;common 1;states 3;init 0;goal 1 1;row 0 0 2;to 1 1:1;to 2 0:1 1:-1;row 1 0 1;to 1 0:1;row 2 0 1;\
    to 2 0:1;bound 1/2;precision 4;depth 1;grid 10;box 4 6;split 0;accept 8 16 0;unknown; | -
verify --goal heads --bound 1/2 --precision 4 --depth 2 --region 1/10<=p<=9/10 | COIN | Done | plift 1;kind dtmc;\
    parameters 1 p;common 1;states 3;init 0;goal 1 1;row 0 0 2;to 1 1:1;to 2 0:1 1:-1;row 1 0 1;to 1 0:1;row 2 0 1;\
    to 2 0:1;bound 1/2;precision 4;depth 2;grid 40;box 4 36;split 0;accept 8 16 0;split 0;unknown;\
    reject e 1 k 1 m 1 b 11/16;y 11 16 0;choice 0 - -;rank 1 0 -; | -
verify --goal heads --bound 5/8 --precision 4 --depth 3 --region 1/10<=p<=9/10 | TWIN | Done | ;bound 5/8;precision 4;\
    depth 3;grid 80;box 8 72;split 0;split 0;reject e 1 k 1 m 1 b 11/16;y 11 16 0;choice 1 - -;rank 1 0 -;split 0;\
    unknown;accept 10 16 0;split 0;split 0;accept 10 16 0;unknown;reject e 1 k 1 m 1 b 11/16;y 11 16 0;choice 0 - -;\
    rank 1 0 -; | -
verify --goal heads --bound 1/2 --precision 4 --depth 2 --region 1/10<=p<=9/10 | EXPORT | Done | ;bound 1/2;\
    precision 4;depth 2;grid 40;box 4 36;split 0;accept 8 16 0;split 0;unknown;reject e 1 k 1 m 1 b 11/16;y 11 16 0;\
    choice 1 - -;rank 1 0 -; | -
verify --goal done --bound 1/2 --depth 2 --region 1/2<=p<=3/5,1/2<=q<=3/5 | LADDER2 | Done | plift 1;kind dtmc;\
    parameters 2 p q;common 1;states 6;init 0;goal 1 4;row 0 0 2;to 2 1:1;to 1 0:1 1:-1;row 1 0 2;to 0 2:1;\
    to 5 0:1 2:-1;row 2 0 2;to 4 1:1;to 3 0:1 1:-1;row 3 0 2;to 2 2:1;to 5 0:1 2:-1;row 4 0 1;to 4 0:1;row 5 0 1;\
    to 5 0:1;bound 1/2;precision 24;depth 2;grid 40;box 20 24 20 24;split 0;split 1;unknown;unknown;\
    reject e 1 k 3 m 3 b 8449710/16777216;y 8449710 4224855 11906411 5953205 16777216 0;choice 0 0 0 0 - -;\
    rank 2 3 1 2 0 -; | -
verify --goal done --bound 1/2 --precision 4 --depth 3 --region 1/10<=p<=2/5,1/10<=q<=2/5 | LADDER | Done | ;\
    bound 1/2;precision 4;depth 3;grid 80;box 8 32 8 32;split 0;accept 7 3 16 0;split 1;accept 8 2 16 0;split 0;\
    accept 8 4 16 0;unknown; | -
verify --goal heads --bound 1/2 --precision 4 --depth 1 --region 2/5<=p<=3/5,0<=q<=1 | UNUSED | Done | ;bound 1/2;\
    precision 4;depth 1;grid 10;box 4 6 0 10;split 0;accept 8 16 0;unknown; | -
";

// A job whose tree has every kind of node, and its report.
const REGION: &str =
    "verify --goal heads --bound 1/2 --precision 4 --depth 2 --region 1/10<=p<=9/10";

const REPORT: &str =
    "plift 1;kind dtmc;parameters 1 p;common 1;states 3;init 0;goal 1 1;row 0 0 2;to 1 1:1;to 2 0:1 1:-1;row 1 0 1;\
    to 1 0:1;row 2 0 1;to 2 0:1;bound 1/2;precision 4;depth 2;grid 40;box 4 36;split 0;accept 8 16 0;split 0;unknown;\
    reject e 1 k 1 m 1 b 11/16;y 11 16 0;choice 0 - -;rank 1 0 -;";

const JOB: Job<'static> = Job {
    words: REGION,
    model: "COIN",
    text: REPORT,
};

#[test]
fn regions_are_halved(rt: HostRuntime) {
    each_claim(&rt, rt.alloc(), TREES, &Answered);
}

#[test]
fn reports_are_cut_off_anywhere(rt: HostRuntime) {
    each_front(&rt, rt.alloc(), JOB);
}

// Whether the report lacks its last two bytes, where the last call of the sink but one fails.
fn lacks_what_failed(alloc: Global) -> Result<bool, Unreported> {
    let len = REPORT.len();
    let mut sinks = Sinks {
        out: sink(alloc, 1000, 1, len as u64 - 1)?,
        notes: sink(alloc, 100, 3, 0)?,
    };
    JOB.ends(alloc, CUT_OFF, &mut sinks, len - 2)
}

// Whether the same job is done whole.
fn is_whole(alloc: Global) -> Result<bool, Unreported> {
    let mut sinks = Sinks::make(alloc, 1000, 1)?;
    JOB.ends(alloc, DONE, &mut sinks, REPORT.len())
}

#[test]
fn reports_lack_what_failed(rt: HostRuntime) {
    assert!(rt; matches!(lacks_what_failed(rt.alloc()), Ok(true)));
    assert!(rt; matches!(is_whole(rt.alloc()), Ok(true)));
}
