// What is paid before the goal. The numbers of the leaves were worked out by hand.
use crate::cells::each_claim;
use crate::runs::{Answered, Job, each_front};

// Each row: the words, the model, the status, how the output ends, and the notes.
const COSTS: &str = "\
cost --goal heads --reward steps --budget 2 --cap 4 --region 1/5<=p<=2/5 --precision 4 | PAID_LOOP | Done | \
    plift-cost 1;kind dtmc;parameters 1 p;common 2;states 3;init 0;goal 1 1;row 0 0 3;to 0 0:1;to 1 1:1;to 2 0:1 1:-1;\
    row 1 0 1;to 1 0:2;row 2 0 1;to 2 0:2;cost 1/1 0/1 0/1;cap 4;budget 2/1;precision 4;depth 0;grid 5;box 1 2;\
    accept 8 0 0; | -
cost --goal heads --reward steps --budget 1 --cap 4 --region 1/5<=p<=2/5 --precision 4 | PAID_LOOP | Done | \
    ;cost 1/1 0/1 0/1;cap 4;budget 1/1;precision 4;depth 0;grid 5;box 1 2;unknown; | -
cost --precision=4 --region=1/5<=p<=2/5 --cap=4 --budget=4/2 --reward=steps --goal=heads | EXPORT | Done | \
    plift-cost 1;kind mdp;parameters 1 p;common 1;states 3;init 0;goal 1 1;row 0 0 1;to 0 0:1;row 0 1 2;to 1 1:1;\
    to 2 0:1 1:-1;row 1 0 1;to 1 0:1;row 2 0 1;to 2 0:1;cost 1/1 0/1 0/1;cap 4;budget 2/1;precision 4;depth 0;grid 5;\
    box 1 2;unknown; | -
cost --goal heads --reward time --budget 2 --cap 4 --region 1/5<=p<=2/5 --precision 4 | PAID_LOOP | \
    ModelRefused | - | model: line 14: UnknownReward;
cost --goal heads --reward steps --budget 2 --cap 4 --region 1/5<=p<=2/5 --precision 4 | TWICE_PAID_LOOP | \
    ModelRefused | - | model: line 7: RewardSyntax;
cost --goal tails --reward time --budget 2 --cap 4 | PAID_LOOP | ModelRefused | - | model: line 14: UnknownLabel;
cost --goal heads --reward steps --budget 2 --cap 4 | COIN | ModelRefused | - | model: line 11: UnknownReward;
cost --goal heads --reward steps --budget 2 --cap 4 | PAID_ACTION | ModelRefused | - | model: line 6: ActionReward;
cost --goal heads --reward steps --budget 2 --cap 4 --region p<=1 | PAID_LOOP | Usage | - | usage: --region Syntax;
cost --goal heads --reward steps --budget 2 --cap 4 | PAID_LOOP | Usage | - | usage: --region Missing;
cost --goal heads --reward steps --budget 2 --cap 4 --region 1/2<=p<=3/2 | PAID_LOOP | RowsRefused | - | \
    rows: state 0 choice 0: target 2 at corner 1 has weight -1;
cost --goal heads --reward end --budget 1/3 --cap 1 --region 1/5<=p<=2/5 --precision 4 | REWARDS | Done | \
    ;cost 0/1 5/2 1/3;cap 1;budget 1/3;precision 4;depth 0;grid 5;box 1 2;accept 5 0 6; | -
cost --goal heads --reward end --budget 2/8 --cap 1 --region 1/5<=p<=3/5 --depth 1 --precision 4 | REWARDS | Done | \
    ;cost 0/1 5/2 1/3;cap 1;budget 1/4;precision 4;depth 1;grid 10;box 2 6;split 0;unknown;accept 4 0 6; | -
cost --goal heads --reward gain --budget 0 --cap 4294967295 --region 1/5<=p<=2/5 --precision 4 | REWARDS | Done | \
    ;cost 0/1 1/1 0/1;cap 4294967295;budget 0/1;precision 4;depth 0;grid 5;box 1 2;accept 0 0 0; | -
";

// A job whose tree has two leaves, and its text.
const REGION: &str =
    "cost --goal heads --reward end --budget 2/8 --cap 1 --region 1/5<=p<=3/5 --depth 1 --precision 4";

const TEXT: &str =
    "plift-cost 1;kind dtmc;parameters 1 p;common 1;states 3;init 0;goal 1 1;row 0 0 2;to 1 1:1;to 2 0:1 1:-1;\
    row 1 0 1;to 1 0:1;row 2 0 1;to 1 0:1;cost 0/1 5/2 1/3;cap 1;budget 1/4;precision 4;depth 1;grid 10;box 2 6;\
    split 0;unknown;accept 4 0 6;";

const JOB: Job<'static> = Job {
    words: REGION,
    model: "REWARDS",
    text: TEXT,
};

#[test]
fn costs_are_decided(rt: HostRuntime) {
    each_claim(&rt, rt.alloc(), COSTS, &Answered);
}

#[test]
fn texts_for_costs_are_cut_off_anywhere(rt: HostRuntime) {
    each_front(&rt, rt.alloc(), JOB);
}
