// Models that are decided for a number of steps. The numbers of the leaves were worked out by hand.
use crate::cells::each_claim;
use crate::runs::{Answered, Job, each_front};

// Each row: the words, the model, the status, how the output ends, and the notes.
const WITHIN: &str = "\
bounded --goal heads --bound 1/4 --steps 1 --precision 4 --region 1/5<=p<=2/5 | LOOP | Done | plift-bounded 1;kind dtmc;\
    parameters 1 p;common 2;states 3;init 0;goal 1 1;row 0 0 3;to 0 0:1;to 1 1:1;to 2 0:1 1:-1;row 1 0 1;to 1 0:2;\
    row 2 0 1;to 2 0:2;bound 1/4;steps 1;precision 4;depth 0;grid 5;box 1 2;accept;x 1 4 16 0; | -
bounded --steps=2 --region=1/5<=p<=2/5 --precision=4 --bound=1/4 --goal=heads | LOOP | Done | ;bound 1/4;steps 2;\
    precision 4;depth 0;grid 5;box 1 2;unknown; | -
bounded --goal heads --bound 1/10 --steps 2 --precision 4 --region 1/5<=p<=2/5 | LOOP | Done | ;bound 1/10;steps 2;\
    precision 4;depth 0;grid 5;box 1 2;reject b 2/16;y 1 1 16 0;choice 1 0 - 0;y 2 2 16 0;choice 2 0 - 0; | -
bounded --goal heads --bound 3/8 --steps 2 --precision 4 --region 1/5<=p<=2/5 | LOOP | Done | ;box 1 2;accept;\
    x 1 4 16 0;x 2 6 16 0; | -
bounded --goal heads --bound 1/2 --steps 1 --precision 4 --region 1/4<=p<=1/2 | SHORT_CUT | Done | ;steps 1;\
    precision 4;depth 0;grid 4;box 1 2;accept;x 1 8 16 0 16; | -
bounded --goal heads --bound 1/5 --steps 1 --precision 4 --region 1/4<=p<=1/2 | SHORT_CUT | Done | ;steps 1;\
    precision 4;depth 0;grid 4;box 1 2;reject b 4/16;y 1 4 16 0 16;choice 1 0 0 0 -; | -
bounded --goal heads --bound 1/2 --steps 2 --precision 4 --region 1/4<=p<=1/2 | SHORT_CUT | Done | ;steps 2;\
    precision 4;depth 0;grid 4;box 1 2;reject b 16/16;y 1 4 16 0 16;choice 1 0 0 0 -;y 2 16 16 0 16;choice 2 1 0 0 -; | -
bounded --goal heads --bound 1/2 --steps 1 --precision 4 --depth 1 --region 1/5<=p<=3/5 | COIN | Done | ;steps 1;\
    precision 4;depth 1;grid 10;box 2 6;split 0;accept;x 1 7 16 0;unknown; | -
bounded --goal heads --bound 0 --steps 3 --precision 4 | APART | Done | ;bound 0/1;steps 3;precision 4;depth 0;grid 1;box;\
    accept;x 1 0 16;x 2 0 16;x 3 0 16; | -
bounded --goal init --bound 1/2 --steps 1 --precision 4 --region 1/10<=p<=2/5 | COIN | Done | ;box 1 4;\
    reject b 16/16;y 1 16 0 0;choice 1 - 0 0; | -
bounded --goal tails --bound 1/2 --steps 1 | COIN | ModelRefused | - | model: line 11: UnknownLabel;
bounded --goal heads --bound 1/2 --steps 1 | COIN | Usage | - | usage: --region Missing;
bounded --goal heads --bound 1/2 --steps 1 | LESS | RowsRefused | - | rows: state 0 choice 0: set 0 sums to 3;
bounded --goal heads --bound 1/2 --steps 0 | LESS | Usage | - | usage: --steps;
bounded --goal heads --bound 1/2 --steps 65 | LESS | Usage | - | usage: --steps;
bounded --goal heads --bound 1/2 --steps 001 | LESS | Usage | - | usage: --steps;
bounded --goal heads --bound 1/2 --steps 1/2 | LESS | Usage | - | usage: --steps;
bounded --goal heads --bound 1/2 --steps 0 --precision 0 | LESS | Usage | - | usage: --precision;
bounded --goal heads --bound 1/2 | LESS | Usage | - | usage: words;
bounded --goal heads --bound 1/2 --steps | LESS | Usage | - | usage: words;
bounded --goal heads --bound 1/2 --steps 1 --steps 1 | LESS | Usage | - | usage: words;
bounded --goal heads --steps 1 | LESS | Usage | - | usage: words;
bounded --steps 1 --bound 1/2 | LESS | Usage | - | usage: words;
verify --goal heads --bound 1/2 --steps 1 | LESS | Usage | - | usage: words;
bounded | LESS | Usage | - | usage: words;
";

// A job whose tree has two leaves, and its text.
const REGION: &str =
    "bounded --goal heads --bound 1/2 --steps 1 --precision 4 --depth 1 --region 1/5<=p<=3/5";

const REPORT: &str =
    "plift-bounded 1;kind dtmc;parameters 1 p;common 1;states 3;init 0;goal 1 1;row 0 0 2;to 1 1:1;to 2 0:1 1:-1;\
    row 1 0 1;to 1 0:1;row 2 0 1;to 2 0:1;bound 1/2;steps 1;precision 4;depth 1;grid 10;box 2 6;split 0;accept;\
    x 1 7 16 0;unknown;";

const JOB: Job<'static> = Job {
    words: REGION,
    model: "COIN",
    text: REPORT,
};

#[test]
fn steps_are_bounded(rt: HostRuntime) {
    each_claim(&rt, rt.alloc(), WITHIN, &Answered);
}

#[test]
fn texts_for_steps_are_cut_off_anywhere(rt: HostRuntime) {
    each_front(&rt, rt.alloc(), JOB);
}
