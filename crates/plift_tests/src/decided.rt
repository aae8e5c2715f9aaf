// Models that are decided, without parameters and over a region.
use crate::cells::each_claim;
use crate::runs::{Answered, Checked};

// Each row: the words, the model, the status, how the output ends, and no notes.
const DECIDED: &str = "\
verify --goal heads --bound 1/2 --precision 4 | PLAIN | Done | plift 1;kind dtmc;parameters 0;common 4;states 3;\
    init 0;goal 1 1;row 0 0 2;to 1 0:1;to 2 0:3;row 1 0 1;to 1 0:4;row 2 0 1;to 2 0:4;bound 1/2;precision 4;depth 0;\
    grid 1;box;accept 4 16 0; | -
verify --precision 4 --bound 2/4 --depth 0 --goal heads | PLAIN | Done | plift 1;kind dtmc;parameters 0;common 4;\
    states 3;init 0;goal 1 1;row 0 0 2;to 1 0:1;to 2 0:3;row 1 0 1;to 1 0:4;row 2 0 1;to 2 0:4;bound 1/2;precision 4;\
    depth 0;grid 1;box;accept 4 16 0; | -
verify --goal=heads --bound=0.5 --precision=4 | PLAIN | Done | plift 1;kind dtmc;parameters 0;common 4;states 3;\
    init 0;goal 1 1;row 0 0 2;to 1 0:1;to 2 0:3;row 1 0 1;to 1 0:4;row 2 0 1;to 2 0:4;bound 1/2;precision 4;depth 0;\
    grid 1;box;accept 4 16 0; | -
verify --goal heads --bound 1 | ZERO | Done | plift 1;kind dtmc;parameters 0;common 1;states 2;init 1;goal 1 0;\
    row 0 0 2;to 0 0:1;to 1;row 1 0 1;to 0 0:1;bound 1/1;precision 24;depth 0;grid 1;box;accept 16777216 16777216; | -
verify --goal heads --bound 0 --precision 4 | APART | Done | ;bound 0/1;precision 4;depth 0;grid 1;box;accept 0 16; | -
verify --goal heads --bound 1/8 --precision 4 | PLAIN | Done | ;box;reject e 2 k 1 m 2 b 4/16;y 4 16 0;choice 0 - -;rank 1 0 -; | -
verify --goal heads --bound 1/4 --precision 4 | PLAIN | Done | ;box;accept 4 16 0; | -
verify --goal heads --bound 1/10 --precision 4 | TENTH | Done | ;box;unknown; | -
verify --goal heads --bound 1/8 --precision 4 | TENTH | Done | ;box;accept 2 16 0; | -
verify --goal heads --bound 1/2 --precision 4 --depth 5 | PLAIN | Done | ;depth 5;grid 32;box;accept 4 16 0; | -
";

// The same over a region. The numbers of the leaves were worked out by hand.
const OVER_REGIONS: &str = "\
verify --goal heads --bound 1/2 --precision 4 --depth 0 --region 1/10<=p<=2/5 | COIN | Done | plift 1;kind dtmc;\
    parameters 1 p;common 1;states 3;init 0;goal 1 1;row 0 0 2;to 1 1:1;to 2 0:1 1:-1;row 1 0 1;to 1 0:1;row 2 0 1;\
    to 2 0:1;bound 1/2;precision 4;depth 0;grid 10;box 1 4;accept 7 16 0; | -
verify --goal heads --bound 1/2 --precision 4 --depth 0 --region 1/10<=p<=2/5 | NOTED_COIN | Done | plift 1;kind dtmc;\
    parameters 1 p;common 1;states 3;init 0;goal 1 1;row 0 0 2;to 1 1:1;to 2 0:1 1:-1;row 1 0 1;to 1 0:1;row 2 0 1;\
    to 2 0:1;bound 1/2;precision 4;depth 0;grid 10;box 1 4;accept 7 16 0; | -
verify --goal heads --bound 1/2 --precision 4 --region 1/10<=p<=2/5 | COIN | Done | plift 1;kind dtmc;parameters 1 p;\
    common 1;states 3;init 0;goal 1 1;row 0 0 2;to 1 1:1;to 2 0:1 1:-1;row 1 0 1;to 1 0:1;row 2 0 1;to 2 0:1;\
    bound 1/2;precision 4;depth 0;grid 10;box 1 4;accept 7 16 0; | -
verify --goal heads --bound 1/2 --precision 4 --depth 0 --region 2/5<=p<=3/5 | COIN | Done | ;bound 1/2;precision 4;\
    depth 0;grid 5;box 2 3;unknown; | -
verify --goal heads --bound 1/2 --precision 4 --depth 0 --region 0<=p<=1/2 | COIN | Done | ;grid 2;box 0 1;accept 8 16 0; | -
verify --goal heads --bound 1/4 --precision 4 --depth 0 --region 0<=p<=1/2 | COIN | Done | ;grid 2;box 0 1;unknown; | -
verify --goal heads --bound 1/2 --precision 4 --depth 0 --region 3/5<=p<=9/10 | COIN | Done | plift 1;kind dtmc;\
    parameters 1 p;common 1;states 3;init 0;goal 1 1;row 0 0 2;to 1 1:1;to 2 0:1 1:-1;row 1 0 1;to 1 0:1;row 2 0 1;\
    to 2 0:1;bound 1/2;precision 4;depth 0;grid 10;box 6 9;reject e 1 k 1 m 1 b 9/16;y 9 16 0;choice 0 - -;\
    rank 1 0 -; | -
verify --goal init --bound 1/2 --precision 4 --depth 0 --region 1/10<=p<=2/5 | COIN | Done | ;goal 1 0;row 0 0 2;\
    to 1 1:1;to 2 0:1 1:-1;row 1 0 1;to 1 0:1;row 2 0 1;to 2 0:1;bound 1/2;precision 4;depth 0;grid 10;box 1 4;\
    reject e 0 k 1 m 0 b 16/16;y 16 0 0;choice - - -;rank 0 - -; | -
verify --goal heads --bound 1/8 --precision 4 --depth 0 --region 1/5<=p<=2/5 | LOOP | Done | ;bound 1/8;precision 4;\
    depth 0;grid 5;box 1 2;reject e 4 k 1 m 4 b 3/16;y 3 16 0;choice 0 - -;rank 1 0 -; | -
verify --goal heads --bound 3/16 --precision 4 --depth 0 --region 1/5<=p<=2/5 | LOOP | Done | ;bound 3/16;precision 4;\
    depth 0;grid 5;box 1 2;unknown; | -
verify --goal heads --bound 1/2 --precision 4 --depth 0 --region 3/5<=p<=9/10 | EXPORT | Done | ;bound 1/2;\
    precision 4;depth 0;grid 10;box 6 9;reject e 1 k 1 m 1 b 9/16;y 9 16 0;choice 1 - -;rank 1 0 -; | -
verify --goal done --bound 1/2 --precision 4 --depth 0 --region 1/2<=p<=3/5,1/2<=q<=3/5 | LADDER | Done | ;bound 1/2;\
    precision 4;depth 0;grid 10;box 5 6 5 6;reject e 1 k 2 m 2 b 10/16;y 10 5 16 0;choice 0 0 - -;rank 1 2 0 -; | -
verify --goal heads --bound 1 --precision 4 --depth 0 --region 1/10<=p<=2/5 | COIN | Done | ;bound 1/1;precision 4;\
    depth 0;grid 10;box 1 4;accept 7 16 0; | -
verify --goal heads --bound 1/2 --precision 4 --depth 0 --region 1/5<=p<=2/5 | LOOP | Done | plift 1;kind dtmc;\
    parameters 1 p;common 2;states 3;init 0;goal 1 1;row 0 0 3;to 0 0:1;to 1 1:1;to 2 0:1 1:-1;row 1 0 1;to 1 0:2;\
    row 2 0 1;to 2 0:2;bound 1/2;precision 4;depth 0;grid 5;box 1 2;accept 7 16 0; | -
verify --goal one --bound 1/3 --precision 4 --depth 0 --region 2/5<=p<=3/5 | DIE | Done | ;bound 1/3;precision 4;\
    depth 0;grid 5;box 2 3;accept 5 8 0 13 0 0 0 16 0 0 0 0 0; | -
verify --goal heads --bound 1/2 --precision 4 --depth 0 --region 2/5<=p<=3/5 | TWIN | Done | ;bound 1/2;precision 4;\
    depth 0;grid 5;box 2 3;unknown; | -
verify --goal heads --bound 1/2 --precision 4 --region 2/5<=p<=3/5 | TWIN | Done | ;bound 1/2;precision 4;depth 0;\
    grid 5;box 2 3;unknown; | -
verify --goal heads --bound 5/8 --precision 4 --depth 0 --region 2/5<=p<=3/5 | TWIN | Done | plift 1;kind mdp;\
    parameters 1 p;common 1;states 3;init 0;goal 1 1;row 0 0 2;to 1 1:1;to 2 0:1 1:-1;row 0 1 2;to 1 0:1 1:-1;\
    to 2 1:1;row 1 0 1;to 1 0:1;row 2 0 1;to 2 0:1;bound 5/8;precision 4;depth 0;grid 5;box 2 3;accept 10 16 0; | -
verify --goal heads --bound 1 --precision 4 --depth 0 --region 3/5<=p<=9/10 | EXPORT | Done | plift 1;kind mdp;\
    parameters 1 p;common 1;states 3;init 0;goal 1 1;row 0 0 1;to 0 0:1;row 0 1 2;to 1 1:1;to 2 0:1 1:-1;row 1 0 1;\
    to 1 0:1;row 2 0 1;to 2 0:1;bound 1/1;precision 4;depth 0;grid 10;box 6 9;accept 15 16 0; | -
verify --goal done --bound 3/5 --precision 4 --depth 0 --region 1/10<=p<=2/5,1/10<=q<=2/5 | LADDER | Done | plift 1;\
    kind dtmc;parameters 2 p q;common 1;states 4;init 0;goal 1 2;row 0 0 2;to 2 1:1;to 1 0:1 1:-1;row 1 0 2;to 0 2:1;\
    to 3 0:1 2:-1;row 2 0 1;to 2 0:1;row 3 0 1;to 3 0:1;bound 3/5;precision 4;depth 0;grid 10;box 1 4 1 4;\
    accept 9 4 16 0; | -
verify --goal heads --bound 1/2 --depth 2 --region \
    1/1000<=p<=3/1000,1/1000<=q<=3/1000,1/1000<=r<=3/1000,1/1000<=s<=3/1000 | FOUR | Done | ;bound 1/2;precision 24;\
    depth 2;grid 4000;box 4 12 4 12 4 12 4 12;accept 1 16777216 0; | -
verify --goal heads --bound 0 --precision 4 --depth 0 | APART | Done | plift 1;kind dtmc;parameters 0;common 1;\
    states 2;init 0;goal 1 1;row 0 0 1;to 0 0:1;row 1 0 1;to 1 0:1;bound 0/1;precision 4;depth 0;grid 1;box;\
    accept 0 16; | -
";

#[test]
fn models_are_decided(rt: HostRuntime) {
    each_claim(&rt, rt.alloc(), DECIDED, &Answered);
}

#[test]
fn models_are_decided_over_regions(rt: HostRuntime) {
    each_claim(&rt, rt.alloc(), OVER_REGIONS, &Answered);
}

#[test]
fn what_is_written_is_sound(rt: HostRuntime) {
    each_claim(&rt, rt.alloc(), DECIDED, &Checked);
    each_claim(&rt, rt.alloc(), OVER_REGIONS, &Checked);
}
