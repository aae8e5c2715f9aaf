// Chains that are verified by their quotients. The quotients and the numbers of the leaves were worked out by hand. Where no
// parameter is left in the quotient, nothing is halved.
use crate::cells::each_claim;
use crate::runs::{Answered, Checked};

// Each row: the words, the model, the status, how the output ends, and the notes.
const LUMPED: &str = "\
lumped --goal one --bound 1/3 --precision 4 --depth 0 --region 2/5<=p<=3/5 | DIE | Done | plift 1;kind dtmc;\
    parameters 1 p;common 1;states 5;init 0;goal 1 4;row 0 0 2;to 1 1:1;to 2 0:1 1:-1;row 1 0 2;to 2 0:1 1:-1;to 3 1:1;\
    row 2 0 1;to 2 0:1;row 3 0 2;to 1 1:1;to 4 0:1 1:-1;row 4 0 1;to 4 0:1;bound 1/3;precision 4;depth 0;grid 5;box 2 3;\
    accept 5 8 0 13 16; | -
lumped --region=1/10<=p<=2/5 --precision=4 --bound=1/2 --goal=heads | COIN | Done | plift 1;kind dtmc;parameters 1 p;\
    common 1;states 3;init 0;goal 1 1;row 0 0 2;to 1 1:1;to 2 0:1 1:-1;row 1 0 1;to 1 0:1;row 2 0 1;to 2 0:1;bound 1/2;\
    precision 4;depth 0;grid 10;box 1 4;accept 7 16 0; | -
lumped --goal heads --bound 0 --precision 4 --region 0<=p<=1,0<=q<=1,0<=r<=1 | SURE | Done | plift 1;kind dtmc;\
    parameters 3 p q r;common 1;states 3;init 0;goal 1 2;row 0 0 1;to 1 0:1;row 1 0 1;to 2 0:1;row 2 0 1;to 2 0:1;\
    bound 0/1;precision 4;depth 0;grid 1;box 0 1 0 1 0 1;reject e 0 k 2 m 0 b 16/16;y 16 16 16;choice 0 0 -;rank 2 1 0; | -
lumped --goal heads --bound 1/2 --precision 4 --depth 2 --region 0<=p<=1,0<=q<=1,0<=r<=1 | SURE | Done | ;grid 4;\
    box 0 4 0 4 0 4;reject e 0 k 2 m 0 b 16/16;y 16 16 16;choice 0 0 -;rank 2 1 0; | -
lumped --goal heads --bound 1/3 --precision 4 --depth 2 --region 0<=p<=1 | THIRD | Done | plift 1;kind dtmc;parameters 1 p;\
    common 3;states 4;init 0;goal 1 3;row 0 0 2;to 1 0:1;to 2 0:2;row 1 0 1;to 3 0:3;row 2 0 1;to 2 0:3;row 3 0 1;to 3 0:3;\
    bound 1/3;precision 4;depth 2;grid 4;box 0 4;unknown; | -
lumped --goal heads --bound 1/2 --precision 4 --region 1/10<=p<=2/5 | TWIN | ModelRefused | - | lump: not a chain;
lumped --goal heads --bound 1/2 --precision 4 | TWIN | ModelRefused | - | lump: not a chain;
lumped --goal tails --bound 1/2 --precision 4 | TWIN | ModelRefused | - | model: line 15: UnknownLabel;
lumped --goal heads --bound 1/2 | COIN | Usage | - | usage: --region Missing;
lumped --goal heads --bound 1/2 | LESS | RowsRefused | - | rows: state 0 choice 0: set 0 sums to 3;
lumped --goal heads --bound 1/2 --precision 0 | LESS | Usage | - | usage: --precision;
lumped --goal heads --bound 1/2 --steps 1 | LESS | Usage | - | usage: words;
lumped --goal heads | LESS | Usage | - | usage: words;
lumped | LESS | Usage | - | usage: words;
";

#[test]
fn chains_are_lumped(rt: HostRuntime) {
    each_claim(&rt, rt.alloc(), LUMPED, &Answered);
}

#[test]
fn reports_of_quotients_are_sound(rt: HostRuntime) {
    each_claim(&rt, rt.alloc(), LUMPED, &Checked);
}
