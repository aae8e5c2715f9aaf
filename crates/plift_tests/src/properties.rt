// Properties of models. The numbers of the leaves were worked out by hand.
use crate::cells::each_claim;
use crate::runs::{Answered, Job, each_front};

// Each row: the words, the model, the status, how the output ends, and the notes.
const PROPERTIES: &str = "\
property --formula P>=1/2[F\"heads\"] --region 3/5<=p<=9/10 --precision 4 | COIN | Done | plift-property 1;kind dtmc;\
    parameters 1 p;common 1;states 3;init 0;goal 1 1;row 0 0 2;to 1 1:1;to 2 0:1 1:-1;row 1 0 1;to 1 0:1;row 2 0 1;\
    to 2 0:1;property >= 1/2;precision 4;depth 0;grid 10;box 6 9;holds;lower e 1 k 1 m 1 b 9/16;y 9 16 0;rank 1 0 -; | -
property --precision=4 --region=3/5<=p<=9/10 --formula=P>=2/4[F\"heads\"] | TWIN | Done | ;property >= 1/2;\
    precision 4;depth 0;grid 10;box 6 9;fails;x 7 16 0;choice 1 - 0; | -
property --formula P<=1/2[\"heads\"U\"heads\"] --region 3/5<=p<=9/10 --precision 4 | COIN | Done | plift-property 1;\
    kind dtmc;parameters 1 p;common 1;states 3;init 0;goal 1 1;row 0 0 1;to 0 0:1;row 1 0 1;to 1 0:1;row 2 0 1;\
    to 2 0:1;property <= 1/2;precision 4;depth 0;grid 10;box 6 9;holds;x 0 16 0; | -
property --formula P<=1/2F\"heads\" --region 3/5<=p<=9/10 --precision 4 | COIN | Usage | - | usage: --formula Syntax;
property --formula P<=1/2[F\"heads\"] --region 3/5<=p<=9/10 --precision 4 | TWIN | Done | ;box 6 9;fails;\
    lower e 1 k 1 m 1 b 9/16;y 9 16 0;choice 0 - -;rank 1 0 -; | -
property --formula P>0.5[F\"heads\"] --region 3/5<=p<=9/10 --precision 4 | TWIN | Done | ;property > 1/2;precision 4;\
    depth 0;grid 10;box 6 9;fails;x 7 16 0;choice 1 - 0; | -
property --formula P<=1/2[F\"heads\"] --region 1/10<=p<=1/2 --precision 4 | COIN | Done | ;property <= 1/2;\
    precision 4;depth 0;grid 10;box 1 5;holds;x 8 16 0; | -
property --formula P<1/2[F\"heads\"] --region 1/10<=p<=1/2 --precision 4 | COIN | Done | ;property < 1/2;precision 4;\
    depth 0;grid 10;box 1 5;unknown; | -
property --formula P>=1/2[F\"heads\"] --region 1/2<=p<=9/10 --precision 4 | COIN | Done | ;property >= 1/2;\
    precision 4;depth 0;grid 10;box 5 9;holds;lower e 1 k 1 m 1 b 8/16;y 8 16 0;rank 1 0 -; | -
property --formula P>1/2[F\"heads\"] --region 1/2<=p<=9/10 --precision 4 | COIN | Done | ;property > 1/2;precision 4;\
    depth 0;grid 10;box 5 9;unknown; | -
property --formula P<1/2[F\"heads\"] --region 1/2<=p<=9/10 --precision 4 | COIN | Done | ;box 5 9;fails;\
    lower e 1 k 1 m 1 b 8/16;y 8 16 0;choice 0 - -;rank 1 0 -; | -
property --formula P<=1/2[F\"heads\"] --region 1/5<=p<=3/5 --depth 1 --precision 4 | COIN | Done | ;depth 1;grid 10;\
    box 2 6;split 0;holds;x 7 16 0;unknown; | -
property --from 1 --formula P>=1/2[F\"heads\"] --region 1/10<=p<=9/10 --depth 2 --precision 4 | COIN | Done | \
    plift-property 2;kind dtmc;parameters 1 p;common 1;states 3;init 0;goal 1 1;row 0 0 2;to 1 1:1;to 2 0:1 1:-1;\
    row 1 0 1;to 1 0:1;row 2 0 1;to 2 0:1;property >= 1/2;precision 4;from 1;depth 2;grid 40;box 4 36;split 0;split 0;\
    at 3;fails;x 3 8 0;choice 0 - 0;unknown;at 1;holds;lower e 1 k 1 m 1 b 1/2;y 1 2 0;rank 1 0 -; | -
property --formula P<=1/2[\"safe\"U\"heads\"] --region 1/2<=p<=3/4 --precision 4 | DETOUR | Done | plift-property 1;\
    kind dtmc;parameters 1 p;common 1;states 5;init 0;goal 1 3;row 0 0 2;to 1 1:1;to 2 0:1 1:-1;row 1 0 1;to 1 0:1;\
    row 2 0 2;to 3 1:1;to 4 0:1 1:-1;row 3 0 1;to 3 0:1;row 4 0 1;to 4 0:1;property <= 1/2;precision 4;depth 0;grid 4;\
    box 2 3;holds;x 6 0 12 16 0; | -
property --formula P<=1/2[F\"heads\"] --region 1/2<=p<=3/4 --precision 4 | DETOUR | Done | ;row 1 0 1;to 3 0:1;\
    row 2 0 2;to 3 1:1;to 4 0:1 1:-1;row 3 0 1;to 3 0:1;row 4 0 1;to 4 0:1;property <= 1/2;precision 4;depth 0;grid 4;\
    box 2 3;fails;lower e 1 k 2 m 2 b 12/16;y 12 16 8 16 0;choice 0 0 0 - -;rank 2 1 1 0 -; | -
property --formula P<=1/2[\"heads\"U\"heads\"] --precision 4 | LESS | Done | ;row 0 0 1;to 0 0:4;row 1 0 1;to 1 0:4;\
    row 2 0 1;to 2 0:4;property <= 1/2;precision 4;depth 0;grid 1;box;holds;x 0 16 0; | -
property --formula P<=1/2[F\"heads\"] --precision 4 | LESS | RowsRefused | - | rows: state 0 choice 0: set 0 sums to 3;
property --formula P<=1/2[\"tails\"U\"heads\"] | COIN | ModelRefused | - | model: line 11: UnknownLabel;
property --formula P<=1/2[\"heads\"U\"tails\"] | COIN | ModelRefused | - | model: line 11: UnknownLabel;
property --formula P<=1/2[\"tails\"U\"heads\"] | SQUARE | ModelRefused | - | model: line 6: SharedParameter;
property --formula P<=1/2[F\"heads\"] | COIN | Usage | - | usage: --region Missing;
property --formula P<=3/2[F\"heads\"] --depth 21 | COIN | Usage | - | usage: --formula Bound;
property --formula P<=1/0[F\"heads\"] | COIN | Usage | - | usage: --formula Bound;
property --formula P<=1/4294967296[F\"heads\"] | COIN | Usage | - | usage: --formula Bound;
property --formula P=1/2[F\"heads\"] --depth 21 | COIN | Usage | - | usage: --formula Syntax;
property --formula P<=1/2[F\"heads\"] --precision 41 --depth 21 | COIN | Usage | - | usage: --depth;
property --formula P<=1/2[F\"heads\"] --precision 41 | COIN | Usage | - | usage: --precision;
property --formula P<=1/2[F\"heads\"] --goal heads | COIN | Usage | - | usage: words;
property --formula P<=1/2[F\"heads\"] --bound 1/2 | COIN | Usage | - | usage: words;
property --formula P<=1/2[F\"heads\"] --steps 1 | COIN | Usage | - | usage: words;
property --formula P<=1/2[F\"heads\"] --from 25 | COIN | Usage | - | usage: --from;
property --from 0 --formula P<=1/2[F\"heads\"] --precision 41 | COIN | Usage | - | usage: --precision;
property --formula P<=1/2[F\"heads\"] --formula P<=1/2[F\"heads\"] | COIN | Usage | - | usage: words;
property --goal heads --bound 1/2 | COIN | Usage | - | usage: words;
property --formula | COIN | Usage | - | usage: words;
property | COIN | Usage | - | usage: words;
verify --goal heads --bound 1/2 --formula P<=1/2[F\"heads\"] | COIN | Usage | - | usage: words;
bounded --goal heads --bound 1/2 --steps 1 --formula P<=1/2[F\"heads\"] | COIN | Usage | - | usage: words;
lumped --goal heads --bound 1/2 --formula P<=1/2[F\"heads\"] | COIN | Usage | - | usage: words;
";

// A job whose tree has two leaves, and its text.
const REGION: &str =
    "property --formula P<=1/2[F\"heads\"] --precision 4 --depth 1 --region 1/5<=p<=3/5";

const REPORT: &str =
    "plift-property 1;kind dtmc;parameters 1 p;common 1;states 3;init 0;goal 1 1;row 0 0 2;to 1 1:1;to 2 0:1 1:-1;\
    row 1 0 1;to 1 0:1;row 2 0 1;to 2 0:1;property <= 1/2;precision 4;depth 1;grid 10;box 2 6;split 0;holds;\
    x 7 16 0;unknown;";

const JOB: Job<'static> = Job {
    words: REGION,
    model: "COIN",
    text: REPORT,
};

#[test]
fn properties_are_decided(rt: HostRuntime) {
    each_claim(&rt, rt.alloc(), PROPERTIES, &Answered);
}

#[test]
fn texts_for_properties_are_cut_off_anywhere(rt: HostRuntime) {
    each_front(&rt, rt.alloc(), JOB);
}
