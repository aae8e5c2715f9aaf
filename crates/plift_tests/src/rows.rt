// Rows that are refused over a region.
use crate::cells::each_claim;
use crate::runs::Answered;

// Each row: the words, the model, the status, no output, and the note.
const REFUSED_ROWS: &str = "\
verify --goal heads --bound 1/2 --precision 4 --region 1/2<=p<=3/2 | COIN | RowsRefused | - | \
    rows: state 0 choice 0: target 2 at corner 1 has weight -1;
verify --goal heads --bound 1/2 --precision 4 --region 1/10<=p<=2/5,1/10<=q<=2/5 | APART_COIN | RowsRefused | - | \
    rows: state 0 choice 0: set 1 sums to 1;
verify --goal heads --bound 1/2 --precision 4 | DECIMALS | RowsRefused | - | rows: state 0 choice 0: set 0 sums to 9999;
verify --goal heads --bound 1/2 --precision 4 | LESS | RowsRefused | - | rows: state 0 choice 0: set 0 sums to 3;
verify --goal heads --bound 1/2 --precision 4 | BELOW | RowsRefused | - | rows: state 0 choice 0: target 1 at corner 0 has weight -1;
verify --goal heads --bound 1/2 --depth 20 --region \
    1/1000<=p<=3/1000,1/1000<=q<=3/1000,1/1000<=r<=3/1000,1/1000<=s<=3/1000 | FOUR | RowsRefused | - | \
    rows: state 0 choice 0: too wide;
verify --goal heads --bound 1/2 --precision 4 --region 0<=a<=1,0<=b<=1,0<=c<=1,0<=d<=1,0<=e<=1 | FIVE | RowsRefused | \
    - | rows: state 0 choice 0: 5 parameters;
";

#[test]
fn rows_at_fault_are_reported(rt: HostRuntime) {
    each_claim(&rt, rt.alloc(), REFUSED_ROWS, &Answered);
}
