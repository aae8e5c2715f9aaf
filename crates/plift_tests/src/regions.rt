// Regions that name no rectangle.
use crate::cells::each_claim;
use crate::runs::Answered;

// Each row: the words, the model, the status, no output, and the note. The last word of the last one
// is empty.
const REGIONS: &str = "\
verify --goal heads --bound 1/2 --precision 4 --region 1/10<=p<=2/5 | TWO | Usage | - | usage: --region Missing;
verify --goal heads --bound 1/2 --precision 4 --region 1/10<=p<=2/5,1/10<=q<=2/5,0<=q<=1 | TWO | Usage | - | usage: --region Repeated;
verify --goal heads --bound 1/2 --precision 4 --region 1/10<=p<=2/5,1/2<=q<=1/2 | TWO | Usage | - | usage: --region EmptyInterval;
verify --goal heads --bound 1/2 --precision 4 --region 1/10<=p<=2/5,1/10<=z<=2/5 | TWO | Usage | - | usage: --region UnknownName;
verify --goal heads --bound 1/2 --precision 4 --region 1/10<p<2/5 | TWO | Usage | - | usage: --region Syntax;
verify --goal heads --bound 1/2 --precision 4 --region 1/10<=p<=2/5, | TWO | Usage | - | usage: --region Syntax;
verify --goal heads --bound 1/2 --precision 4 --region 0<=p<=1 | PLAIN | Usage | - | usage: --region UnknownName;
verify --goal heads --bound 1/2 --precision 4 --region 0<=p<=1 | DECIMALS | Usage | - | usage: --region UnknownName;
verify --goal heads --bound 1/2 --precision 4 --region 0<=p<=4611686018427387904 | COIN | Usage | - | usage: --region Wide;
verify --goal heads --bound 1/2 --precision 4 --region  | COIN | Usage | - | usage: --region Missing;
";

#[test]
fn regions_at_fault_are_reported(rt: HostRuntime) {
    each_claim(&rt, rt.alloc(), REGIONS, &Answered);
}
