// Words and texts that are refused.
use crate::cells::each_claim;
use crate::runs::Answered;

// Each row: the words, the model, the status, no output, and the note.
const REFUSED: &str = "\
verify --goal heads --bound 1/2 --precision 4 | NOTHING | ModelRefused | - | model: line 0: MissingSection;
verify --goal heads --bound 1/2 --precision 4 --depth 0 --region 1/10<=p<=2/5 | NOTHING | ModelRefused | - | model: line 0: MissingSection;
verify --goal heads --bound 1/2 --precision 4 --region 1/10<p<2/5 | SQUARE | ModelRefused | - | model: line 6: SharedParameter;
verify --goal tails --bound 1/2 | COIN | ModelRefused | - | model: line 11: UnknownLabel;
verify --goal heads --bound 1/2 --precision 4 | SQUARE | ModelRefused | - | model: line 6: SharedParameter;
verify --goal heads --bound 1/2 --precision 4 | DIVISOR | ModelRefused | - | model: line 6: ParametricDivisor;
verify --goal heads --bound 1/2 --precision 4 | POWER | ModelRefused | - | model: line 6: Power;
verify --goal heads --bound 1/2 --precision 4 | CTMC | ModelRefused | - | model: line 1: UnsupportedType;
verify --goal heads | PLAIN | Usage | - | usage: words;
verify --bound 1/2 | PLAIN | Usage | - | usage: words;
verify --goal heads --goal heads --bound 1/2 | PLAIN | Usage | - | usage: words;
verify --goal heads --bound 1/2 --depth | PLAIN | Usage | - | usage: words;
verify --goal -x --bound 1/2 | PLAIN | Usage | - | usage: words;
check | PLAIN | NotSound | - | not sound: line 1: Syntax;
 | PLAIN | Usage | - | usage: words;
verify --goal  --bound 3/2 | PLAIN | Usage | - | usage: --goal;
verify --goal heads --bound 3/2 --depth 21 | PLAIN | Usage | - | usage: --bound;
verify --goal heads --bound 1/0 | PLAIN | Usage | - | usage: --bound;
verify --goal heads --bound 1/4294967296 | PLAIN | Usage | - | usage: --bound;
verify --goal heads --bound 1/2 --precision 41 --depth 21 | PLAIN | Usage | - | usage: --depth;
verify --goal heads --bound 1/2 --precision 41 | PLAIN | Usage | - | usage: --precision;
";

#[test]
fn refusals_are_reported(rt: HostRuntime) {
    each_claim(&rt, rt.alloc(), REFUSED, &Answered);
}
