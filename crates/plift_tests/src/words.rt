// Lines of words, where reading fails at once: whether they ask for a job, and else what is at fault.
use crate::cells::each_claim;
use crate::models::are_lines;
use crate::runs::{DONE, End, Sinks, words_of};
use lift_base::MemSource;
use std::alloc::{AllocError, Global};
use test_cells::{Claim, Unreported, cut};

// Each row: the words between bars, and what is told.
const LINES: &str = "\
verify|--goal|heads|--bound|1/2 | read fault;
verify|--goal=heads|--bound=1/2|--precision=4 | read fault;
verify|--depth|0|--bound=1/2|--goal|heads | read fault;
 | usage: words;
verify | usage: words;
check | read fault;
check|x | usage: words;
refine|--depth|1 | read fault;
refine|--depth=020 | read fault;
refine | usage: words;
refine|3 | usage: words;
refine|--depth | usage: words;
refine|--depth= | usage: words;
refine|--depth|-3 | usage: words;
refine|--depth|3|--depth|3 | usage: words;
refine|--depth|3|more | usage: words;
refine|--precision|3 | usage: words;
refine|--depth|0 | usage: --depth;
refine|--depth|21 | usage: --depth;
refine|--depth|0003 | usage: --depth;
generate | usage: words;
generate|5|5 | usage: words;
generate|-5 | usage: words;
generate|0 | usage: N;
generate|32768 | usage: N;
generate|000005 | usage: N;
generate| | usage: N;
selftest | usage: words;
selftest|5|5 | usage: words;
selftest|-5 | usage: words;
selftest|0 | usage: N;
selftest|32768 | usage: N;
help | usage: words;
--help | usage: words;
-h | usage: words;
--version | usage: words;
property|--formula|P<=1/2 [ F \"heads\" ] | read fault;
property|--formula=P < 0.5[ \"up\" U \"heads\" ]|--depth|0 | read fault;
property|--formula|P<=1/2 [ F heads ] | usage: --formula Syntax;
property|--formula|P<=1/2 [ F \"\" ] | usage: --formula Syntax;
property|--formula| | usage: --formula Syntax;
property|--formula= | usage: words;
property|--formula|P<=2 [ F \"heads\" ] | usage: --formula Bound;
property | usage: words;
cost|--goal|heads|--reward|steps|--budget|2|--cap|4 | read fault;
cost|--cap=4|--depth=1|--budget=8/2|--region|0<=p<=1|--reward=steps|--goal=heads|--precision=4 | read fault;
cost|--goal|x|--reward|!~|--budget|0|--cap|0000000001 | read fault;
cost|--goal|x|--reward|s|--budget|4294967295|--cap|4294967295 | read fault;
cost|--goal|x|--reward|s|--budget|1/4294967295|--cap|1 | read fault;
cost | usage: words;
cost|--reward|s|--budget|2|--cap|4 | usage: words;
cost|--goal|x|--budget|2|--cap|4 | usage: words;
cost|--goal|x|--reward|s|--cap|4 | usage: words;
cost|--goal|x|--reward|s|--budget|2 | usage: words;
cost|--goal|x|--reward|s|--budget|2|--cap | usage: words;
cost|--goal|x|--reward|s|--budget|2|--cap|4|--cap|4 | usage: words;
cost|--goal|x|--reward|s|--budget|2|--cap|4|--bound|1 | usage: words;
cost|--goal|x|--reward|s|--budget|2|--cap|4|--steps|1 | usage: words;
cost|--goal|x|--reward|s|--budget|2|--cap|4|--from|1 | usage: words;
cost|--goal|x|--reward|s|--budget|2|--cap|4|--formula|P<=1/2 [ F \"heads\" ] | usage: words;
cost|--goal|x|--reward|s|--budget|-1|--cap|4 | usage: words;
cost|--goal|x|--reward|two words|--budget|2|--cap|4 | usage: --reward;
cost|--goal|x|--reward||--budget|2|--cap|4 | usage: --reward;
cost|--goal|x|--reward|\x7f|--budget|2|--cap|4 | usage: --reward;
cost|--goal|x|--reward|s|--budget|0|--cap|0 | usage: --cap;
cost|--goal|x|--reward|s|--budget|2|--cap|4294967296 | usage: --cap;
cost|--goal|x|--reward|s|--budget|2|--cap|9999999999 | usage: --cap;
cost|--goal|x|--reward|s|--budget|2|--cap|00000000004 | usage: --cap;
cost|--goal|x|--reward|s|--budget|2|--cap|4.0 | usage: --cap;
cost|--goal|x|--reward|s|--budget|2|--cap| | usage: --cap;
cost|--goal|x|--reward|s|--budget|9/2|--cap|4 | usage: --budget;
cost|--goal|x|--reward|s|--budget|1/4294967296|--cap|4 | usage: --budget;
cost|--goal|x|--reward|s|--budget|1/0|--cap|4 | usage: --budget;
cost|--goal|x|--reward|s|--budget|x|--cap|4 | usage: --budget;
cost|--budget|9|--cap|0|--reward|a b|--precision|0|--depth|21|--goal| | usage: --goal;
cost|--budget|9|--cap|0|--reward|a b|--precision|0|--depth|21|--goal|x | usage: --depth;
cost|--budget|9|--cap|0|--reward|a b|--precision|0|--depth|0|--goal|x | usage: --precision;
cost|--budget|9|--cap|0|--reward|a b|--precision|1|--depth|0|--goal|x | usage: --reward;
cost|--budget|9|--cap|0|--reward|ab|--precision|1|--depth|0|--goal|x | usage: --cap;
cost|--budget|9|--cap|8|--reward|ab|--precision|1|--depth|0|--goal|x | usage: --budget;
verify|--goal|x|--bound|1|--reward|s | usage: words;
verify|--goal|x|--bound|1|--budget|1 | usage: words;
verify|--goal|x|--bound|1|--cap|1 | usage: words;
bounded|--goal|x|--bound|1|--steps|1|--cap|1 | usage: words;
lumped|--goal|x|--bound|1|--reward|s | usage: words;
property|--formula|P<=1/2 [ F \"heads\" ]|--budget|1 | usage: words;
verify|-- | usage: words;
verify|--help | usage: words;
verify|-h | usage: words;
verify|help | usage: words;
verify|--goal|heads | usage: words;
verify|--goal|heads|--bound | usage: words;
verify|--goal|heads|--bound|1/2|--goal|heads | usage: words;
verify|--goal|heads|--bound=1/2|--bound=1/2 | usage: words;
verify|--goal=|--bound|1/2 | usage: words;
verify|--goal=-x|--bound|1/2 | usage: words;
verify|--goal|heads|--bound|-1 | usage: words;
verify|--goal|heads|--bound|1/2|-- | usage: words;
verify|--goal|heads|--bound|1/2|more | usage: words;
verify|--goal|heads|--bound|1/2|--speed|4 | usage: words;
verify|--goal|heads|--bound|1/2|--prec|4 | usage: words;
verify|--goal|heads|--bound|1/2|--region|0<=p<=1 | read fault;
verify|--region=0<=p<=1|--goal|heads|--bound|1/2 | read fault;
verify|--goal|heads|--bound|1/2|--region| | read fault;
verify|--goal|heads|--bound|1/2|--region| -1<=p<=1 | read fault;
verify|--goal|heads|--bound|1/2|--region|-1<=p<=1 | usage: words;
verify|--goal|heads|--bound|1/2|--region= | usage: words;
verify|--goal|heads|--bound|1/2|--region | usage: words;
verify|--region|a|--goal|heads|--bound|1/2|--region|a | usage: words;
verify|--goal|heads|--bound|3/2|--region|a | usage: --bound;
verify|--bound|1/2|--goal|=x | read fault;
verify|--bound|1/2|--goal=a=b | read fault;
verify|--bound|1/2|--goal|two words | read fault;
verify|--bound|1/2|--goal=x | read fault;
verify|--bound|1/2|--goal| | usage: --goal;
verify|--bound|1/2|--goal|\x7f | usage: --goal;
verify|--goal|x|--bound|0.5 | read fault;
verify|--goal|x|--bound|5e-1 | read fault;
verify|--goal|x|--bound|0/7 | read fault;
verify|--goal|x|--bound|1 | read fault;
verify|--goal|x|--bound|0.5/0.50 | read fault;
verify|--goal|x|--bound|1/4294967295 | read fault;
verify|--goal|x|--bound|1/0 | usage: --bound;
verify|--goal|x|--bound|3/2 | usage: --bound;
verify|--goal|x|--bound|1/4294967296 | usage: --bound;
verify|--goal|x|--bound|2/8589934592 | usage: --bound;
verify|--goal|x|--bound|1/ | usage: --bound;
verify|--goal|x|--bound|/2 | usage: --bound;
verify|--goal|x|--bound|+1/2 | usage: --bound;
verify|--goal|x|--bound|1 /2 | usage: --bound;
verify|--goal|x|--bound|1/2/1 | usage: --bound;
verify|--goal|x|--bound|4611686018427387904/4611686018427387904 | usage: --bound;
verify|--goal|x|--bound|1|--depth|020 | read fault;
verify|--goal|x|--bound|1|--depth|20 | read fault;
verify|--goal|x|--bound|1|--depth|0020 | usage: --depth;
verify|--goal|x|--bound|1|--depth|21 | usage: --depth;
verify|--goal|x|--bound|1|--depth| | usage: --depth;
verify|--goal|x|--bound|1|--depth|+1 | usage: --depth;
verify|--goal|x|--bound|1|--precision|40 | read fault;
verify|--goal|x|--bound|1|--precision|0 | usage: --precision;
verify|--goal|x|--bound|1|--precision|41 | usage: --precision;
verify|--goal|x|--bound|1|--from|1 | read fault;
verify|--from=024|--goal|x|--bound|1 | read fault;
verify|--precision|4|--from|4|--goal|x|--bound|1 | read fault;
verify|--precision|4|--from|5|--goal|x|--bound|1 | usage: --from;
verify|--goal|x|--bound|1|--from|25 | usage: --from;
verify|--goal|x|--bound|1|--from|0 | usage: --from;
verify|--goal|x|--bound|1|--from|0001 | usage: --from;
verify|--goal|x|--bound|1|--from|x | usage: --from;
verify|--goal|x|--bound|1|--from|+1 | usage: --from;
verify|--goal|x|--bound|1|--from| | usage: --from;
verify|--goal|x|--bound|1|--from | usage: words;
verify|--goal|x|--bound|1|--from|1|--from|1 | usage: words;
verify|--goal|x|--bound|1|--from|1|--steps|1 | usage: words;
verify|--goal|x|--bound|1|--from|0|--precision|0 | usage: --precision;
bounded|--goal|x|--bound|1|--steps|1|--from|1 | usage: words;
lumped|--goal|x|--bound|1|--from|1 | usage: words;
migrate|x | usage: words;
migrate|--from|1 | usage: words;
verify|--precision|0|--depth|21|--bound|2|--goal| | usage: --goal;
verify|--precision|0|--depth|21|--bound|2|--goal|x | usage: --bound;
verify|--precision|0|--depth|21|--bound|1|--goal|x | usage: --depth;
";

// A source that fails at once.
fn failing(alloc: Global) -> Result<MemSource, AllocError> {
    Ok(MemSource::new(Vec::new(alloc), 16, Vec::from_slice(alloc, &[1])?))
}

// Whether words end so, where the source fails at once.
fn comes(alloc: Global, want: End<'_>, line: &str, sinks: &mut Sinks) -> Result<bool, AllocError> {
    let mut source = failing(alloc)?;
    let words = words_of(alloc, line, '|')?;
    Ok(want.comes(alloc, &words, &mut source, sinks))
}

// That a line is told so, and nothing is written.
struct Lines;

impl Claim for Lines {
    fn holds(&self, alloc: Global, row: &str) -> Result<bool, Unreported> {
        let (line, reported) = cut(row);
        let status = match reported {
            "read fault;" => "ReadFault",
            _ => "Usage",
        };
        let mut sinks = Sinks::make(alloc, 10, 1)?;
        let comes = comes(alloc, End { status, reported }, line, &mut sinks)?;
        Ok(comes && sinks.out.taken().is_empty())
    }
}

#[test]
fn words_are_read(rt: HostRuntime) {
    each_claim(&rt, rt.alloc(), LINES, &Lines);
}

// The ladder of one block.
const LADDER: &str = "\
@type: DTMC
@parameters
p q
@model
state 0 init
2 : p
1 : 1-p
state 1
0 : q
3 : 1-q
state 2 done
2 : 1
state 3
3 : 1
";

// Each row: how many blocks, and the line of their ladder.
const TESTED: &str = "\
1 | selftest 1 states 4 accept 0 reject 1 unknown 0;
2 | selftest 2 states 6 accept 0 reject 1 unknown 2;
3 | selftest 3 states 8 accept 1 reject 0 unknown 0;
1000 | selftest 1000 states 2002 accept 1 reject 0 unknown 0;
32767 | selftest 32767 states 65536 accept 1 reject 0 unknown 0;
";

// That the ladder of so many blocks is tested, with that line, and nothing is told.
struct Tested;

impl Claim for Tested {
    fn holds(&self, alloc: Global, row: &str) -> Result<bool, Unreported> {
        let (blocks, line) = cut(row);
        let words = format!(in alloc; "selftest|{blocks}")?;
        let mut sinks = Sinks::make(alloc, 100, 7)?;
        let comes = comes(alloc, DONE, &words, &mut sinks)?;
        Ok(comes && are_lines(sinks.out.taken(), line))
    }
}

#[test]
fn ladders_are_tested_and_nothing_read(rt: HostRuntime) {
    each_claim(&rt, rt.alloc(), TESTED, &Tested);
}

// Whether words write that ladder, and nothing is told.
fn is_written(alloc: Global, line: &str, ladder: &[u8]) -> Result<bool, AllocError> {
    let mut sinks = Sinks::make(alloc, 1000, 7)?;
    let comes = comes(alloc, DONE, line, &mut sinks)?;
    Ok(comes && sinks.out.taken() == ladder)
}

#[test]
fn a_ladder_is_written_and_nothing_read(rt: HostRuntime) {
    let is_written = is_written(rt.alloc(), "generate|1", LADDER.as_bytes());
    assert!(rt; matches!(is_written, Ok(true)));
}
