// Tests of the reading of model texts with rewards.
use crate::cells::each_row;
use crate::drn::{changed, text_of};
use drn_read::{Costs, DrnError, read_costs};
use lift_base::{MemSink, Word, WriteFault, write_words};
use std::alloc::{AllocError, Global};
use std::string::String;
use test_cells::{Teller, Unreported, cut, cut_two, number};

// A loop with a reward, some of whose lines change.
const LOOP: &[u8] =
    b"@type: DTMC\n@parameters\np\n@reward_models\nsteps\n@model\nstate 0 [1] init\n\
    0 : 1/2\n1 : 1/2*p\n2 : 1/2-1/2*p\nstate 1 heads\n1 : 1\nstate 2\n2 : 1\n";

// From which line on how many lines of the loop give way to a text, the reward that is asked for,
// and the costs, or the line and the cause of the refusal and its number. In order: the costs;
// values as they are written; names; groups without their form; wide values; an action's values;
// what is told before a reward and behind it; and the end of the text.
const REWARDS: &str = "\
    1 | 0 |  | steps | costs 1/1 0/1 0/1\n\
    7 | 1 | state 0 [ 6/4\t] init; | steps | costs 3/2 0/1 0/1\n\
    7 | 1 | state 0 [1.25e1] init; | steps | costs 25/2 0/1 0/1\n\
    11 | 1 | state 1 [7]heads; | steps | costs 1/1 7/1 0/1\n\
    5 | 3 | steps time;@model;state 0 [1 , 2/3] init; | time | costs 2/3 0/1 0/1\n\
    5 | 3 | time time;@model;state 0 [1,2] init; | time | costs 1/1 0/1 0/1\n\
    5 | 3 | a \"b c\" [d];@model;state 0 [1,2,3] init; | b c | costs 2/1 0/1 0/1\n\
    5 | 3 | a \"b c\" [d];@model;state 0 [1,2,3] init; | [d] | costs 3/1 0/1 0/1\n\
    5 | 1 | a \"steps; | steps | 5 OpenQuote 1\n\
    5 | 1 | steps [a; | steps | 5 Syntax 3\n\
    5 | 3 | ;@model;state 0 [1] init; | steps | 7 RewardSyntax 24\n\
    5 | 3 | ;@model;state 0 [\t ] init; | steps | 14 UnknownReward 23\n\
    4 | 4 | @model;state 0 [ ] init; | steps | 12 UnknownReward 23\n\
    7 | 1 | state 0 [1,2] init; | steps | 7 RewardSyntax 24\n\
    7 | 1 | state 0 [] init; | steps | 7 RewardSyntax 24\n\
    7 | 1 | state 0 [-1] init; | steps | 7 RewardSyntax 24\n\
    7 | 1 | state 0 [1/0] init; | steps | 7 RewardSyntax 24\n\
    7 | 1 | state 0 [9999999999999999999999/0] init; | steps | 7 RewardSyntax 24\n\
    7 | 1 | state 0 [9999999999999999999999] init; | steps | 7 RewardWide 25\n\
    7 | 1 | state 0 [1/9999999999999999999999] init; | steps | 7 RewardWide 25\n\
    5 | 3 | steps time;@model;state 0 [1,1e19] init; | steps | 7 RewardWide 25\n\
    5 | 3 | steps time;@model;state 0 [1e19,x] init; | steps | 7 RewardSyntax 24\n\
    8 | 0 | action a [1]; | steps | 8 ActionReward 26\n\
    8 | 0 | action [1/2]; | steps | 8 ActionReward 26\n\
    8 | 0 | action a [1e19]; | steps | 8 RewardWide 25\n\
    8 | 0 | action a [0/7]; | steps | costs 1/1 0/1 0/1\n\
    5 | 4 | steps time;@model;state 0 [1,2] init;action a [0,1];0 : 1/2; | steps | 8 ActionReward 26\n\
    7 | 1 | state 1 [x] init; | steps | 7 StateOrder 10\n\
    7 | 1 | state 0 init [x]; | steps | 7 Syntax 3\n\
    7 | 1 | state 0 [x init; | steps | 7 Syntax 3\n\
    7 | 1 | state 0 [x] \"init; | steps | 7 RewardSyntax 24\n\
    7 | 1 | state 0 [1] \"init; | steps | 7 OpenQuote 1\n\
    7 | 1 | action a [x]; | steps | 7 Syntax 3\n\
    11 | 0 | action b [x]; | steps | 11 ExtraChoice 12\n\
    8 | 3 |  | steps | 7 NoChoice 13\n\
    8 | 4 | state 1 [x] heads; | steps | 7 NoChoice 13\n\
    1 | 0 |  | time | 14 UnknownReward 23\n\
    11 | 1 | state 1 tails; | time | 14 UnknownLabel 20\n\
    9 | 4 | 1 : 1/4000000007*p;2 : 1/2;state 1 heads;1 : 1/4000000009; | time | 14 UnknownReward 23\n\
    9 | 4 | 1 : 1/4000000007*p;2 : 1/2;state 1 heads;1 : 1/4000000009; | steps | 14 CommonDenominator 21";

// Writes the costs of a model's first states.
fn write_costs(out: &mut MemSink, costs: &Costs) -> Result<(), WriteFault> {
    write_words(out, &[Word::Text(b"costs")])?;
    let count = costs.len().min(100) as u32;
    for s in 0..count {
        let (num, den) = costs.get(s);
        let num = Word::Number(i128::from(num));
        let den = Word::Number(i128::from(den));
        write_words(out, &[Word::Text(b" "), num, Word::Text(b"/"), den])?;
    }
    Ok(())
}

// The words that tell the costs.
fn reported(alloc: Global, costs: &Costs) -> Result<String, Unreported> {
    let mut out = MemSink::new(alloc, 10000, 10000, Vec::new(alloc))?;
    match write_costs(&mut out, costs) {
        Ok(()) => Ok(String::from_utf8_lossy(alloc, out.taken())?),
        Err(_) => Err(Unreported::Cell),
    }
}

// The words that tell a refusal.
fn refusal_reported(alloc: Global, error: DrnError) -> Result<String, AllocError> {
    let (name, number) = (error.cause.name(), error.cause.number());
    format!(in alloc; "{} {name} {number}", error.line)
}

// The costs that a text stands for, or why it is refused.
fn costs_reported(alloc: Global, text: &[u8], reward: &str) -> Result<String, Unreported> {
    if text.len() >= 100000 {
        return Err(Unreported::Cell);
    }
    match read_costs(alloc, text, b"heads", reward.as_bytes()) {
        Ok((model, costs)) => {
            drop(model);
            let reported = reported(alloc, &costs);
            drop(costs);
            reported
        }
        Err(error) => Ok(refusal_reported(alloc, error)?),
    }
}

struct Rewards;

impl Teller for Rewards {
    type Reported = String;

    type Error = Unreported;

    fn tell(&self, alloc: Global, asked: &str) -> Result<String, Unreported> {
        let (from, count, rest) = cut_two(asked);
        let (new, reward) = cut(rest);
        let new = text_of(alloc, new)?;
        let text = changed(
            alloc,
            LOOP,
            number(from) as usize,
            number(count) as usize,
            &new,
        )?;
        costs_reported(alloc, &text, reward)
    }
}

#[test]
fn reads_costs(rt: HostRuntime) {
    each_row(&rt, rt.alloc(), REWARDS, &Rewards);
}
