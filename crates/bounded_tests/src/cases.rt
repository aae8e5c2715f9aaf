//! The cases that the tests are about, each made from texts.

use lift_model::Model;
use std::alloc::Global;
use test_cases::{Asker, Scope, model_of};
use test_cells::Unreported;

/// A coin that shows heads with p.
pub(crate) const COIN: &[u8] =
    b"@type: DTMC\n@parameters\np\n@model\nstate 0 init\n1 : p\n2 : 1-p\n\
state 1 heads\n1 : 1\nstate 2\n2 : 1\n";

/// A coin that is tossed again in half of the cases.
const LOOP: &[u8] = b"@type: DTMC\n@parameters\np\n@model\nstate 0 init\n0 : 1/2\n1 : 1/2*p\n\
2 : 1/2-1/2*p\nstate 1 heads\n1 : 1\nstate 2\n2 : 1\n";

/// A choice between one toss and a way to the goal that is sure, but takes two steps.
const SHORT_CUT: &[u8] =
    b"@type: MDP\n@parameters\np\n@model\nstate 0 init\naction toss\n3 : 1/2\n2 : 1/2\n\
action go\n1 : 1\nstate 1\n3 : 1\nstate 2\n2 : 1\nstate 3 heads\n3 : 1\n";

/// Two coins to choose from, that show heads with p and with 1 - p.
const TWIN: &[u8] = b"@type: MDP\n@parameters\np\n@model\nstate 0 init\naction a\n1 : p\n2 : 1-p\n\
action b\n1 : 1-p\n2 : p\nstate 1 heads\n1 : 1\nstate 2\n2 : 1\n";

/// A coin that needn't be tossed.
const WAIT: &[u8] =
    b"@type: MDP\n@parameters\np\n@model\nstate 0 init\naction toss\n1 : p\n2 : 1-p\n\
action wait\n0 : 1\nstate 1 heads\n1 : 1\nstate 2\n2 : 1\n";

/// The text of that name.
fn text_of(name: &str) -> &'static [u8] {
    match name {
        "LOOP" => LOOP,
        "SHORT_CUT" => SHORT_CUT,
        "TWIN" => TWIN,
        "WAIT" => WAIT,
        _ => COIN,
    }
}

/// What is told of the case of a model over a region at precision 4, where the depth is one of those that may be asked
/// for.
pub(crate) fn ask_over<A: Asker>(
    alloc: Global,
    model: &Model,
    region: &str,
    depth: u32,
    asker: &A,
) -> Result<A::Reported, Unreported> {
    if depth > 20 {
        return Err(Unreported::Cell);
    }
    let scope = Scope {
        region: region.as_bytes(),
        depth,
        w: 4,
    };
    test_cases::ask_over(alloc, model, scope, asker)
}

/// The same of the model of that name.
pub(crate) fn ask_named<A: Asker>(
    alloc: Global,
    name: &str,
    region: &str,
    depth: u32,
    asker: &A,
) -> Result<A::Reported, Unreported> {
    let model = model_of(alloc, text_of(name), b"heads")?;
    let reported = ask_over(alloc, &model, region, depth, asker);
    drop(model);
    reported
}
