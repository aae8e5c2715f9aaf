//! The case that the tests are about, made from texts.

use std::alloc::Global;
use test_cases::{Asker, Scope, ask_over, model_of};
use test_cells::Unreported;

/// A coin that shows heads with p.
const COIN: &[u8] = b"@type: DTMC\n@parameters\np\n@model\nstate 0 init\n1 : p\n2 : 1-p\n\
state 1 heads\n1 : 1\nstate 2\n2 : 1\n";

/// What is told of the case of the coin over a region at precision 4, where the depth is one of those that may be asked
/// for.
pub(crate) fn ask_coin<A: Asker>(
    alloc: Global,
    region: &str,
    depth: u32,
    asker: &A,
) -> Result<A::Reported, Unreported> {
    if depth > 20 {
        return Err(Unreported::Cell);
    }
    let model = model_of(alloc, COIN, b"heads")?;
    let scope = Scope {
        region: region.as_bytes(),
        depth,
        w: 4,
    };
    let reported = ask_over(alloc, &model, scope, asker);
    drop(model);
    reported
}
