//! The rows of a table, each of which says something.

use std::alloc::Global;
use std::process::Abort;
use test_cells::Claim;

/// Asserts that what each row says is so.
pub(crate) fn each_claim<C: Claim>(rt: &impl Abort, alloc: Global, rows: &str, claim: &C) {
    for row in rows.lines() {
        let holds = claim.holds(alloc, row);
        assert!(rt; matches!(holds, Ok(true)), "{row}: {holds:?}");
    }
}
