//! The rows of a table, each held against what is told of it.

use std::alloc::Global;
use std::process::Abort;
use test_cells::{Teller, is_shown};

/// Asserts that the last cell of each row says what is told of those before it.
pub(crate) fn each_row<T: Teller>(rt: &impl Abort, alloc: Global, rows: &str, teller: &T) {
    for row in rows.lines() {
        let (asked, want) = row.rsplit_once(" | ").unwrap_or(("", row));
        let reported = teller.tell(alloc, asked);
        assert!(rt; is_shown(alloc, &reported, want), "{row}: {reported:?}");
    }
}
