// Reports of the first version, and what the second has in their place.
use crate::check::reports::changed_report;
use cert_check::{check_text, sound_files_migrate};
use cert_text::migrate_text;
use lift_base::MemSink;
use std::alloc::{AllocError, Global};
use test_cells::{Unreported, cut_two};

// Each row: the report, its changes, and with them those that make its text of the second version.
const MIGRATED: &str = "\
COIN | - | 1=plift 2 / 16=precision 4;from 4 / 20=at 4;accept 7 16 0
COIN | 3=parameters 1 accept / 16=precision 10 / 20=accept 500 1024 0 | 1=plift 2 / 3=parameters 1 accept / \
16=precision 10;from 10 / 20=at 10;accept 500 1024 0
HIGH | - | 1=plift 2 / 16=precision 4;from 4 / 20=at 4;reject e 1 k 1 m 1 b 9/16
SPLIT | - | 1=plift 2 / 16=precision 4;from 4 / 21=at 4;accept 8 16 0 / 24=at 4;reject e 1 k 1 m 1 b 11/16
MIDDLE | - | 1=plift 2 / 16=precision 4;from 4
";

// Writes the second version of a report, and tells whether all was written.
fn is_whole(alloc: Global, report: &[u8], out: &mut MemSink) -> bool {
    sound_files_migrate();
    if report.len() > 1000 {
        return false;
    }
    match check_text(alloc, report) {
        Ok(leaves) if leaves.version == 1 => migrate_text(report, out).is_ok(),
        _ => false,
    }
}

// Whether a front of that text is written, of so many bytes, and it is told whether it is all.
fn is_front(alloc: Global, report: &[u8], text: &[u8], room: usize) -> Result<bool, AllocError> {
    let mut out = MemSink::new(alloc, room, 7, Vec::new(alloc))?;
    let whole = is_whole(alloc, report, &mut out);
    Ok(text.get(..room) == Some(out.taken()) && whole == (room == text.len()))
}

// Whether each front of that text is written into as much room.
fn are_fronts(alloc: Global, report: &[u8], text: &[u8]) -> Result<bool, AllocError> {
    for room in 0..text.len() + 1 {
        if !is_front(alloc, report, text, room)? {
            return Ok(false);
        }
    }
    Ok(true)
}

// The same of a row's report and text.
fn is_migrated(alloc: Global, row: &str) -> Result<bool, Unreported> {
    let (name, old, new) = cut_two(row);
    let report = changed_report(alloc, name, old)?;
    let text = changed_report(alloc, name, new)?;
    Ok(are_fronts(alloc, &report, &text)?)
}

#[test]
fn reports_are_reported_in_the_second_version(rt: HostRuntime) {
    for row in MIGRATED.lines() {
        assert!(rt; matches!(is_migrated(rt.alloc(), row), Ok(true)), "{row}");
    }
}
