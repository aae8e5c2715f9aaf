// Texts that are cut off, and sources that fail.
use crate::check::reports::{answer_of, changed_report};
use std::alloc::{AllocError, Global};
use std::string::String;
use test_cells::Unreported;

// The answer to a text that ends too early: it is refused at the line that is due.
fn truncated(alloc: Global, text: &[u8]) -> Result<String, AllocError> {
    let line = text.iter().filter(|byte| **byte == b'\n').count() + 1;
    format!(in alloc; "Text(TextError {{ line: {line}, cause: Truncated }})")
}

// The answer to a text.
fn answer_to(alloc: Global, text: &[u8]) -> Result<String, Unreported> {
    answer_of(alloc, Vec::from_slice(alloc, text)?, 0)
}

// Whether a text is refused as truncated.
fn is_truncated(alloc: Global, text: &[u8]) -> bool {
    match (answer_to(alloc, text), truncated(alloc, text)) {
        (Ok(got), Ok(want)) => got == want,
        _ => false,
    }
}

// How many of a text's fronts are refused as truncated, from the shortest on.
fn truncated_fronts(alloc: Global, text: &[u8]) -> usize {
    for len in 0..text.len() {
        if !is_truncated(alloc, &text[..len]) {
            return len;
        }
    }
    text.len()
}

// How many bytes the coin's report has, and the same of it.
fn fronts_of_coin(alloc: Global) -> Result<(usize, usize), Unreported> {
    let text = changed_report(alloc, "COIN", "-")?;
    Ok((text.len(), truncated_fronts(alloc, &text)))
}

#[test]
fn texts_that_are_cut_off_are_truncated(rt: HostRuntime) {
    assert!(rt; matches!(fronts_of_coin(rt.alloc()), Ok((198, 198))));
}

// Whether a fault is told where that call of the coin's source fails.
fn is_fault(alloc: Global, call: u64) -> Result<bool, Unreported> {
    let text = changed_report(alloc, "COIN", "-")?;
    let got = answer_of(alloc, text, call)?;
    Ok(got.as_str() == "Fault")
}

#[test]
fn a_fault_of_each_read_is_reported(rt: HostRuntime) {
    for call in 1..31 {
        assert!(rt; matches!(is_fault(rt.alloc(), call), Ok(true)), "{call}");
    }
}
