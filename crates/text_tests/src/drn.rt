//! Tests of the crates that read model texts. Each is a table of one text.

mod costs;
mod lines;
mod reading;
mod values;

use std::alloc::{AllocError, Global};

/// The text that a cell stands for, with a line feed for each `;`, and for each `?` the byte 200, which no text may hold.
fn text_of(alloc: Global, cell: &str) -> Result<Vec<u8>, AllocError> {
    let mut text = Vec::new(alloc);
    for byte in cell.as_bytes() {
        text.push(match *byte {
            b';' => b'\n',
            b'?' => 200,
            byte => byte,
        })?;
    }
    Ok(text)
}

/// A text, of which `count` lines from line `from` on give way to others.
fn changed(
    alloc: Global,
    text: &[u8],
    from: usize,
    count: usize,
    new: &[u8],
) -> Result<Vec<u8>, AllocError> {
    let mut all = Vec::new(alloc);
    let mut number = 1;
    for line in text.split_inclusive(|b| *b == b'\n') {
        if number == from {
            all.extend_from_slice(new)?;
        }
        if number < from || number >= from.saturating_add(count) {
            all.extend_from_slice(line)?;
        }
        number = number.saturating_add(1);
    }
    Ok(all)
}
