//! Reports with other lines in the place of some.
use std::alloc::{AllocError, Global};

// What a line is changed to: changes are told as `20=unknown`, with ` / ` between two.
fn change_of<'a>(changes: &'a str, number: usize) -> Option<&'a str> {
    for change in changes.split(" / ") {
        if let Some((key, line)) = change.split_once('=') {
            if key.parse().ok() == Some(number) {
                return Some(line);
            }
        }
    }
    None
}

// Appends a line, with a line feed at its end and in place of each semicolon.
fn push_line(bytes: &mut Vec<u8>, line: &str) -> Result<(), AllocError> {
    for byte in line.as_bytes() {
        bytes.push(if *byte == b';' { b'\n' } else { *byte })?;
    }
    Ok(bytes.push(b'\n')?)
}

/// The bytes of a report, in which a semicolon stands between two lines, with changes.
pub(crate) fn changed(alloc: Global, report: &str, changes: &str) -> Result<Vec<u8>, AllocError> {
    let mut bytes = Vec::new(alloc);
    for (index, line) in report.split(';').enumerate() {
        push_line(&mut bytes, change_of(changes, index + 1).unwrap_or(line))?;
    }
    Ok(bytes)
}
