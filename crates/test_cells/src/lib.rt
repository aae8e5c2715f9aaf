//! Tables of tests, a row a line, and the cells of their rows, which stand between bars. Nothing is promised of cells, so that no
//! proof carries where a text is cut. The loop that asserts something of each row stands in each crate of tests, since no library
//! may end a process.
#![tactic(auto)]

use std::alloc::{AllocError, Global};
use std::fmt::{Debug, Display};

/// What is told of the rows of a table.
pub trait Teller {
    type Reported: Display + Debug + Drop;

    type Error: Debug + Drop;

    /// What is told of the cells of a row that ask.
    fn tell(&self, alloc: Global, asked: &str) -> Result<Self::Reported, Self::Error>;
}

/// Whether something is told, and shown so.
pub fn is_shown<D: Display, E>(alloc: Global, reported: &Result<D, E>, want: &str) -> bool {
    match reported {
        Ok(reported) =>
            matches!(format!(in alloc; "{reported}"), Ok(shown) if shown.as_str() == want),
        Err(_) => false,
    }
}

/// What the rows of a table say.
pub trait Claim {
    /// Whether what a row says is so.
    fn holds(&self, alloc: Global, row: &str) -> Result<bool, Unreported>;
}

/// Why nothing is told, or not whether what a row says is so.
#[derive(Clone, Copy, Debug)]
pub enum Unreported {
    /// There is no memory left.
    NoMemory,
    /// A cell of the row is none of its table.
    Cell,
    /// A text is refused, at this line where it is a model's.
    Text(u32),
}

impl From<AllocError> for Unreported {
    fn from(_: AllocError) -> Self {
        Unreported::NoMemory
    }
}

/// The first cell of a row, and the row's rest; nothing where it has no other.
pub fn cut(row: &str) -> (&str, &str) {
    row.split_once(" | ").unwrap_or((row, ""))
}

/// The first two cells of a row, and the row's rest.
pub fn cut_two(row: &str) -> (&str, &str, &str) {
    let (first, rest) = cut(row);
    let (second, rest) = cut(rest);
    (first, second, rest)
}

/// The first three cells of a row, and the row's rest.
pub fn cut_three(row: &str) -> (&str, &str, &str, &str) {
    let (first, second, rest) = cut_two(row);
    let (third, rest) = cut(rest);
    (first, second, third, rest)
}

/// The first word of a cell, and those behind it; nothing where it has no other.
pub fn first_word(cell: &str) -> (&str, &str) {
    cell.split_once(' ').unwrap_or((cell, ""))
}

/// The number of a cell; 99 where it writes none.
pub fn number(cell: &str) -> u64 {
    cell.parse::<u64>().unwrap_or(99)
}

/// The same of 32 bits.
pub fn count(cell: &str) -> u32 {
    cell.parse::<u32>().unwrap_or(99)
}

/// The same with a sign.
pub fn signed(cell: &str) -> i64 {
    cell.parse::<i64>().unwrap_or(99)
}
