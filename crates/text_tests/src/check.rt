//! Tests of checking reports. Each is a table of one text: a row in each line, and its cells between
//! bars.

mod answers;
mod limits;
mod migrated;
mod precisions;
mod prefixes;
mod reports;
