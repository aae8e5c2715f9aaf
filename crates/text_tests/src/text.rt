//! Tests of reading a report's head and its nodes, in both versions. Each is a table of one text: a row in each line, and
//! its cells between bars.

mod heads;
mod nodes;
mod reports;
mod versions;
mod written;
