//! Tests of the views of a report. Each is a table of one text: a row in each line, and its cells
//! between bars.
#![tactic(auto)]

#[cfg(test)]
mod cells;
#[cfg(test)]
mod pictures;
#[cfg(test)]
mod views;
