//! Tests of numbers, rectangles, models, corners and certificates, and of what iterates over links and tables. Each is a table
//! of one text.
#![tactic(auto)]

#[cfg(test)]
mod cells;
#[cfg(test)]
mod engine;
#[cfg(test)]
mod example;
#[cfg(test)]
mod lift;
