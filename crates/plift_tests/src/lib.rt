//! Tests of the program. Each is a table of one text: a row in each line, and its cells between bars.
//! A dash alone is an empty cell.
#![tactic(auto)]

#[cfg(test)]
mod cells;
#[cfg(test)]
mod checked;
#[cfg(test)]
mod costs;
#[cfg(test)]
mod decided;
#[cfg(test)]
mod each_fault;
#[cfg(test)]
mod faults;
#[cfg(test)]
mod limits;
#[cfg(test)]
mod lumped;
#[cfg(test)]
mod malformed;
#[cfg(test)]
mod models;
#[cfg(test)]
mod properties;
#[cfg(test)]
mod ranges;
#[cfg(test)]
mod refused;
#[cfg(test)]
mod regions;
#[cfg(test)]
mod rows;
#[cfg(test)]
mod runs;
#[cfg(test)]
mod trees;
#[cfg(test)]
mod within;
#[cfg(test)]
mod words;
