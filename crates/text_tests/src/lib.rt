//! Tests of texts: of models that are read or made, and of reports that are read and checked. Each is a table of one text.
#![tactic(auto)]

#[cfg(test)]
mod cells;
#[cfg(test)]
mod changes;
#[cfg(test)]
mod check;
#[cfg(test)]
mod drn;
#[cfg(test)]
mod made;
#[cfg(test)]
mod text;
