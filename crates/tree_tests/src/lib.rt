//! Tests of trees that are built and of trees that are gone on from, and of a room in which a second report is
//! written. Texts are handed on as parameters, and each call that asks for much stands in a small function: so no
//! proof computes what a text stands for, or carries what all the calls before it say.
#![tactic(auto)]

#[cfg(test)]
mod cases;
#[cfg(test)]
mod cells;
#[cfg(test)]
mod refined;
#[cfg(test)]
mod rooms;
#[cfg(test)]
mod trees;
