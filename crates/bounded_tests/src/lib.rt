//! Tests of bounded steps, the text of a tree, of lumping, of properties and of certificates for them, of budgets, for models and
//! regions given as texts. Texts are handed on as parameters, so that no proof computes what a text stands for.
#![tactic(auto)]

#[cfg(test)]
mod budgets;
#[cfg(test)]
mod cases;
#[cfg(test)]
mod cells;
#[cfg(test)]
mod duals;
#[cfg(test)]
mod formulas;
#[cfg(test)]
mod lumping;
#[cfg(test)]
mod properties;
#[cfg(test)]
mod trees;
