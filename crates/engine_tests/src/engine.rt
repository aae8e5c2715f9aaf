//! Tests of links, tables, and what iterates over them: guesses, least vectors, also by a rule and of costs, ranks and greatest
//! lower vectors. Each is a table of one text.

mod costs;
mod greatest;
mod guesses;
mod links;
mod ranks;
mod roots;
mod rules;
mod tables;
mod vectors;
