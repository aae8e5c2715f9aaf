//! Tests of the models that are made. Each is a table of one text.

mod ladders;
