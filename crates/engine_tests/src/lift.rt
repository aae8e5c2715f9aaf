//! Tests of the crates on numbers, rectangles, models, corners and certificates. Each is a table of
//! one text.

mod certificates;
mod corners;
mod fractions;
mod lines;
mod models;
mod names;
mod outside;
mod polynomials;
mod pools;
mod regions;
mod rejections;
mod rows;
mod splits;
