//! Worked examples of the definitions. The functions do nothing: their clauses are the examples.

mod casts;
mod common_types;
mod frames;
mod schemas;
mod types;
mod values;
