//! Worked examples of the definitions. The functions do nothing: their clauses are the examples.

mod aggregates;
mod functions;
mod nodes;
mod plans;
mod schemas;
