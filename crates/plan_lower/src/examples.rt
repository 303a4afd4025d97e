//! Worked examples of the definitions. The functions do nothing: their clauses are the examples.

mod fields;
mod functions;
mod groups;
mod horizontals;
mod outputs;
mod plans;
mod works;
