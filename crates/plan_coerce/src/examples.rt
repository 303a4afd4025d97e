//! Worked examples of the definitions. The functions do nothing: their clauses are the examples.

mod coercions;
mod inlining;
mod optimizer;
mod rules;
