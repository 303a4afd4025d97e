//! Lowering: expressions to nodes, and plans.

mod asked;
mod coercion;
mod distincts;
mod drops;
pub mod dsl_to_ir;
pub mod expr_field;
pub mod expr_to_ir;
mod functions;
mod groups;
mod horizontals;
pub mod nodes;
mod plain_nodes;
mod predicate;
mod projection;
mod put_copy;
mod sorts;
mod statistics;
mod step;
mod top_numbers;
