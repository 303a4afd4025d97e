//! Casts round operands, so that each node has operands of the types to which it takes them.
#![tactic(auto)]

pub mod cast_inlining;
pub mod coercion_rule;
mod examples;
pub mod laws;
pub mod rule;
pub mod stack_opt;
pub mod type_check;
mod type_coercion;
pub mod uncounted;
