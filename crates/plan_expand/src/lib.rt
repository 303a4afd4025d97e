//! Expansion: what stands for columns of a schema becomes their names.
#![tactic(auto)]

mod examples;
pub mod expr_expansion;
mod fields;
mod markers;
mod operands;
pub mod selectors;
mod spreading;
pub mod walks;
