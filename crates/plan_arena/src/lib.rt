//! Arenas of expressions and plans: items that name one another by number.
#![tactic(auto)]

pub mod aexpr;
pub mod aggregate;
pub mod arena;
mod examples;
pub mod expr_ir;
pub mod inputs;
pub mod ir;
pub mod ir_schema;
pub mod laws;
pub mod names;
pub mod plan;
