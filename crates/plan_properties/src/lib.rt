//! Properties of expressions in an arena, which are asked before they are moved, split or computed in parts.
#![tactic(auto)]

pub mod asked;
mod examples;
pub mod laws;
pub mod properties;
pub mod splitting;
