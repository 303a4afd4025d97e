//! Bounds on what coercion leaves: no more casts than an expression needs, no more without effect, and no more other nodes.
#![tactic(auto)]

mod examples;
pub mod laws;
