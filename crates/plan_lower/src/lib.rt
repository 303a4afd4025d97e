//! From a query's plan to a typed plan in two arenas.
#![tactic(auto)]

pub mod conversion;
mod examples;
