//! Queries written as JSON: the tables that a query declares, and its plan.
//!
//! There is one small function for each form that a value of the text can have. Its clauses speak of
//! the value as `serde_json` reads it: what it reads to, or where it is at fault.
#![tactic(auto)]

mod arguments;
mod columns;
mod declarations;
mod dtype;
pub mod error;
mod examples;
mod excluded;
mod expression;
mod forms;
mod function;
mod keep;
pub mod laws;
mod lists;
mod literal;
mod method;
mod operator;
mod optional;
mod places;
mod plan;
pub mod read;
mod selector;
mod statistic;
pub mod tables;
mod value;
