//! Queries as a user writes them: expressions, plans, and the registry of functions.
#![tactic(auto)]

pub mod aggregate;
pub mod builder;
mod copies;
pub mod distinct_options;
mod examples;
pub mod expr;
pub mod function;
pub mod function_expr;
pub mod function_options;
pub mod function_schema;
pub mod laws;
pub mod literal;
pub mod marker;
pub mod operator;
pub mod plan;
pub mod plan_laws;
pub mod selector;
pub mod signature;
pub mod sort_options;
pub mod udfs;
pub mod unpivot_args;
pub mod window;
