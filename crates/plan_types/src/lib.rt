//! Types, values, casts, schemas, frames and refusals of query plans.
//!
//! Contracts see a text as the list of its characters, a type as a `Ty`, a value as a `Val`, a schema as the list of
//! its columns, a frame as its schema and rows, and a place as the list of its steps.
#![tactic(auto)]

pub mod cast;
pub mod column;
pub mod common_type;
pub mod dtype;
pub mod error;
mod examples;
pub mod field;
pub mod frame;
pub mod laws;
pub mod schema;
pub mod supertype;
pub mod text;
pub mod value;
pub mod whole_number;
