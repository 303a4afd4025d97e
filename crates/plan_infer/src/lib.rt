//! Types of expressions in an arena, and tables that keep them by node.
#![tactic(auto)]

pub mod aexpr_field;
mod examples;
pub mod expr_ir_field;
pub mod field;
mod function_types;
pub mod names;
pub mod operator_types;
mod signed;
pub mod steps;
mod taken;
pub mod taken_types;
pub mod type_table;
pub mod typing;
