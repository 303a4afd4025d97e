//! An example of a rule of one's own.
#![tactic(auto)]

mod examples;
pub mod harmless_casts;
pub mod op_change;
pub mod op_change_rule;
pub mod plain_ands;
pub mod relax;
