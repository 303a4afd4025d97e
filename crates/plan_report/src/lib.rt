//! What is printed of a lowered plan, and of a refusal.
//!
//! A report has a line for each node of the plan, a node before those below it: the node's place,
//! its name, and the schema of its frame. The last line has the number of casts.
#![tactic(auto)]

mod casts;
mod examples;
pub mod report;
mod texts;
