//! Functions from a frame to a frame, run on frames.
#![tactic(auto)]

pub mod error;
pub mod evaluation;
mod examples;
mod explode;
mod rename;
mod row_index;
mod unnest;
mod unpivot;
