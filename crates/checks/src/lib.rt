//! Tests of what a proof can't show: with ample memory each call gives its answer, at any size.
//!
//! A contract lets *out of memory* stand in place of any answer. So each call that takes memory is made here, with no
//! part, with one, two and many, unless the cases of the program reach it so.
//!
//! A value of many variants ends in a call that takes it, `drop` where no other does: at the end of a block each variant
//! would be proved anew.
#![tactic(auto)]

#[cfg(test)]
mod arenas;
#[cfg(test)]
mod casts;
#[cfg(test)]
mod checked_filters;
#[cfg(test)]
mod coercions;
#[cfg(test)]
mod conversions;
#[cfg(test)]
mod evaluations;
#[cfg(test)]
mod expansion;
#[cfg(test)]
mod expressions;
#[cfg(test)]
mod fields;
#[cfg(test)]
mod fixtures;
#[cfg(test)]
mod frames;
#[cfg(test)]
mod functions;
#[cfg(test)]
mod keys;
#[cfg(test)]
mod lowering;
#[cfg(test)]
mod own_rules;
#[cfg(test)]
mod plan_schemas;
#[cfg(test)]
mod plans;
#[cfg(test)]
mod properties;
#[cfg(test)]
mod queries;
#[cfg(test)]
mod refusals;
#[cfg(test)]
mod runs;
#[cfg(test)]
mod samples;
#[cfg(test)]
mod schemas;
#[cfg(test)]
mod selectors;
#[cfg(test)]
mod split_filters;
#[cfg(test)]
mod streams;
pub mod sums;
#[cfg(test)]
mod table_functions;
#[cfg(test)]
mod types;
#[cfg(test)]
mod values;
#[cfg(test)]
mod works;
