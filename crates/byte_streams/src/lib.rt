//! Sources and sinks of bytes that count their faults, in memory and over readers and writers.
#![tactic(auto)]

pub mod adapter;
pub mod faults;
pub mod sink;
pub mod source;
pub mod stream;
