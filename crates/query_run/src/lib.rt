//! What the program does with its words and its input: it reads a query, lowers its plan, and writes one text.
//!
//! The programs `lowerq` and `cases` and the library `lowerq_c` stand on it, and so can a server that has the bytes of a
//! query.
#![tactic(auto)]

mod answer;
pub mod run;
pub mod status;
pub mod text;
