//! Programs of states, which go byte by byte: their types, and laws of their runs.
#![tactic(auto)]

mod branch;
mod countable;
mod fault;
mod laws;
mod length;
mod merge;
mod moves;
mod names;
mod program;
mod targets;
mod verification;
mod verified;
mod widths;

pub use countable::is_countable;
pub use fault::{VerifyFault, VerifyRule};
pub use laws::{at_most_one_run, goes_on, lies_in_its_string, longer_strings, one_run, rank_table};
pub use merge::merge_edges;
pub use program::{Edge, Instr, Program, Rest, State};
pub use verification::verify;
pub use verified::Verified;
pub use widths::greatest;
