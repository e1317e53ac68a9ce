//! What a graph means: its run on a whole string.
#![tactic(auto)]

mod items;
mod laws;
mod matching;
mod plain;
mod run;
mod whole;

pub use laws::{at_most_one_run, longer_strings, more_moves, one_run, run_or_loop};
pub use plain::is_plain;
pub use pp_event::{Item, Props};
pub use whole::{End, MeanFault, WholeRun, run_whole};
