//! Points and the moves between them: whether moves that take no byte form a loop, how many of them
//! there can be in a row, and which spans may be open where.
#![tactic(auto)]

mod bits;
mod builder;
mod faults;
mod laws;
mod loops;
mod moves;
mod parts;
mod rank;
mod reach;
mod round;
mod spans;
mod spread;
mod tables;
mod words;

pub use builder::Flow;
pub use faults::{Fitting, SpanFault};
pub use laws::{a_cycle_is_a_loop, gap_is_below, ranking_gives_gap, ways_fall};
pub use loops::Judged;
pub use moves::{Act, Move, have_spans};
