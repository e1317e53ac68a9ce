//! Whether a graph has a loop of moves that take no byte, and whether its spans fit.
#![tactic(auto)]

mod checked;
mod keys;
mod laws;
mod rows;
mod table;

pub use checked::{CheckFault, Checked, Shape, check, shape_of};
pub use laws::{one_answer, rank_table, some_answer};
