//! The push engine: it runs a verified program on pieces of any size, and hands out the parts of spans as they come.
#![tactic(auto)]

mod finish;
mod host;
mod opened;
mod parser;
mod run;
mod sets;
mod spot;
mod standing;
mod turn;

pub use parser::Parser;
pub use sets::SetFault;
pub use standing::{FinishOutcome, NotPaused, Outcome, Standing};
