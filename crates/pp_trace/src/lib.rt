//! The report of a capture: what its connections tell, line by line, and what a tracer stands for.
#![tactic(auto)]

pub mod laws;
mod mode;

pub use mode::Mode;
