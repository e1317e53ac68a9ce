//! How far a run of bytes goes that all lie in some ranges.
#![tactic(auto)]

mod lanes;
mod run;

pub use run::run_of;
