//! The final form of a program: without empty states, without states that nothing leads to, with merged edges, and with
//! the names of its own states alone.
#![tactic(auto)]

mod build;
mod finish;
mod landing;
mod laws;
mod layout;
mod search;

pub use finish::finish_program;
pub use laws::{
    finishing_keeps, finishing_keeps_rules, finishing_keeps_spans, finishing_makes_no_loop,
    lowered_can_be_finished, skipping_keeps,
};
