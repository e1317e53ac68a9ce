//! The file of a program: its bytes, written and read.
#![tactic(auto)]

mod branches;
mod cursor;
mod declarations;
mod fault;
mod kinds;
mod laws;
mod reading;
mod states;
mod writing;

pub use fault::FileFault;
pub use laws::{one_length, one_spelling};
pub use reading::read_program;
pub use writing::write_program;
