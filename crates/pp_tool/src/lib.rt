//! The commands: words, an input, an output and a sink for lines on errors, and the status that it ends with.
#![tactic(auto)]

mod capture;
mod check;
mod checks;
mod command;
mod input;
mod laws;
mod print;
mod program;
mod refusal;
mod report;
mod status;
mod stop;
mod text;
mod trace;
mod words;

pub use command::tool;
pub use laws::{
    check_answers, check_decides, one_verdict, print_answers, print_decides, some_verdict,
    trace_answers, trace_decides,
};
pub use program::run_program;
pub use status::Status;
pub use words::{WordList, WordsFault};
