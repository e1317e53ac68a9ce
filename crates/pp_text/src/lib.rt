//! Graph text: read into a graph, and printed.
#![tactic(auto)]

mod back;
mod calls;
mod draft;
mod edge;
mod fault;
mod key;
mod laws;
mod line;
mod node;
mod printing;
mod reading;
mod row;
mod statement;
mod telling;
mod token;
mod word;

pub use back::read_back;
pub use fault::TextFault;
pub use laws::{one_reading, some_reading};
pub use printing::print_graph;
pub use reading::read_graph;
pub use telling::told_again;
