//! Where bytes come from and where they go: sources and sinks, their fakes in memory, and a count of steps.
#![tactic(auto)]

mod clean;
mod failed;
mod memory;
mod reading;
mod sink;
mod source;
mod steps;
mod streams;
mod writing;

pub use clean::{CleanSink, CleanSource};
pub use failed::{Failed, NoMemory};
pub use memory::{MemSink, MemSource};
pub use reading::read_some;
pub use sink::Sink;
pub use source::Source;
pub use steps::Steps;
pub use streams::{ReadSource, WriteSink};
pub use writing::write_whole;
