//! What a run asks and tells: events and items, the hosts that answer, scripts, and the joining of pieces to spans.
//! Its definitions say what a run is, once for every machine.
#![tactic(auto)]

mod effect;
mod event;
mod host;
mod item;
mod joiner;
pub mod laws;
mod props;
mod recorded;
mod script;
mod scripted;
mod spans;

pub use effect::{Effect, answered, effect_of};
pub use event::Event;
pub use host::{Host, Reply};
pub use item::Item;
pub use joiner::Joiner;
pub use pp_outside::NoMemory;
pub use props::Props;
pub use recorded::Recorded;
pub use script::{Script, ScriptEntry, ScriptTo};
pub use scripted::Scripted;
pub use spans::Spans;
