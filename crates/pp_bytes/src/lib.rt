//! What the crates above share: the list type of fields that hold a list, sets of bytes and their ranges,
//! the folds of a byte, and numbers as texts write them.
#![tactic(auto)]

mod byte_set;
mod fold;
mod listed;
mod number;
mod ranges;

pub use byte_set::ByteSet;
pub use fold::Fold;
pub use listed::Listed;
pub use number::read_number;
pub use ranges::Ranges;
