// Where a run stands.
use pp_event::{Props, Spans};

/// A place in a program and in its input, with the number that the edge carried, the values and the open spans.
#[derive(Debug, Drop)]
pub struct Spot {
    pub node: u32,
    pub at: u64,
    pub carried: u32,
    pub props: Props,
    pub spans: Spans,
}
