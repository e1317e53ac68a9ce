// The run of a graph on a whole string.
ghost use Rattle.std.specs.Prelude.{◌≡◌, ℕ, Option, IfOk, IfErr, OnOk, replicate, slice_get};
ghost use Rattle.pp_mean.specs.Mean.{SetsFit};
ghost use Rattle.pp_mean.specs.Whole.{IsRun, ComesBack, IsLoop, by_sets};

use crate::run::Run;
use pp_bytes::Listed;
use pp_event::{Item, Props, Script};
use pp_graph::Graph;
use std::alloc::{AllocError, Global};
use thiserror::Error;

/// How a run ended, with the node that it stands at, by its place in the graph.
#[derive(Clone, Copy, Debug, PartialEq, Eq)]
pub enum End {
    /// It needs more bytes.
    Waits { node: u32 },
    /// It came to a pause of this code, and may pass no more.
    PausedAt { node: u32, code: u32 },
    /// It came to an error node of this code.
    Failed { node: u32, code: u32 },
}

/// What a run gave: what it told, in order; how it ended; the values of the properties then; the place where it stands,
/// in bytes from 0; and the spans that are open, in order of their numbers, each with its start.
#[derive(Drop)]
pub struct WholeRun {
    pub items: Listed<Item>,
    pub end: End,
    pub props: Props,
    pub at: u64,
    pub spans: Listed<(u32, u64)>,
}

/// Why there is no run.
#[derive(Clone, Copy, Debug, PartialEq, Eq, Error)]
pub enum MeanFault {
    /// The run comes to a node twice at one place: the first such node, and the byte there, none at the end.
    #[error("comes to node {node} twice at one place")]
    Loop { node: u32, byte: Option<u8> },
    /// Memory ran out.
    #[error("out of memory")]
    NoMemory,
}

impl From<AllocError> for MeanFault {
    ghost use Rattle.std.specs.Prelude.{◌≡◌};
    ghost use Rattle.pp_mean.specs.declared.whole.MeanFault.TheVariants.{NoMemory};

    ghost from_gives = { λ _ e. e ≡ NoMemory };

    fn from(_: AllocError) -> MeanFault {
        MeanFault::NoMemory
    }
}

// The byte at a place, or none behind the last.
fn byte_at(bytes: &[u8], at: usize) -> Option<u8>
    ensures { result ≡ slice_get bytes.now at }
{
    bytes.get(at).copied()
}

// So many nodes, none marked.
fn no_marks(alloc: Global, nodes: usize) -> Result<Vec<usize>, AllocError>
    ensures { IfOk result (λ marks. marks.items ≡ replicate nodes 0) }
{
    vec![in alloc; 0usize; nodes]
}

/// The run of a graph on the whole string, with these values of properties set first, the answers of a script, and so
/// many pauses passed.
///
/// `Loop` comes exactly where this run comes to a node twice at one place.
pub fn run_whole(
    alloc: Global,
    graph: &Graph,
    sets: &[(u32, u64)],
    script: &Script,
    resumes: u64,
    bytes: &[u8],
) -> Result<WholeRun, MeanFault>
    requires { SetsFit graph.now sets.now }
    ensures run { IfOk result (IsRun (by_sets graph.now sets.now script.now resumes bytes.now)) }
    ensures no_loop { OnOk result ((node : ℕ) (byte : Option ℕ) → ¬ (ComesBack (by_sets graph.now sets.now script.now resumes bytes.now) node byte)) }
    // Else the run comes to a node twice at one place, or memory runs out.
    ensures loops { IfErr result (IsLoop (by_sets graph.now sets.now script.now resumes bytes.now)) }
{
    let nodes = graph.nodes();
    let mut seen = no_marks(alloc, nodes.len())?;
    let mut run = Run::begin(alloc, graph, sets, resumes, bytes);
    'run: loop {
        let node = run.node();
        let at = run.at();
        // A node is marked with the place behind the one where the run last stood at it.
        if seen[node as usize] == at + 1 {
            return Err(MeanFault::Loop {
                node,
                byte: byte_at(bytes, at),
            });
        }
        seen[node as usize] = at + 1;
        if let Some(end) = run.advance(&nodes[node as usize].kind, script)? {
            return Ok(run.ended(alloc, end)?);
        }
    }
}
