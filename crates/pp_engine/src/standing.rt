// How a parser stands, and what its calls answer.
use thiserror::Error;

/// How a parser stands. A node is told by the place of its name among those of the program.
#[derive(Clone, Copy, Debug, PartialEq, Eq)]
pub enum Standing {
    /// The next feed begins the run, or goes on behind a pause that was resumed.
    Ready,
    /// It waits for bytes, at this node.
    Waiting { node: u32 },
    /// It came to a pause with this code, at this node, and has not been resumed.
    Paused { node: u32, code: u32 },
    /// It came to an error with this code.
    Failed { code: u32 },
    /// The host answered a piece of a span with this number, which is not 0.
    Stopped { answer: u32 },
    /// The host code of the finish rule answered this number, which is not 0.
    Refused { answer: u32 },
    /// It was to finish where the finish rule forbids it.
    Unsafe,
    /// The host refused a question for want of memory.
    Spent,
    /// It has finished.
    Finished,
}

/// How a parser stands, to itself: as `Standing`, and a pause with the state that it leads to. Contracts speak of this one.
#[derive(Clone, Copy, Debug)]
pub enum Stand {
    Ready,
    Waiting,
    Paused { code: u32, next: u32 },
    Failed { code: u32 },
    Stopped { answer: u32 },
    Refused { answer: u32 },
    Unsafe,
    Spent,
    Finished,
}

/// What a feed answers.
#[derive(Clone, Copy, Debug, PartialEq, Eq)]
pub enum Outcome {
    /// All of the input was taken, and the run waits for more.
    Waits,
    /// The run came to a pause with this code, having taken so many bytes of this input.
    Paused { code: u32, taken: usize },
    /// The run came to an error with this code, at this place.
    Failed { code: u32, at: u64 },
    /// The host answered a piece with this number, which is not 0. The piece ends at this place.
    Stopped { answer: u32, at: u64 },
    /// The host refused a question for want of memory.
    HostOut,
    /// The parser is paused. Nothing has changed.
    StillPaused,
    /// An earlier call answered `Failed`, `Stopped`, `HostOut`, `Refused` or `Unsafe`. Nothing has changed.
    AlreadyFailed,
    /// An earlier `finish` answered `Done`. Nothing has changed.
    AlreadyFinished,
}

/// What `finish` answers.
#[derive(Clone, Copy, Debug, PartialEq, Eq)]
pub enum FinishOutcome {
    /// The input may end here.
    Done,
    /// The host code of the finish rule answered this number, which is not 0.
    Refused { answer: u32 },
    /// The finish rule forbids that the input ends here, at this place.
    Unsafe { at: u64 },
    /// The host refused the question for want of memory.
    HostOut,
    /// The parser is paused. Nothing has changed.
    StillPaused,
    /// An earlier call answered `Failed`, `Stopped`, `HostOut`, `Refused` or `Unsafe`. Nothing has changed.
    AlreadyFailed,
    /// An earlier `finish` answered `Done`. Nothing has changed.
    AlreadyFinished,
}

/// The parser is not paused.
#[derive(Clone, Copy, Debug, PartialEq, Eq, Error)]
#[error("the parser is not paused")]
pub struct NotPaused;
