// Why a command ends early.
ghost use Rattle.std.specs.Prelude.{◌≡◌, OnOk, OnErr};
ghost use Rattle.pp_outside.specs.Faults.{Rose};
ghost use Rattle.pp_outside.specs.Sink.{Adds, AddsSome};
ghost use Rattle.pp_text.specs.declared.fault.TextFault.TheVariants as text_fault;
ghost use Rattle.pp_tool.specs.declared.stop.Stop.TheVariants as stop;
ghost use Rattle.pp_tool.specs.Answers.{Tells, stop_status, stop_line};
ghost use Rattle.pp_tool.specs.steps.Stops.{stop_of};

use crate::refusal::{GraphReason, Refusal};
use crate::status::Status;
use pp_outside::{Failed, Sink, write_whole};
use pp_text::TextFault;
use std::alloc::AllocError;

/// Why a command ends early: the input is refused, or the outside or memory fails.
#[derive(Debug, Drop)]
pub(crate) enum Stop {
    /// The input is refused.
    Refused(Refusal),
    /// The input failed.
    ReadFault,
    /// The output failed.
    WriteFault,
    /// Memory ran out.
    NoMemory,
}

impl From<AllocError> for Stop {
    ghost from_gives = { λ _ s. s ≡ stop.NoMemory };

    fn from(_: AllocError) -> Self {
        Stop::NoMemory
    }
}

impl From<TextFault> for Stop {
    ghost from_gives = { λ f s. s ≡ stop_of f };

    fn from(fault: TextFault) -> Self {
        match fault {
            TextFault::Syntax { line } => Stop::Refused(Refusal::Graph(GraphReason::WrongLine {
                line: u64::from(line),
            })),
            TextFault::TooLong => Stop::Refused(Refusal::Graph(GraphReason::LongLine)),
            TextFault::Graph { line, rule } => {
                Stop::Refused(Refusal::Graph(GraphReason::BrokenRule {
                    line: u64::from(line),
                    rule,
                }))
            }
            TextFault::NoMemory => Stop::NoMemory,
        }
    }
}

impl Stop {
    /// The status that it ends with.
    pub(crate) fn status(&self) -> Status
        ensures { result ≡ stop_status self.now }
    {
        match self {
            Stop::Refused(refusal) => refusal.status(),
            Stop::ReadFault => Status::ReadFault,
            Stop::WriteFault => Status::WriteFault,
            Stop::NoMemory => Status::NoMemory,
        }
    }

    /// Tells its line on the errors sink, or the front of it where the sink fails.
    pub(crate) fn tell<E: Sink>(&self, errors: &mut E)
        ensures { Tells (E.written errors.old) (E.written errors.new) (E.faults errors.old) (E.faults errors.new) (stop_line self.now) }
    {
        let _ = self.write_line(errors);
    }

    // Writes its line.
    fn write_line<E: Sink>(&self, errors: &mut E) -> Result<(), Failed>
        ensures whole { OnOk result (Adds (E.written errors.old) (E.written errors.new) (stop_line self.now)) }
        ensures failed { OnErr result (Rose (E.faults errors.old) (E.faults errors.new)) }
        ensures front { OnErr result (AddsSome (E.written errors.old) (E.written errors.new) (stop_line self.now)) }
    {
        match self {
            Stop::Refused(refusal) => refusal.write_line(errors),
            Stop::ReadFault => write_whole(errors, b"read fault\n"),
            Stop::WriteFault => write_whole(errors, b"write fault\n"),
            Stop::NoMemory => write_whole(errors, b"out of memory\n"),
        }
    }
}
