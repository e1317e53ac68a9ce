// A push parser: it keeps where a run stands, and no byte of its input.
ghost use Rattle.std.specs.Prelude.{◌≡◌, ◌↔◌, ℕ, [], Some, ◌+◌, ◌-◌, ◌<◌, ◌≤◌, ◌^◌, OnOk, IfOk, IfErr, length, slice_index};
ghost use Rattle.std.specs.Int.{bit_at};
ghost use Rattle.pp_event.specs.Turns.{slot};
ghost use Rattle.pp_event.specs.Values.{values_of};
ghost use Rattle.pp_program.specs.Runnable.{IsRunnable};
ghost use Rattle.pp_engine.specs.Adds.{FeedAdds};
ghost use Rattle.pp_engine.specs.Feeds.{Within};
ghost use Rattle.pp_engine.specs.Finishing.{IsFinished};
ghost use Rattle.pp_engine.specs.Parsers.{IsFed, IsResumed, begun};
ghost use Rattle.pp_engine.specs.Sessions.{Stands, ResumeKeeps};
ghost use Rattle.pp_engine.specs.Sets.{AreRight, IsFirstWrong};
ghost use Rattle.pp_engine.specs.Stood.{IsKept, IsOpen, SaysStanding};

use crate::finish::finish_by;
use crate::opened::open_bits;
use crate::run::{Ended, run};
use crate::sets::{SetFault, values_for};
use crate::spot::Spot;
use crate::standing::{FinishOutcome, NotPaused, Outcome, Stand, Standing};
use pp_event::{Host, Props, Spans};
use pp_outside::Steps;
use pp_program::Verified;
use std::marker::Model;
use std::sync::ledger::Ledger;

/// A run of a program over a string that comes in pieces. It keeps no byte of the string and takes no memory. Contracts see
/// it as its program, where the run stands, how, and the reason of the pause or the error that it met last.
#[derive(Debug, Drop)]
pub struct Parser<'p> {
    program: &'p Verified,
    spot: Spot,
    stand: Stand,
    reason: &'p [u8],
}

impl<'p> Model for Parser<'p> {
    ghost use Rattle.pp_engine.specs.Spots.{config};
    ghost use Rattle.pp_engine.specs.Stood.{Shows, IsKept};

    ghost Value = { Shows };

    ghost view = { λ a. record { program = a.program.now; config = config a.spot; stand = a.stand; reason = a.reason.now } };

    ghost invariant = { λ a. IsKept (record { program = a.program.now; config = config a.spot; stand = a.stand; reason = a.reason.now }) };
}

// How many bytes stand between two places.
fn bytes_between(from: u64, to: u64) -> usize
    requires { from ≤ to }
    ensures { from + result ≡ to }
{
    (to - from) as usize
}

impl<'p> Parser<'p> {
    /// A parser at the program's entry, with 0 for each property that no set names; a later set of one property wins. A
    /// set names a property by its place, from 0.
    pub fn new(program: &'p Verified, sets: &[(u32, u64)]) -> Result<Parser<'p>, SetFault>
        requires { length sets.now < 2 ^ 32 }
        ensures begun { IfOk result (λ parser. parser ≡ begun program.now (values_of (length program.now.program.props) sets.now)) }
        ensures stands { IfOk result (λ parser. Stands parser (values_of (length program.now.program.props) sets.now) [] [] 0 []) }
        ensures right { OnOk result (AreRight program.now.program sets.now) }
        ensures wrong { IfErr result (IsFirstWrong program.now.program sets.now) }
    {
        let props = values_for(program, sets)?;
        Ok(Parser::begin(program, props))
    }

    // A parser with these values.
    fn begin(program: &'p Verified, props: Props) -> Parser<'p>
        requires { length props ≡ length program.now.program.props }
        ensures { result ≡ begun program.now props }
    {
        let _gap = program.gap();
        Parser {
            program,
            spot: Spot {
                node: program.entry(),
                at: 0,
                carried: 0,
                props,
                spans: Spans::shut(program.spans()),
            },
            stand: Stand::Ready,
            reason: &[],
        }
    }

    /// Runs the program on the input, from where the parser stands. The host is asked what the run asks, and gets the parts
    /// of spans that lie in this input, borrowed from it; `steps` counts the states that were read.
    ///
    /// Behind a pause, once resumed, the input begins with the bytes that the pause left.
    pub fn feed<'a, H: Host<'a>, L: Ledger>(
        &mut self,
        input: &'a [u8],
        host: &mut H,
        steps: &mut Steps<L>,
    ) -> Outcome
        requires { self.old.config.at + length input.now ≤ 2 ^ 63 }
        ensures fed { IsFed H.allows H.next self.old self.new input.now (H.shown host.old) (H.shown host.new) (steps.new - steps.old) result }
        ensures adds { FeedAdds H.allows H.next self.old self.new input.now (H.shown host.old) (H.shown host.new) result }
        ensures program { self.new.program ≡ self.old.program }
        ensures within { Within self.old.config self.new.config input.now }
    {
        self.go(input, host, steps)
    }

    // The same, with what the program and the parser were before.
    fn go<'a, H: Host<'a>, L: Ledger>(
        &mut self,
        input: &'a [u8],
        host: &mut H,
        steps: &mut Steps<L>,
    ) -> Outcome
        requires { self.old.config.at + length input.now ≤ 2 ^ 63 }
        ensures fed { IsFed H.allows H.next self.old self.new input.now (H.shown host.old) (H.shown host.new) (steps.new - steps.old) result }
        ensures runnable { IsRunnable self.old.program }
        ensures kept { IsKept self.old }
    {
        let _gap = self.program.gap();
        match self.stand {
            Stand::Ready | Stand::Waiting => {}
            Stand::Paused { .. } => return Outcome::StillPaused,
            Stand::Failed { .. }
            | Stand::Stopped { .. }
            | Stand::Refused { .. }
            | Stand::Unsafe
            | Stand::Spent => return Outcome::AlreadyFailed,
            Stand::Finished => return Outcome::AlreadyFinished,
        }
        let base = self.spot.at;
        match run(self.program, &mut self.spot, input, host, steps) {
            Ended::Waits => {
                self.stand = Stand::Waiting;
                Outcome::Waits
            }
            Ended::Paused { code, next, reason } => {
                self.stand = Stand::Paused { code, next };
                self.reason = reason;
                Outcome::Paused {
                    code,
                    taken: bytes_between(base, self.spot.at),
                }
            }
            Ended::Failed { code, reason } => {
                self.stand = Stand::Failed { code };
                self.reason = reason;
                Outcome::Failed {
                    code,
                    at: self.spot.at,
                }
            }
            Ended::Stopped { answer } => {
                self.stand = Stand::Stopped { answer };
                Outcome::Stopped {
                    answer,
                    at: self.spot.at,
                }
            }
            Ended::Out => {
                self.stand = Stand::Spent;
                Outcome::HostOut
            }
        }
    }

    /// Lets a parser that is paused go on at the next feed, which may be empty.
    pub fn resume(&mut self) -> Result<(), NotPaused>
        ensures resumed { IsResumed self.old self.new result }
        ensures stands { ResumeKeeps self.old self.new }
        ensures program { self.new.program ≡ self.old.program }
    {
        match self.stand {
            Stand::Paused { next, .. } => {
                self.spot.node = next;
                self.spot.carried = 0;
                self.stand = Stand::Ready;
                Ok(())
            }
            _ => Err(NotPaused),
        }
    }

    /// Tells that the string ends here, and says by the finish rule whether it may.
    pub fn finish<'a, H: Host<'a>>(&mut self, host: &mut H) -> FinishOutcome
        ensures finished { IsFinished H.allows H.next self.old self.new (H.shown host.old) (H.shown host.new) result }
        ensures program { self.new.program ≡ self.old.program }
    {
        match self.stand {
            Stand::Ready | Stand::Waiting => {
                let (stand, outcome) = finish_by(self.program, &self.spot, host);
                self.stand = stand;
                outcome
            }
            Stand::Paused { .. } => FinishOutcome::StillPaused,
            Stand::Failed { .. }
            | Stand::Stopped { .. }
            | Stand::Refused { .. }
            | Stand::Unsafe
            | Stand::Spent => FinishOutcome::AlreadyFailed,
            Stand::Finished => FinishOutcome::AlreadyFinished,
        }
    }

    /// The value of a property, by its place.
    pub fn prop(&self, i: u32) -> u64
        requires { i < length self.now.program.program.props }
        ensures { result ≡ slice_index self.now.config.values i }
    {
        self.spot.props.get(i)
    }

    /// How many bytes of the string were taken.
    pub fn offset(&self) -> u64
        ensures { result ≡ self.now.config.at }
    {
        self.spot.at
    }

    /// Which spans are open: bit i is 1 where span i is.
    pub fn opened(&self) -> u32
        ensures { (span : ℕ) → span < 32 → (bit_at result span ≡ 1) ↔ IsOpen self.now.config.spans span }
    {
        open_bits(&self.spot.spans)
    }

    /// Where a span that is open was opened.
    pub fn from_of(&self, span: u32) -> u64
        requires { IsOpen self.now.config.spans span }
        ensures { slot self.now.config.spans span ≡ Some result }
    {
        match self.spot.spans.get(span) {
            Some(from) => from,
            None => 0,
        }
    }

    /// The reason of the pause or the error that was met last; empty before one.
    pub fn reason(&self) -> &[u8]
        ensures { result.now ≡ self.now.reason }
    {
        self.reason
    }

    /// How the parser stands.
    pub fn standing(&self) -> Standing
        ensures { SaysStanding self.now self.now.stand result }
    {
        match self.stand {
            Stand::Ready => Standing::Ready,
            Stand::Waiting => Standing::Waiting {
                node: self.program.origin(self.spot.node),
            },
            Stand::Paused { code, .. } => Standing::Paused {
                node: self.program.origin(self.spot.node),
                code,
            },
            Stand::Failed { code } => Standing::Failed { code },
            Stand::Stopped { answer } => Standing::Stopped { answer },
            Stand::Refused { answer } => Standing::Refused { answer },
            Stand::Unsafe => Standing::Unsafe,
            Stand::Spent => Standing::Spent,
            Stand::Finished => Standing::Finished,
        }
    }
}
