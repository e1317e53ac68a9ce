// The run of an input.
ghost use Rattle.std.specs.Prelude.{◌≡◌, ◌+◌, ◌-◌, ◌<◌, ◌≤◌, ◌^◌, length};
ghost use Rattle.pp_engine.specs.Spots.{config};
ghost use Rattle.pp_engine.specs.Feeds.{Fed, CanStand};

use crate::host::{Fired, fire, fire_parts};
use crate::spot::Spot;
use crate::turn::{Step, answer_by, turn_from};
use pp_event::{Host, Reply};
use pp_outside::Steps;
use pp_program::Verified;
use std::sync::ledger::Ledger;

/// How the run of an input ended.
#[derive(Clone, Copy, Debug)]
pub enum Ended<'p> {
    /// It waits for more.
    Waits,
    /// It came to a pause, which leads on to a state.
    Paused {
        code: u32,
        next: u32,
        reason: &'p [u8],
    },
    /// It came to an error.
    Failed {
        code: u32,
        reason: &'p [u8],
    },
    /// The host answered a piece with a number other than 0.
    Stopped {
        answer: u32,
    },
    /// The host refused a question.
    Out,
}

/// Runs the program on the input, from where the spot is.
pub fn run<'p, 'a, H: Host<'a>, L: Ledger>(
    program: &'p Verified,
    spot: &mut Spot,
    input: &'a [u8],
    host: &mut H,
    steps: &mut Steps<L>,
) -> Ended<'p>
    requires room { spot.old.at + length input.now ≤ 2 ^ 63 }
    requires stands { CanStand program.now.program (config spot.old) }
    ensures { Fed H.allows H.next program.now.program program.now.gap (config spot.old) (config spot.new) input.now (H.shown host.old) (H.shown host.new) (steps.new - steps.old) result }
{
    let _gap = program.gap();
    let base = spot.at;
    let mut taken: usize = 0;
    'run: loop {
        let instr = program.fetch(spot.node, steps);
        match turn_from(spot, instr, input, taken) {
            Step::Goes { takes } => {
                taken += takes;
            }
            Step::Closes { span, from } => {
                match fire(host, span, input, base, from, spot.at, true) {
                    Fired::All => {}
                    Fired::Stopped { answer } => return Ended::Stopped { answer },
                    Fired::Out => return Ended::Out,
                }
            }
            Step::Asks { host: code } => {
                match host.call(code, u64::from(spot.carried), spot.at, &spot.props) {
                    Reply::Is(answer) => answer_by(spot, instr, answer),
                    Reply::NoMemory => return Ended::Out,
                }
            }
            Step::Rests => match fire_parts(host, &spot.spans, input, base, spot.at) {
                Fired::All => return Ended::Waits,
                Fired::Stopped { answer } => return Ended::Stopped { answer },
                Fired::Out => return Ended::Out,
            },
            Step::Stops { code, next, reason } => {
                match fire_parts(host, &spot.spans, input, base, spot.at) {
                    Fired::All => return Ended::Paused { code, next, reason },
                    Fired::Stopped { answer } => return Ended::Stopped { answer },
                    Fired::Out => return Ended::Out,
                }
            }
            Step::Fails { code, reason } => return Ended::Failed { code, reason },
        }
    }
}
