// The finish rule.
ghost use Rattle.pp_engine.specs.Spots.{config};
ghost use Rattle.pp_engine.specs.Feeds.{Fits};
ghost use Rattle.pp_engine.specs.Finishing.{ByRule};

use crate::spot::Spot;
use crate::standing::{FinishOutcome, Stand};
use pp_event::{Host, Reply};
use pp_program::Verified;

/// How a parser at the spot stands once it is told that the string ends there, and what it answers.
pub fn finish_by<'a, H: Host<'a>>(
    program: &Verified,
    spot: &Spot,
    host: &mut H,
) -> (Stand, FinishOutcome)
    requires { Fits program.now.program (config spot.now) }
    ensures { ByRule H.allows H.next (config spot.now) (H.shown host.old) (H.shown host.new) result program.now.program.finish }
{
    let _gap = program.gap();
    let Some((prop, code)) = program.finish_rule() else {
        return (Stand::Finished, FinishOutcome::Done);
    };
    match spot.props.get(prop) {
        0 => (Stand::Finished, FinishOutcome::Done),
        1 => match host.call(code, 0, spot.at, &spot.props) {
            Reply::Is(0) => (Stand::Finished, FinishOutcome::Done),
            Reply::Is(answer) => (Stand::Refused { answer }, FinishOutcome::Refused { answer }),
            Reply::NoMemory => (Stand::Spent, FinishOutcome::HostOut),
        },
        _ => (Stand::Unsafe, FinishOutcome::Unsafe { at: spot.at }),
    }
}
