// The values that a parser begins with.
ghost use Rattle.std.specs.Prelude.{◌≡◌, ◌<◌, ◌^◌, IfOk, IfErr, OnOk, length};
ghost use Rattle.pp_event.specs.Values.{values_of};
ghost use Rattle.pp_engine.specs.Sets.{AreRight, IsFirstWrong, IsFaultOf};

use pp_event::Props;
use pp_program::{Verified, greatest};
use thiserror::Error;

/// Why a parser isn't made. Sets are counted from 0.
#[derive(Clone, Copy, Debug, PartialEq, Eq, Error)]
pub enum SetFault {
    /// The program has no property at this place.
    #[error("set {set} names no property")]
    UnknownProp { set: u32 },
    /// The property can't hold the value.
    #[error("set {set} has a value too wide for its property")]
    TooWide { set: u32 },
}

// The fault of a set, if it has one.
fn fault_of(program: &Verified, set: u32, prop: u32, value: u64) -> Option<SetFault>
    ensures { IsFaultOf program.now.program (prop, value) set result }
{
    if program.props() <= prop {
        return Some(SetFault::UnknownProp { set });
    }
    if greatest(program.prop(prop).width) < value {
        return Some(SetFault::TooWide { set });
    }
    None
}

/// The values of the properties by these sets: 0 where there is none, and of several sets of one property the last.
pub(crate) fn values_for(program: &Verified, sets: &[(u32, u64)]) -> Result<Props, SetFault>
    requires { length sets.now < 2 ^ 32 }
    ensures values { IfOk result (λ props. props ≡ values_of (length program.now.program.props) sets.now) }
    ensures right { OnOk result (AreRight program.now.program sets.now) }
    ensures wrong { IfErr result (IsFirstWrong program.now.program sets.now) }
{
    let _gap = program.gap();
    let mut props = Props::zeros(program.props());
    for i in 0..sets.len() {
        let (prop, value) = sets[i];
        if let Some(fault) = fault_of(program, i as u32, prop, value) {
            return Err(fault);
        }
        props.set(prop, value);
    }
    Ok(props)
}
