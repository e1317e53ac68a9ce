// The first faults of keys of all calls that sorting tells: the nodes one by one, each by the places of its keys.
ghost use Rattle.std.specs.Prelude.{◌+◌, ◌^◌, ◌<◌, length, IfOk};
ghost use Rattle.pp_rules.specs.Calls.{own_calls as own_calls_of};
ghost use Rattle.pp_rules.specs.Rules.{FailsAt};
ghost use Rattle.pp_rules.specs.Sets.{all_calls, AreSets};
ghost use Rattle.pp_rules.specs.steps.Least.{IsFrom};
ghost use Rattle.pp_rules.specs.steps.Clashes.{ComesAgainAt};
ghost use Rattle.pp_rules.specs.steps.Gaps.{IsGapAt};
ghost use Rattle.pp_rules.specs.steps.KeyFaults.{AreFirst, IsAgainAt};

pub(crate) mod faults;
pub(crate) mod head;
pub(crate) mod places;

use crate::call::{BuilderCall, is_node, own_calls};
use crate::kept::size_of;
use crate::rules::GraphRule;
use crate::rules::sorted_keys::faults::KeyFaults;
use crate::rules::sorted_keys::places::first_places;
use pp_bytes::ByteSet;
use std::alloc::{AllocError, Global};

/// The first call at which a key of none or of several bytes comes again in a node, and the first at which a key leaves a
/// gap with an earlier key of the same node, of all the calls that the kept ones stand for, with the set of each.
pub(crate) fn first_key_faults(
    alloc: Global,
    calls: &[BuilderCall],
    sets: &[Option<ByteSet>],
) -> Result<KeyFaults, AllocError>
    requires sets { AreSets calls.now sets.now }
    requires small { length (all_calls calls.now sets.now) < 2 ^ 32 }
    ensures { IfOk result (AreFirst (ComesAgainAt (all_calls calls.now sets.now)) (FailsAt GraphRule.PrefixGap (all_calls calls.now sets.now))) }
{
    let mut found = first_of_node(alloc, calls, sets, 0)?;
    let mut number = 0;
    for i in 0..calls.len() {
        number += size_of(&sets[i]);
        if is_node(&calls[i]) {
            let behind = first_of_node(alloc, &calls[i + 1..], &sets[i + 1..], number)?;
            found = found.earlier(behind);
        }
    }
    Ok(found)
}

// The same among the calls up to the next node, of which the first has this number.
fn first_of_node(
    alloc: Global,
    calls: &[BuilderCall],
    sets: &[Option<ByteSet>],
    number: usize,
) -> Result<KeyFaults, AllocError>
    requires sets { AreSets calls.now sets.now }
    requires small { number + length (all_calls calls.now sets.now) < 2 ^ 64 }
    ensures { IfOk result (AreFirst (IsFrom (IsAgainAt (own_calls_of (all_calls calls.now sets.now))) number) (IsFrom (IsGapAt (own_calls_of (all_calls calls.now sets.now))) number)) }
{
    let own = own_calls(calls);
    let places = first_places(alloc, own, &sets[..own.len()])?;
    Ok(places.counted_from(number))
}
