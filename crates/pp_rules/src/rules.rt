// The rules, tried over the calls in order. Each has its module, or shares it with those that are tried together.
ghost use Rattle.std.specs.Prelude.{◌≡◌, ◌<◌, ◌≤◌, ◌^◌, length, false, IsNone, IfSome, IfOk};
ghost use Rattle.pp_rules.specs.Rules.{KeepsRules, IsFirstFault, FailsAt, fails_at_end};
ghost use Rattle.pp_rules.specs.declared.rules.GraphRule.{GraphRule as Rule};
ghost use Rattle.pp_rules.specs.declared.rules.GraphRule.TheVariants as rules;
ghost use Rattle.pp_rules.specs.Sets.{all_calls, AreSets};
ghost use Rattle.pp_rules.specs.Rules.Texts.{text_of};
ghost use Rattle.pp_rules.specs.steps.Least.{IsLeast};
ghost use Rattle.pp_rules.specs.steps.Seen.{IsByName, IsFirstFailing};
ghost use Rattle.pp_rules.specs.steps.EdgeFaults.{AreEdgeFaults};

pub(crate) mod clash;
pub(crate) mod form;
pub(crate) mod limits;
pub(crate) mod looking_back;
pub(crate) mod names;
pub(crate) mod numbers;
pub(crate) mod otherwise;
pub(crate) mod sorted_keys;

use crate::call::BuilderCall;
use crate::kept::number_of;
use crate::rules::form::first_empty_key;
use crate::rules::looking_back::{LookingBack, first_looking_back};
use crate::rules::names::first_unknown;
use crate::rules::numbers::{Values, first_too_wide, first_value_fault};
use crate::rules::otherwise::first_without_otherwise;
use crate::rules::sorted_keys::faults::lesser;
use crate::rules::sorted_keys::first_key_faults;
use pp_bytes::ByteSet;
use std::alloc::{AllocError, Global};
use std::error::Error;
use std::fmt;

/// The rules of a graph, in the order in which they are tried.
#[derive(Clone, Copy, Debug, PartialEq, Eq)]
pub enum GraphRule {
    /// A name that an earlier one of its kind has; a second entry or finish rule.
    DuplicateName,
    /// A call that names what is nowhere declared.
    UnknownName,
    /// No call gives the entry.
    NoEntry,
    /// A node other than an error has no otherwise.
    NoOtherwise,
    /// The later of two equal keys, peek bytes or answer numbers of one node, or of a peek byte and a key that
    /// begins with it.
    KeyClash,
    /// The later of two keys of one node where one is a proper prefix of the other and a longer proper prefix of
    /// the longer key isn't a key.
    PrefixGap,
    /// An edge with a number to a node that isn't an invoke of signature value; an edge without one, or the entry,
    /// to an invoke of signature value; a finish host of signature value.
    ValueTarget,
    /// A constant or a most wider than its property; a number that an edge carries wider than the property that
    /// its target stores.
    ValueTooWide,
    /// An empty key.
    EmptyKey,
    /// A key or a peek byte from A to Z in a node that compares in lower case.
    KeyNotFolded,
    /// A count passes its limit: 4,096 nodes, 64 properties, 32 spans, 64 host codes, 2,048 keys of one node, 64
    /// bytes of a key, and a weight of 20,000 key bytes, peek bytes and answers over all nodes.
    TooMany,
}

impl GraphRule {
    /// The rule's name, as faults tell it.
    pub fn text(self) -> &'static str
        ensures { result.now ≡ text_of self }
    {
        match self {
            GraphRule::DuplicateName => "duplicate name",
            GraphRule::UnknownName => "unknown name",
            GraphRule::NoEntry => "no entry",
            GraphRule::NoOtherwise => "no otherwise",
            GraphRule::KeyClash => "key clash",
            GraphRule::PrefixGap => "prefix gap",
            GraphRule::ValueTarget => "value target",
            GraphRule::ValueTooWide => "value too wide",
            GraphRule::EmptyKey => "empty key",
            GraphRule::KeyNotFolded => "key not folded",
            GraphRule::TooMany => "too many",
        }
    }
}

impl fmt::Display for GraphRule {
    ghost use Rattle.std.specs.Prelude.{Some};
    ghost use Rattle.pp_rules.specs.Rules.Texts.{text_of};

    ghost output = { λ rule. Some (text_of rule) };

    fn fmt<W: fmt::Write>(&self, f: &mut fmt::Formatter<W>) -> fmt::Result {
        f.write(self.text())
    }
}

impl Error for GraphRule {}

const RULES: [GraphRule; 11] = [
    GraphRule::DuplicateName,
    GraphRule::UnknownName,
    GraphRule::NoEntry,
    GraphRule::NoOtherwise,
    GraphRule::KeyClash,
    GraphRule::PrefixGap,
    GraphRule::ValueTarget,
    GraphRule::ValueTooWide,
    GraphRule::EmptyKey,
    GraphRule::KeyNotFolded,
    GraphRule::TooMany,
];

/// The first rule that fails, and the first call at which it does: of all the calls that the kept ones stand for, with
/// the set of each.
pub fn first_fault(
    alloc: Global,
    values: &Values<'_>,
    sets: &[Option<ByteSet>],
) -> Result<Option<(GraphRule, usize)>, AllocError>
    requires sets { AreSets values.now sets.now }
    requires small { length (all_calls values.now sets.now) < 2 ^ 32 }
    ensures none { IfOk result (λ found. IsNone found → KeepsRules (all_calls values.now sets.now)) }
    ensures first { IfOk result (λ found. IfSome found (λ fault. IsFirstFault (all_calls values.now sets.now) fault.0 fault.1)) }
    ensures within { IfOk result (λ found. IfSome found (λ fault. fault.1 ≤ length (all_calls values.now sets.now))) }
{
    let edges = edge_faults(alloc, values.declared().calls(), sets)?;
    for rule in RULES {
        if let Some(call) = first_failure(rule, values, sets, edges) {
            return Ok(Some((rule, call)));
        }
    }
    Ok(None)
}

// The first call at which a rule fails; the count of all calls stands for the end.
fn first_failure(
    rule: GraphRule,
    values: &Values<'_>,
    sets: &[Option<ByteSet>],
    edges: EdgeFaults,
) -> Option<usize>
    requires edges { AreEdgeFaults (all_calls values.now sets.now) edges }
    requires sets { AreSets values.now sets.now }
    requires small { length (all_calls values.now sets.now) < 2 ^ 32 }
    ensures { IsLeast (FailsAt rule (all_calls values.now sets.now)) result }
{
    let declared = values.declared();
    match rule {
        GraphRule::DuplicateName => number_at(values, sets, declared.duplicate()),
        GraphRule::UnknownName => number_at(values, sets, first_unknown(declared)),
        GraphRule::NoEntry => end_without_entry(values, sets),
        GraphRule::NoOtherwise => number_at(values, sets, first_without_otherwise(values)),
        GraphRule::KeyClash => edges.clash,
        GraphRule::PrefixGap => edges.gap,
        GraphRule::ValueTarget => number_at(values, sets, first_value_fault(values)),
        GraphRule::ValueTooWide => number_at(values, sets, first_too_wide(values)),
        GraphRule::EmptyKey => number_at(values, sets, first_empty_key(values)),
        GraphRule::KeyNotFolded => edges.not_folded,
        GraphRule::TooMany => edges.too_many,
    }
}

// The first calls at which the rules fail that ask for the byte of an edge.
#[derive(Clone, Copy)]
struct EdgeFaults {
    clash: Option<usize>,
    gap: Option<usize>,
    not_folded: Option<usize>,
    too_many: Option<usize>,
}

fn edge_faults(
    alloc: Global,
    calls: &[BuilderCall],
    sets: &[Option<ByteSet>],
) -> Result<EdgeFaults, AllocError>
    requires sets { AreSets calls.now sets.now }
    requires small { length (all_calls calls.now sets.now) < 2 ^ 32 }
    ensures { IfOk result (AreEdgeFaults (all_calls calls.now sets.now)) }
{
    let keys = first_key_faults(alloc, calls, sets)?;
    let clash = first_looking_back(alloc, LookingBack::KeyClash, calls, sets)?;
    let not_folded = first_looking_back(alloc, LookingBack::KeyNotFolded, calls, sets)?;
    let too_many = first_looking_back(alloc, LookingBack::TooMany, calls, sets)?;
    Ok(EdgeFaults {
        clash: lesser(clash, keys.again),
        gap: keys.gap,
        not_folded,
        too_many,
    })
}

// The number among all calls of the first kept one at which a rule fails that asks nothing of the byte of an edge.
fn number_at(values: &Values<'_>, sets: &[Option<ByteSet>], place: Option<usize>) -> Option<usize>
    requires within { IfSome place (λ p. p < length values.now) }
    requires sets { AreSets values.now sets.now }
    requires small { length (all_calls values.now sets.now) < 2 ^ 32 }
    ensures { (rule : Rule) → IsByName rule → fails_at_end rule values.now ≡ false → IsFirstFailing rule values.now place → IsLeast (FailsAt rule (all_calls values.now sets.now)) result }
{
    match place {
        Some(place) => Some(number_of(sets, place)),
        None => None,
    }
}

// The count of all calls, if none of them gives the entry.
fn end_without_entry(values: &Values<'_>, sets: &[Option<ByteSet>]) -> Option<usize>
    requires sets { AreSets values.now sets.now }
    requires small { length (all_calls values.now sets.now) < 2 ^ 32 }
    ensures { IsLeast (FailsAt rules.NoEntry (all_calls values.now sets.now)) result }
{
    if values.declared().has_entry() {
        None
    } else {
        Some(number_of(sets, sets.len()))
    }
}
