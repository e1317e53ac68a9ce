// What calls name.
ghost use Rattle.std.specs.Prelude.{◌≡◌, not, ◌<◌, length, IfSome};
ghost use Rattle.std.specs.List.{list_any};
ghost use Rattle.pp_rules.specs.declared.rules.GraphRule.TheVariants as rules;
ghost use Rattle.pp_rules.specs.steps.Seen.{IsFirstFailing};
ghost use Rattle.pp_rules.specs.Calls.{is_declared as is_declared_of, named_by_kind, named_by_code};
ghost use Rattle.pp_rules.specs.Rules.Names.{names_unknown as names_unknown_of};

use crate::call::{BuilderCall, NamedCode, NamedKind, Sort};
use crate::declared::Declared;

/// The first call that names what no call declares.
pub(crate) fn first_unknown(declared: &Declared<'_>) -> Option<usize>
    ensures first { IsFirstFailing rules.UnknownName declared.now result }
    ensures within { IfSome result (λ i. i < length declared.now) }
{
    let calls = declared.calls();
    for i in 0..calls.len() {
        if names_unknown(declared, &calls[i]) {
            return Some(i);
        }
    }
    None
}

// Whether no call at all declares something that a call names.
fn names_unknown(declared: &Declared<'_>, call: &BuilderCall) -> bool
    ensures { result ≡ names_unknown_of declared.now call.now }
{
    match call {
        BuilderCall::Prop { .. } | BuilderCall::Host { .. } | BuilderCall::Span { .. } => false,
        BuilderCall::Entry { node } => !declared.has(Sort::Node, node),
        BuilderCall::Finish { prop, host } => {
            !declared.has(Sort::Prop, prop) || !declared.has(Sort::Host, host)
        }
        BuilderCall::Node { kind, .. } => kind_names_unknown(declared, kind),
        BuilderCall::Edge { target, .. } => !declared.has(Sort::Node, target),
    }
}

fn kind_names_unknown(declared: &Declared<'_>, kind: &NamedKind) -> bool
    ensures { result ≡ list_any (λ named. not (is_declared_of declared.now named)) (named_by_kind kind.now) }
{
    match kind {
        NamedKind::Match { .. } | NamedKind::Pause { .. } | NamedKind::Fail { .. } => false,
        NamedKind::Invoke { code } => code_names_unknown(declared, code),
        NamedKind::Consume { prop } => !declared.has(Sort::Prop, prop),
        NamedKind::SpanOpen { span } | NamedKind::SpanClose { span } => {
            !declared.has(Sort::Span, span)
        }
    }
}

fn code_names_unknown(declared: &Declared<'_>, code: &NamedCode) -> bool
    ensures { result ≡ not (is_declared_of declared.now (named_by_code code.now)) }
{
    match code {
        NamedCode::Call { host } => !declared.has(Sort::Host, host),
        NamedCode::Store { prop }
        | NamedCode::Load { prop }
        | NamedCode::Constant { prop, .. }
        | NamedCode::MulAdd { prop, .. } => !declared.has(Sort::Prop, prop),
    }
}
