// Programs that break a rule, and those that just keep it.
ghost use Rattle.std.specs.Prelude.{◌≤◌, length};

use pp_bytes::{Fold, Listed, Ranges};
use pp_graph::{Answer, Code};
use pp_program::{
    Edge, Instr, Program, Rest, State, VerifyFault, VerifyRule, is_countable, verify,
};
use pp_rules::{HostDecl, Name, PropDecl, Reason, SpanDecl, Width};
use std::alloc::Global;
use std::test::Fail;

// What a program declares: properties by their widths, host codes by whether they are asked with a value, and how many
// spans and names there are.
#[derive(Clone, Copy, Debug)]
struct Declared<'a> {
    widths: &'a [Width],
    hosts: &'a [bool],
    spans: u32,
    names: u32,
}

// One name, and nothing else.
fn one_name() -> Declared<'static> {
    Declared {
        widths: &[],
        hosts: &[],
        spans: 0,
        names: 1,
    }
}

// A property of 8 bits and one of 32, a host code that is asked with a value and one without, a span and a name.
fn one_of_each() -> Declared<'static> {
    Declared {
        widths: &[Width::W8, Width::W32],
        hosts: &[true, false],
        spans: 1,
        names: 1,
    }
}

// A name of three letters for a number.
fn name_of(alloc: Global, i: u32) -> Result<Name, Fail> {
    let text = [
        b'a' + (i / 676 % 26) as u8,
        b'a' + (i / 26 % 26) as u8,
        b'a' + (i % 26) as u8,
    ];
    Ok(Name::new(alloc, &text)?)
}

fn props_of(alloc: Global, widths: &[Width]) -> Result<Vec<PropDecl>, Fail> {
    let mut props = Vec::new(alloc);
    let mut i = 0u32;
    for width in widths {
        props.push(PropDecl {
            name: name_of(alloc, i)?,
            width: *width,
        })?;
        i = i.wrapping_add(1);
    }
    Ok(props)
}

fn hosts_of(alloc: Global, values: &[bool]) -> Result<Vec<HostDecl>, Fail> {
    let mut hosts = Vec::new(alloc);
    let mut i = 0u32;
    for value in values {
        hosts.push(HostDecl {
            name: name_of(alloc, i)?,
            value: *value,
        })?;
        i = i.wrapping_add(1);
    }
    Ok(hosts)
}

fn spans_of(alloc: Global, count: u32) -> Result<Vec<SpanDecl>, Fail> {
    let mut spans = Vec::new(alloc);
    for i in 0..count {
        spans.push(SpanDecl {
            name: name_of(alloc, i)?,
        })?;
    }
    Ok(spans)
}

fn names_of(alloc: Global, count: u32) -> Result<Vec<Name>, Fail> {
    let mut names = Vec::new(alloc);
    for i in 0..count {
        names.push(name_of(alloc, i)?)?;
    }
    Ok(names)
}

fn states_of(alloc: Global, instrs: Vec<Instr>) -> Result<Vec<State>, Fail> {
    let mut states = Vec::new(alloc);
    for instr in instrs {
        states.push(State { origin: 0, instr })?;
    }
    Ok(states)
}

// A program that begins at its first state.
fn program_of(alloc: Global, declared: Declared<'_>, instrs: Vec<Instr>) -> Result<Program, Fail> {
    Ok(Program {
        props: Listed::of(props_of(alloc, declared.widths)?),
        hosts: Listed::of(hosts_of(alloc, declared.hosts)?),
        spans: Listed::of(spans_of(alloc, declared.spans)?),
        names: Listed::of(names_of(alloc, declared.names)?),
        states: Listed::of(states_of(alloc, instrs)?),
        entry: 0,
        finish: None,
    })
}

// Why a program is refused, if it is.
fn fault_of(alloc: Global, program: Program) -> Result<Option<VerifyFault>, Fail> {
    if !is_countable(&program) {
        return Err(Fail::from("it can't be counted"));
    }
    Ok(verify(alloc, program).err())
}

// The same of these states.
fn tried(
    alloc: Global,
    declared: Declared<'_>,
    instrs: Vec<Instr>,
) -> Result<Option<VerifyFault>, Fail> {
    fault_of(alloc, program_of(alloc, declared, instrs)?)
}

fn at(rule: VerifyRule, at: u32) -> Option<VerifyFault> {
    Some(VerifyFault::Broken { rule, at })
}

// An error.
fn fails(alloc: Global) -> Result<Instr, Fail> {
    Ok(Instr::Fail {
        code: 1,
        reason: Reason::new(alloc, b"no")?,
    })
}

fn pause(alloc: Global, reason: &[u8], next: u32) -> Result<Instr, Fail>
    requires { length reason.now ≤ 255 }
{
    Ok(Instr::Pause {
        code: 1,
        reason: Reason::new(alloc, reason)?,
        next,
    })
}

// A branch without a stay.
fn branch<const N: usize>(
    alloc: Global,
    fold: Fold,
    edges: [Edge; N],
    rest: Rest,
) -> Result<Instr, Fail> {
    Ok(Instr::Branch {
        fold,
        stay: Ranges::new(),
        edges: Listed::of(Vec::from_array(alloc, edges)?),
        rest,
    })
}

fn invoke<const N: usize>(
    alloc: Global,
    code: Code,
    answers: [Answer; N],
    other: u32,
) -> Result<Instr, Fail> {
    Ok(Instr::Invoke {
        code,
        answers: Listed::of(Vec::from_array(alloc, answers)?),
        other,
    })
}

// An edge that takes its byte.
fn takes(lo: u8, hi: u8, number: Option<u32>, target: u32) -> Edge {
    Edge {
        lo,
        hi,
        take: true,
        number,
        target,
    }
}

// An edge that looks at its byte.
fn looks(lo: u8, hi: u8, target: u32) -> Edge {
    Edge {
        lo,
        hi,
        take: false,
        number: None,
        target,
    }
}

fn rest(skip: bool, number: Option<u32>, target: u32) -> Rest {
    Rest {
        skip,
        number,
        target,
    }
}

// Refusals of a first state with an error behind it.
fn with_fail(
    alloc: Global,
    declared: Declared<'_>,
    first: Instr,
) -> Result<Option<VerifyFault>, Fail> {
    let mut instrs = Vec::new(alloc);
    instrs.push(first)?;
    instrs.push(fails(alloc)?)?;
    tried(alloc, declared, instrs)
}

// Refusals of two states with an error behind them.
fn two_with_fail(
    alloc: Global,
    declared: Declared<'_>,
    first: Instr,
    second: Instr,
) -> Result<Option<VerifyFault>, Fail> {
    let mut instrs = Vec::new(alloc);
    instrs.push(first)?;
    instrs.push(second)?;
    instrs.push(fails(alloc)?)?;
    tried(alloc, declared, instrs)
}

#[test]
fn edges_have_their_form(rt: HostRuntime) -> Result<(), Fail> {
    let alloc = rt.alloc();
    let wrong = at(VerifyRule::Target, 0);
    for (edges, want) in [
        // in order, not alike
        (
            [takes(b'a', b'b', None, 0), takes(b'c', b'd', None, 1)],
            None,
        ),
        // alike, with a byte between
        (
            [takes(b'a', b'b', None, 0), takes(b'd', b'd', None, 0)],
            None,
        ),
        // one edge in two parts
        (
            [takes(b'a', b'b', None, 0), takes(b'c', b'd', None, 0)],
            wrong,
        ),
        // a byte of two edges
        (
            [takes(b'a', b'c', None, 0), takes(b'c', b'd', None, 1)],
            wrong,
        ),
        // no bytes
        (
            [takes(b'b', b'a', None, 0), takes(b'c', b'd', None, 1)],
            wrong,
        ),
        // nowhere
        (
            [takes(b'a', b'b', None, 0), takes(b'c', b'd', None, 2)],
            wrong,
        ),
        // a number to an error
        (
            [takes(b'a', b'b', None, 0), takes(b'c', b'd', Some(1), 1)],
            wrong,
        ),
    ] {
        let first = branch(alloc, Fold::Same, edges, rest(false, None, 1))?;
        assert_eq!(rt; with_fail(alloc, one_name(), first)?, want);
    }
    Ok(())
}

#[test]
fn numbers_go_where_they_are_used(rt: HostRuntime) -> Result<(), Fail> {
    let alloc = rt.alloc();
    let wrong = at(VerifyRule::Target, 0);
    let looks_with_number = Edge {
        lo: b'a',
        hi: b'a',
        take: false,
        number: Some(1),
        target: 1,
    };
    for (edge, last, want) in [
        (takes(b'a', b'a', Some(1), 1), rest(false, None, 2), None),
        (takes(b'a', b'a', None, 2), rest(false, Some(1), 1), None),
        // a store without a number
        (takes(b'a', b'a', None, 1), rest(false, None, 2), wrong),
        // a number on an edge that only looks, and on a skip
        (looks_with_number, rest(false, None, 2), wrong),
        (takes(b'a', b'a', Some(1), 1), rest(true, Some(1), 1), wrong),
    ] {
        let first = branch(alloc, Fold::Same, [edge], last)?;
        let second = invoke(alloc, Code::Store { prop: 1 }, [], 2)?;
        assert_eq!(rt; two_with_fail(alloc, one_of_each(), first, second)?, want);
    }
    Ok(())
}

#[test]
fn codes_name_what_is_there(rt: HostRuntime) -> Result<(), Fail> {
    let alloc = rt.alloc();
    let wrong = at(VerifyRule::Target, 0);
    for (code, want) in [
        (Code::Call { host: 1 }, None),
        (Code::Load { prop: 1 }, None),
        (Code::Call { host: 2 }, wrong),
        (Code::Load { prop: 2 }, wrong),
        (
            Code::Update {
                prop: 0,
                value: 255,
            },
            None,
        ),
        (
            Code::Update {
                prop: 0,
                value: 256,
            },
            at(VerifyRule::Width, 0),
        ),
        (
            Code::Test {
                prop: 1,
                value: 0xffff_ffff,
            },
            None,
        ),
        (
            Code::Test {
                prop: 1,
                value: 0x1_0000_0000,
            },
            at(VerifyRule::Width, 0),
        ),
    ] {
        let first = invoke(alloc, code, [], 1)?;
        assert_eq!(rt; with_fail(alloc, one_of_each(), first)?, want);
    }
    let consume = Instr::Consume { prop: 2, next: 1 };
    assert_eq!(rt; with_fail(alloc, one_of_each(), consume)?, wrong);
    let open = Instr::SpanOpen { span: 1, next: 1 };
    assert_eq!(rt; with_fail(alloc, one_of_each(), open)?, wrong);
    Ok(())
}

#[test]
fn answers_stand_by_their_numbers(rt: HostRuntime) -> Result<(), Fail> {
    let alloc = rt.alloc();
    for (second, want) in [(2, None), (1, at(VerifyRule::Target, 0))] {
        let answers = [
            Answer {
                number: 1,
                target: 1,
            },
            Answer {
                number: second,
                target: 1,
            },
        ];
        let first = invoke(alloc, Code::Load { prop: 0 }, answers, 1)?;
        assert_eq!(rt; with_fail(alloc, one_of_each(), first)?, want);
    }
    Ok(())
}

#[test]
fn an_edge_carries_what_its_target_can_hold(rt: HostRuntime) -> Result<(), Fail> {
    let alloc = rt.alloc();
    for (number, prop, want) in [
        (255, 0, None),
        (256, 0, at(VerifyRule::Width, 0)),
        (256, 1, None),
    ] {
        let edge = takes(b'a', b'a', Some(number), 1);
        let first = branch(alloc, Fold::Same, [edge], rest(false, None, 2))?;
        let second = invoke(alloc, Code::Store { prop }, [], 2)?;
        assert_eq!(rt; two_with_fail(alloc, one_of_each(), first, second)?, want);
    }
    Ok(())
}

#[test]
fn moves_that_take_no_byte_form_no_cycle(rt: HostRuntime) -> Result<(), Fail> {
    let alloc = rt.alloc();
    for (fold, edge, last, want) in [
        // a rest that leads back, and a skip that does
        (
            Fold::Same,
            takes(b'a', b'a', None, 1),
            rest(false, None, 0),
            at(VerifyRule::Loop, 0),
        ),
        (
            Fold::Same,
            takes(b'a', b'a', None, 1),
            rest(true, None, 0),
            None,
        ),
        // an edge that looks at a byte and leads back, also where no byte folds to it
        (
            Fold::Same,
            looks(b'A', b'Z', 0),
            rest(false, None, 1),
            at(VerifyRule::Loop, 0),
        ),
        (
            Fold::Lower,
            looks(b'A', b'Z', 0),
            rest(false, None, 1),
            None,
        ),
    ] {
        let first = branch(alloc, fold, [edge], last)?;
        assert_eq!(rt; with_fail(alloc, one_name(), first)?, want);
    }
    // a pause and an answer that lead back
    let second = pause(alloc, b"so", 1)?;
    let first = pause(alloc, b"so", 1)?;
    assert_eq!(rt;
        two_with_fail(alloc, one_name(), first, second)?,
        at(VerifyRule::Loop, 1)
    );
    let answers = [Answer {
        number: 7,
        target: 0,
    }];
    let first = invoke(alloc, Code::Load { prop: 0 }, answers, 1)?;
    assert_eq!(rt;
        with_fail(alloc, one_of_each(), first)?,
        at(VerifyRule::Loop, 0)
    );
    Ok(())
}

#[test]
fn spans_open_shut_and_close_open(rt: HostRuntime) -> Result<(), Fail> {
    let alloc = rt.alloc();
    let open = Instr::SpanOpen { span: 0, next: 1 };
    let close = Instr::SpanClose { span: 0, next: 2 };
    assert_eq!(rt; two_with_fail(alloc, one_of_each(), open, close)?, None);
    let open = Instr::SpanOpen { span: 0, next: 1 };
    let again = Instr::SpanOpen { span: 0, next: 2 };
    assert_eq!(rt;
        two_with_fail(alloc, one_of_each(), open, again)?,
        at(VerifyRule::Spans, 1)
    );
    let close = Instr::SpanClose { span: 0, next: 1 };
    assert_eq!(rt;
        with_fail(alloc, one_of_each(), close)?,
        at(VerifyRule::Spans, 0)
    );
    Ok(())
}

#[test]
fn a_span_stands_one_way_but_at_errors(rt: HostRuntime) -> Result<(), Fail> {
    let alloc = rt.alloc();
    // state 0 leads to state 1, which opens the span, and to the state behind it, also where no byte folds to that edge
    for (fold, target, want) in [
        (Fold::Same, 3, None),
        (Fold::Same, 2, at(VerifyRule::Spans, 2)),
        (Fold::Lower, 2, at(VerifyRule::Spans, 2)),
    ] {
        let edge = takes(b'A', b'A', None, target);
        let mut instrs = Vec::new(alloc);
        instrs.push(branch(alloc, fold, [edge], rest(false, None, 1))?)?;
        instrs.push(Instr::SpanOpen { span: 0, next: 2 })?;
        instrs.push(pause(alloc, b"so", 3)?)?;
        instrs.push(fails(alloc)?)?;
        assert_eq!(rt; tried(alloc, one_of_each(), instrs)?, want);
    }
    Ok(())
}

#[test]
fn reasons_have_their_form(rt: HostRuntime) -> Result<(), Fail> {
    let alloc = rt.alloc();
    // two properties, two host codes, a span and a name stand before the reasons, and the error's before the pause's
    for (reason, want) in [
        (b"so".as_slice(), None),
        (b"".as_slice(), at(VerifyRule::Names, 7)),
        (b"\"".as_slice(), at(VerifyRule::Names, 7)),
        ([b'x'; 80].as_slice(), None),
        ([b'x'; 81].as_slice(), at(VerifyRule::Names, 7)),
    ] {
        let mut instrs = Vec::new(alloc);
        instrs.push(Instr::SpanOpen { span: 0, next: 2 })?;
        instrs.push(fails(alloc)?)?;
        instrs.push(pause(alloc, reason, 1)?)?;
        assert_eq!(rt; tried(alloc, one_of_each(), instrs)?, want);
    }
    Ok(())
}

#[test]
fn the_earlier_rule_is_told(rt: HostRuntime) -> Result<(), Fail> {
    let alloc = rt.alloc();
    // a width in state 0 and a target in state 1
    let wide = invoke(
        alloc,
        Code::Update {
            prop: 0,
            value: 256,
        },
        [],
        1,
    )?;
    assert_eq!(rt;
        two_with_fail(alloc, one_of_each(), wide, pause(alloc, b"so", 3)?)?,
        at(VerifyRule::Target, 1)
    );
    // a loop in state 0 and a width in state 1
    let narrow = invoke(
        alloc,
        Code::Update {
            prop: 0,
            value: 256,
        },
        [],
        2,
    )?;
    assert_eq!(rt;
        two_with_fail(alloc, one_of_each(), pause(alloc, b"so", 0)?, narrow)?,
        at(VerifyRule::Width, 1)
    );
    // a span closed in state 0 and a loop in state 1; a reason in state 0 and a span in state 1
    let close = Instr::SpanClose { span: 0, next: 1 };
    assert_eq!(rt;
        two_with_fail(alloc, one_of_each(), close, pause(alloc, b"so", 1)?)?,
        at(VerifyRule::Loop, 1)
    );
    let close = Instr::SpanClose { span: 0, next: 2 };
    assert_eq!(rt;
        two_with_fail(alloc, one_of_each(), pause(alloc, b"", 1)?, close)?,
        at(VerifyRule::Spans, 1)
    );
    Ok(())
}

// A program of one error, which declares this.
fn declares(alloc: Global, declared: Declared<'_>) -> Result<Program, Fail> {
    let mut instrs = Vec::new(alloc);
    instrs.push(fails(alloc)?)?;
    program_of(alloc, declared, instrs)
}

#[test]
fn counts_have_a_limit(rt: HostRuntime) -> Result<(), Fail> {
    let alloc = rt.alloc();
    let wrong = at(VerifyRule::Target, 1);
    for (props, hosts, spans, names, want) in [
        (64, 64, 32, 4096, None),
        (65, 64, 32, 4096, wrong),
        (64, 65, 32, 4096, wrong),
        (64, 64, 33, 4096, wrong),
        (64, 64, 32, 4097, wrong),
        // an origin that isn't there
        (64, 64, 32, 0, at(VerifyRule::Target, 0)),
    ] {
        let widths = Vec::from_elem(alloc, Width::W8, props)?;
        let values = Vec::from_elem(alloc, false, hosts)?;
        let declared = Declared {
            widths: &widths,
            hosts: &values,
            spans,
            names,
        };
        assert_eq!(rt; fault_of(alloc, declares(alloc, declared)?)?, want);
    }
    Ok(())
}

#[test]
fn entry_and_finish_rule_are_there(rt: HostRuntime) -> Result<(), Fail> {
    let alloc = rt.alloc();
    let wrong = at(VerifyRule::Target, 1);
    for (entry, finish, want) in [
        (0, None, None),
        (1, None, wrong),
        (0, Some((0, 1)), None),
        // a property and a host code that aren't there, and a host code that is asked with a value
        (0, Some((2, 1)), wrong),
        (0, Some((0, 2)), wrong),
        (0, Some((0, 0)), wrong),
    ] {
        let mut program = declares(alloc, one_of_each())?;
        program.entry = entry;
        program.finish = finish;
        assert_eq!(rt; fault_of(alloc, program)?, want);
    }
    Ok(())
}

#[test]
fn the_later_of_two_names_is_told(rt: HostRuntime) -> Result<(), Fail> {
    let alloc = rt.alloc();
    // two properties, two host codes and a span stand before the names
    for (third, want) in [
        (2, None),
        (1, at(VerifyRule::Names, 7)),
        (0, at(VerifyRule::Names, 7)),
    ] {
        let mut names = names_of(alloc, 2)?;
        names.push(name_of(alloc, third)?)?;
        let mut program = declares(alloc, one_of_each())?;
        program.names = Listed::of(names);
        assert_eq!(rt; fault_of(alloc, program)?, want);
    }
    // the same of host codes
    let mut hosts = hosts_of(alloc, &[false])?;
    hosts.push(HostDecl {
        name: name_of(alloc, 0)?,
        value: true,
    })?;
    let mut program = declares(alloc, one_of_each())?;
    program.hosts = Listed::of(hosts);
    assert_eq!(rt; fault_of(alloc, program)?, at(VerifyRule::Names, 3));
    Ok(())
}

// So many errors.
fn errors(alloc: Global, count: u32) -> Result<Vec<Instr>, Fail> {
    let mut instrs = Vec::new(alloc);
    for _ in 0..count {
        instrs.push(fails(alloc)?)?;
    }
    Ok(instrs)
}

#[test]
fn states_have_a_limit(rt: HostRuntime) -> Result<(), Fail> {
    let alloc = rt.alloc();
    assert_eq!(rt; tried(alloc, one_name(), errors(alloc, 65535)?)?, None);
    assert_eq!(rt;
        tried(alloc, one_name(), errors(alloc, 65536)?)?,
        at(VerifyRule::Target, 65536)
    );
    assert_eq!(rt;
        tried(alloc, one_name(), Vec::new(alloc))?,
        at(VerifyRule::Target, 0)
    );
    Ok(())
}

// Answers with these numbers from 0 on, which lead to a state.
fn answers_to(alloc: Global, count: u32, target: u32) -> Result<Instr, Fail> {
    let mut answers = Vec::new(alloc);
    for number in 0..count {
        answers.push(Answer { number, target })?;
    }
    Ok(Instr::Invoke {
        code: Code::Load { prop: 0 },
        answers: Listed::of(answers),
        other: target,
    })
}

#[test]
fn answers_have_a_limit(rt: HostRuntime) -> Result<(), Fail> {
    let alloc = rt.alloc();
    assert_eq!(rt;
        with_fail(alloc, one_of_each(), answers_to(alloc, 65535, 1)?)?,
        None
    );
    assert_eq!(rt;
        with_fail(alloc, one_of_each(), answers_to(alloc, 65536, 1)?)?,
        at(VerifyRule::Target, 0)
    );
    Ok(())
}

// An edge for each byte, in turn to itself and to a state, and one more edge where that is wanted.
fn edges_to(alloc: Global, more: bool, target: u32) -> Result<Instr, Fail> {
    let mut edges = Vec::new(alloc);
    for b in 0..=u8::MAX {
        edges.push(takes(b, b, None, if b % 2 == 0 { 0 } else { target }))?;
    }
    if more {
        edges.push(takes(u8::MAX, u8::MAX, None, 0))?;
    }
    Ok(Instr::Branch {
        fold: Fold::Same,
        stay: Ranges::new(),
        edges: Listed::of(edges),
        rest: rest(false, None, target),
    })
}

#[test]
fn edges_have_a_limit(rt: HostRuntime) -> Result<(), Fail> {
    let alloc = rt.alloc();
    assert_eq!(rt;
        with_fail(alloc, one_name(), edges_to(alloc, false, 1)?)?,
        None
    );
    assert_eq!(rt;
        with_fail(alloc, one_name(), edges_to(alloc, true, 1)?)?,
        at(VerifyRule::Target, 0)
    );
    Ok(())
}

// A program whose file has 16,777,214 bytes beside the bytes of its reason. Head, name and property have 28. A state of n
// answers has 8 + 6 * n: 42 have 65,535 answers, and one has 43,669. The error has 8 and its reason.
fn long(alloc: Global, reason: &[u8]) -> Result<Program, Fail>
    requires { length reason.now ≤ 255 }
{
    let mut instrs = Vec::new(alloc);
    for _ in 0..42u32 {
        instrs.push(answers_to(alloc, 65535, 43)?)?;
    }
    instrs.push(answers_to(alloc, 43669, 43)?)?;
    instrs.push(Instr::Fail {
        code: 1,
        reason: Reason::new(alloc, reason)?,
    })?;
    let declared = Declared {
        widths: &[Width::W8],
        hosts: &[],
        spans: 0,
        names: 1,
    };
    program_of(alloc, declared, instrs)
}

#[test]
fn a_file_has_a_limit(rt: HostRuntime) -> Result<(), Fail> {
    let alloc = rt.alloc();
    assert_eq!(rt; fault_of(alloc, long(alloc, b"no")?)?, None);
    assert_eq!(rt;
        fault_of(alloc, long(alloc, b"bad")?)?,
        at(VerifyRule::Target, 44)
    );
    Ok(())
}
