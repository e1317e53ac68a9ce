// Reading states.
ghost use Rattle.std.specs.Prelude.{◌≡◌, None};
ghost use Rattle.pp_program.specs.declared.program.Instr.TheVariants as instrs;
ghost use Rattle.pp_file.specs.Fields.{text_at, any_at, items_at};
ghost use Rattle.pp_file.specs.Parts.{least_answer, answer_at, muladd_at, valued, value_at, constants_at, code_at, answers_at, invoke_at, next_at, pause_at, fail_at, body_at, state_at};
ghost use Rattle.pp_file.specs.steps.Readers.{Gives};

use crate::branches::read_branch;
use crate::cursor::Cursor;
use crate::fault::FileFault;
use crate::kinds::{
    AND, BRANCH, CALL, CONSUME, EQUAL, FAIL, LOAD, MUL_ADD, OR, PAUSE, SPAN_CLOSE, SPAN_OPEN,
    STORE, TEST, UPDATE,
};
use pp_bytes::Listed;
use pp_graph::{Answer, Code};
use pp_program::{Instr, State};
use pp_rules::Reason;
use std::alloc::Global;

// The least number that an answer behind this one may have.
fn least_behind(before: Option<Answer>) -> u64
    ensures { result ≡ least_answer before }
{
    match before {
        None => 0,
        Some(answer) => answer.number as u64 + 1,
    }
}

// An answer, behind the one before it.
#[tactic(auto, unfolding(crate::specs::Parts::answer_at))]
fn read_answer(cursor: &mut Cursor<'_>, before: Option<Answer>) -> Result<Answer, FileFault>
    ensures { Gives result cursor.new (answer_at before cursor.old) }
{
    let offset = cursor.place();
    let number = cursor.read_u32()?;
    if (number as u64) < least_behind(before) {
        return Err(FileFault::Form { offset });
    }
    let target = cursor.read_u16()?;
    Ok(Answer {
        number,
        target: target as u32,
    })
}

// So many answers.
fn read_answers(
    alloc: Global,
    cursor: &mut Cursor<'_>,
    count: u16,
) -> Result<Listed<Answer>, FileFault>
    ensures { Gives result cursor.new (items_at answer_at count None cursor.old) }
{
    let mut answers = Vec::new(alloc);
    let mut before = None;
    for _ in 0..count {
        let answer = read_answer(cursor, before)?;
        answers.push(answer)?;
        before = Some(answer);
    }
    Ok(Listed::of(answers))
}

// The answers of a code, and where every other answer leads.
#[tactic(auto, unfolding(crate::specs::Parts::answers_at))]
fn read_all_answers(alloc: Global, cursor: &mut Cursor<'_>, code: Code) -> Result<Instr, FileFault>
    ensures { Gives result cursor.new (answers_at code cursor.old) }
{
    let count = cursor.read_u16()?;
    let answers = read_answers(alloc, cursor, count)?;
    let other = cursor.read_u16()?;
    Ok(Instr::Invoke {
        code,
        answers,
        other: other as u32,
    })
}

// The base and the most of a multiplication.
#[tactic(auto, unfolding(crate::specs::Parts::muladd_at))]
fn read_muladd(cursor: &mut Cursor<'_>, prop: u32) -> Result<Code, FileFault>
    ensures { Gives result cursor.new (muladd_at prop cursor.old) }
{
    let base = cursor.read_u32()?;
    let max = cursor.read_u64()?;
    Ok(Code::MulAdd { prop, base, max })
}

// The code of a kind with a value.
fn valued_code(kind: u8, prop: u32, value: u64) -> Code
    ensures { result ≡ valued kind prop value }
{
    match kind {
        UPDATE => Code::Update { prop, value },
        EQUAL => Code::Equal { prop, value },
        AND => Code::And { prop, value },
        OR => Code::Or { prop, value },
        _ => Code::Test { prop, value },
    }
}

// A value.
#[tactic(auto, unfolding(crate::specs::Parts::value_at))]
fn read_value(cursor: &mut Cursor<'_>, kind: u8, prop: u32) -> Result<Code, FileFault>
    ensures { Gives result cursor.new (value_at kind prop cursor.old) }
{
    let value = cursor.read_u64()?;
    Ok(valued_code(kind, prop, value))
}

// The constants of a code.
#[tactic(auto, unfolding(crate::specs::Parts::constants_at))]
fn read_constants(cursor: &mut Cursor<'_>, kind: u8, at: u32) -> Result<Code, FileFault>
    ensures { Gives result cursor.new (constants_at kind at cursor.old) }
{
    match kind {
        CALL => Ok(Code::Call { host: at }),
        STORE => Ok(Code::Store { prop: at }),
        LOAD => Ok(Code::Load { prop: at }),
        MUL_ADD => read_muladd(cursor, at),
        _ => read_value(cursor, kind, at),
    }
}

// A code: the place of its property or host code, and its constants.
#[tactic(auto, unfolding(crate::specs::Parts::code_at))]
fn read_code(cursor: &mut Cursor<'_>, kind: u8) -> Result<Code, FileFault>
    ensures { Gives result cursor.new (code_at kind cursor.old) }
{
    let at = cursor.read_u8()?;
    read_constants(cursor, kind, at as u32)
}

// A code and its answers.
#[tactic(auto, unfolding(crate::specs::Parts::invoke_at))]
fn read_invoke(alloc: Global, cursor: &mut Cursor<'_>, kind: u8) -> Result<Instr, FileFault>
    ensures { Gives result cursor.new (invoke_at kind cursor.old) }
{
    let code = read_code(cursor, kind)?;
    read_all_answers(alloc, cursor, code)
}

// A property, and the next state.
#[tactic(auto, unfolding(crate::specs::Parts::next_at))]
fn read_consume(cursor: &mut Cursor<'_>) -> Result<Instr, FileFault>
    ensures { Gives result cursor.new (next_at instrs.Consume cursor.old) }
{
    let prop = cursor.read_u8()?;
    let next = cursor.read_u16()?;
    Ok(Instr::Consume {
        prop: prop as u32,
        next: next as u32,
    })
}

// A span that begins, and the next state.
#[tactic(auto, unfolding(crate::specs::Parts::next_at))]
fn read_open(cursor: &mut Cursor<'_>) -> Result<Instr, FileFault>
    ensures { Gives result cursor.new (next_at instrs.SpanOpen cursor.old) }
{
    let span = cursor.read_u8()?;
    let next = cursor.read_u16()?;
    Ok(Instr::SpanOpen {
        span: span as u32,
        next: next as u32,
    })
}

// A span that ends, and the next state.
#[tactic(auto, unfolding(crate::specs::Parts::next_at))]
fn read_close(cursor: &mut Cursor<'_>) -> Result<Instr, FileFault>
    ensures { Gives result cursor.new (next_at instrs.SpanClose cursor.old) }
{
    let span = cursor.read_u8()?;
    let next = cursor.read_u16()?;
    Ok(Instr::SpanClose {
        span: span as u32,
        next: next as u32,
    })
}

// A reason.
fn read_reason(alloc: Global, cursor: &mut Cursor<'_>) -> Result<Reason, FileFault>
    ensures { Gives result cursor.new (text_at cursor.old) }
{
    let text = cursor.text()?;
    Ok(Reason::new(alloc, text)?)
}

// A code, a reason and the next state.
#[tactic(auto, unfolding(crate::specs::Parts::pause_at))]
fn read_pause(alloc: Global, cursor: &mut Cursor<'_>) -> Result<Instr, FileFault>
    ensures { Gives result cursor.new (pause_at cursor.old) }
{
    let code = cursor.read_u32()?;
    let reason = read_reason(alloc, cursor)?;
    let next = cursor.read_u16()?;
    Ok(Instr::Pause {
        code,
        reason,
        next: next as u32,
    })
}

// A code and a reason.
#[tactic(auto, unfolding(crate::specs::Parts::fail_at))]
fn read_fail(alloc: Global, cursor: &mut Cursor<'_>) -> Result<Instr, FileFault>
    ensures { Gives result cursor.new (fail_at cursor.old) }
{
    let code = cursor.read_u32()?;
    let reason = read_reason(alloc, cursor)?;
    Ok(Instr::Fail { code, reason })
}

// What a state of a kind does.
#[tactic(auto, unfolding(crate::specs::Parts::body_at))]
fn read_body(alloc: Global, cursor: &mut Cursor<'_>, kind: u8) -> Result<Instr, FileFault>
    ensures { Gives result cursor.new (body_at kind cursor.old) }
{
    match kind {
        BRANCH => read_branch(alloc, cursor),
        CONSUME => read_consume(cursor),
        SPAN_OPEN => read_open(cursor),
        SPAN_CLOSE => read_close(cursor),
        PAUSE => read_pause(alloc, cursor),
        FAIL => read_fail(alloc, cursor),
        _ => read_invoke(alloc, cursor, kind),
    }
}

// A state.
#[tactic(auto, unfolding(crate::specs::Parts::state_at))]
fn read_state(alloc: Global, cursor: &mut Cursor<'_>) -> Result<State, FileFault>
    ensures { Gives result cursor.new (state_at cursor.old) }
{
    let origin = cursor.read_u16()?;
    let kind = cursor.u8_within(0, FAIL as u32)?;
    let instr = read_body(alloc, cursor, kind)?;
    Ok(State {
        origin: origin as u32,
        instr,
    })
}

/// So many states.
pub(crate) fn read_states(
    alloc: Global,
    cursor: &mut Cursor<'_>,
    count: u16,
) -> Result<Listed<State>, FileFault>
    ensures { Gives result cursor.new (any_at state_at count cursor.old) }
{
    let mut states = Vec::new(alloc);
    for _ in 0..count {
        let state = read_state(alloc, cursor)?;
        states.push(state)?;
    }
    Ok(Listed::of(states))
}
