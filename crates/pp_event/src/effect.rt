// What a code does, and where its answer leads.
ghost use Rattle.std.specs.Prelude.{◌≡◌, ◌+◌, ◌*◌, length};
ghost use Rattle.pp_event.specs.Codes.{effect_of, answered};
ghost use Rattle.pp_event.specs.Effects.{Uses, seen_effect, product_effect};

use crate::props::Props;
use pp_graph::{Answer, Code};

/// What a code does: it asks a host code, or answers by itself, or sets a property and answers 0.
#[derive(Clone, Copy, Debug)]
pub enum Effect {
    AsksHost { host: u32 },
    Answers { answer: u64 },
    Sets { prop: u32, value: u64 },
}

/// What a code does, by the values of the properties and the number that was carried.
pub fn effect_of(props: &Props, carried: u32, code: Code) -> Effect
    requires { Uses (length props.now) code }
    ensures { seen_effect result ≡ effect_of props.now carried code }
{
    match code {
        Code::Call { host } => Effect::AsksHost { host },
        Code::Store { prop } => Effect::Sets {
            prop,
            value: u64::from(carried),
        },
        Code::Load { prop } => Effect::Answers {
            answer: props.get(prop),
        },
        Code::Update { prop, value } => Effect::Sets { prop, value },
        Code::Equal { prop, value } => Effect::Answers {
            answer: u64::from(props.get(prop) == value),
        },
        Code::And { prop, value } => Effect::Sets {
            prop,
            value: props.get(prop) & value,
        },
        Code::Or { prop, value } => Effect::Sets {
            prop,
            value: props.get(prop) | value,
        },
        Code::Test { prop, value } => Effect::Answers {
            answer: u64::from(props.get(prop) & value == value),
        },
        Code::MulAdd { prop, base, max } => mul_add(prop, props.get(prop), base, carried, max),
    }
}

// Sets a property to its value times the base plus the carried number, or answers 1 where that passes the most.
fn mul_add(prop: u32, value: u64, base: u32, carried: u32, max: u64) -> Effect
    ensures { seen_effect result ≡ product_effect prop (value * base + carried) max }
{
    let product = u128::from(value) * u128::from(base) + u128::from(carried);
    if product > u128::from(max) {
        Effect::Answers { answer: 1 }
    } else {
        Effect::Sets {
            prop,
            value: product as u64,
        }
    }
}

/// Where an answer leads: by the edge with its number, else by the otherwise.
pub fn answered(answers: &[Answer], other: u32, answer: u64) -> u32
    ensures { result ≡ answered answers.now other answer }
{
    for edge in answers {
        if u64::from(edge.number) == answer {
            return edge.target;
        }
    }
    other
}
