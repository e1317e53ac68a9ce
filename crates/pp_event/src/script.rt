// What a host is to answer.
ghost use Rattle.std.specs.Prelude.{◌≡◌, IfOk};
ghost use Rattle.pp_event.specs.Script.{answer_in, is_to};

use pp_outside::NoMemory;
use std::alloc::Global;
use std::marker::Model;

/// What an entry of a script answers.
#[derive(Clone, Copy, Debug, PartialEq, Eq)]
pub enum ScriptTo {
    /// The calls of a host code.
    Code(u32),
    /// The pieces of a span.
    Span(u32),
}

impl ScriptTo {
    // Whether both are the same code, or the same span.
    fn is_to(self, to: ScriptTo) -> bool
        ensures { result ≡ is_to self to }
    {
        match (self, to) {
            (ScriptTo::Code(a), ScriptTo::Code(b)) => a == b,
            (ScriptTo::Span(a), ScriptTo::Span(b)) => a == b,
            _ => false,
        }
    }
}

/// One answer, to the next question of a code or a span.
#[derive(Clone, Copy, Debug, PartialEq, Eq)]
pub struct ScriptEntry {
    pub to: ScriptTo,
    pub answer: u32,
}

/// Answers, each to a code or a span, in order. Contracts see it as the list of its entries.
#[derive(Debug, Drop)]
pub struct Script {
    entries: Vec<ScriptEntry>,
}

impl Model for Script {
    ghost use Rattle.std.specs.Prelude.{List};
    ghost use Rattle.pp_event.specs.declared.script.ScriptEntry.{ScriptEntry};

    ghost Value = { List ScriptEntry };

    ghost view = { λ s. s.entries.items };
}

impl Script {
    /// The script of these entries.
    pub fn new(alloc: Global, entries: &[ScriptEntry]) -> Result<Script, NoMemory>
        ensures { IfOk result (λ script. script ≡ entries.now) }
    {
        Ok(Script {
            entries: entries.to_vec(alloc)?,
        })
    }

    /// The answer of the k-th entry, from 0, for a code or a span, or 0 behind the last.
    pub fn answer(&self, to: ScriptTo, k: u64) -> u32
        ensures { result ≡ answer_in self.now to k }
    {
        let mut left = k;
        for entry in &self.entries {
            if entry.to.is_to(to) {
                if left == 0 {
                    return entry.answer;
                }
                left -= 1;
            }
        }
        0
    }
}
