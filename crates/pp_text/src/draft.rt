// What a text has told so far.
ghost use Rattle.std.specs.Prelude.{◌≡◌, ◌+◌, ◌*◌, ◌<◌, ◌≤◌, ◌↔◌, Some, None, Option, true, length, IsTrue, IsSome, IfOk};
ghost use Rattle.pp_text.specs.Text.{Told, Leads, first_tokens};
ghost use Rattle.pp_text.specs.steps.View.{tokens_of};
ghost use Rattle.pp_text.specs.steps.Reading.{count_told};
ghost use Rattle.pp_text.specs.steps.Lines.{lines_of};

use crate::calls::{Calls, Run};
use crate::token::Token;
use crate::word::is_word;
use pp_graph::{GraphBuilder, NoMemory};
use std::alloc::Global;
use std::marker::Model;

/// What a text has told so far: nothing before `graph 1`, then calls, and the line of each.
#[derive(Drop)]
pub(crate) struct Draft {
    alloc: Global,
    told: Option<Calls>,
}

impl Model for Draft {
    ghost use Rattle.std.specs.Prelude.{Option};
    ghost use Rattle.pp_text.specs.Text.{Told};

    ghost Value = { Option Told };

    ghost view = { λ d. d.told };
}

impl Draft {
    /// Nothing yet. Takes no memory.
    pub(crate) fn new(alloc: Global) -> Draft
        ensures { result ≡ None }
    {
        Draft { alloc, told: None }
    }

    /// Adds a statement of a line. False where its tokens are no statement, or may not stand here.
    pub(crate) fn add(&mut self, line: u32, tokens: &[Token<'_>]) -> Result<bool, NoMemory>
        requires room { count_told self.old + 256 * length tokens.now < 4294967295 }
        ensures leads { IfOk result (λ led. IsTrue led → Leads line self.old (tokens_of tokens.now) self.new) }
        ensures only { (after : Option Told) → Leads line self.old (tokens_of tokens.now) after → IfOk result (λ led. (led ≡ true) × (self.new ≡ after)) }
        ensures count { IfOk result (λ led. count_told self.new ≤ count_told self.old + 256 * length tokens.now) }
    {
        if tokens.is_empty() {
            return Ok(true);
        }
        if let Some(calls) = &mut self.told {
            return calls.add(line, tokens);
        }
        let begins = is_first(tokens);
        if begins {
            self.told = Some(Calls::new(self.alloc));
        }
        Ok(begins)
    }

    /// Whether `graph 1` was there.
    pub(crate) fn has_begun(&self) -> bool
        ensures { IsTrue result ↔ IsSome self.now }
    {
        self.told.is_some()
    }

    /// Its builder, and the lines of the calls.
    pub(crate) fn into_parts(self) -> (GraphBuilder, Vec<Run>)
        ensures { (told : Told) → self ≡ Some told → (result.0 ≡ told.calls) × (lines_of result.1.items ≡ told.lines) }
    {
        self.told.unwrap_or(Calls::new(self.alloc)).into_parts()
    }
}

// Whether the tokens are `graph 1`.
fn is_first(tokens: &[Token<'_>]) -> bool
    ensures { IsTrue result ↔ (tokens_of tokens.now ≡ first_tokens) }
{
    match tokens {
        [first, second] => is_word(*first, b"graph") && is_word(*second, b"1"),
        _ => false,
    }
}
