// What a run has told so far.
ghost use Rattle.std.specs.Prelude.{◌≡◌, ◌<◌, [], ◌∷◌, ◌++◌, OnOk};
ghost use Rattle.pp_event.specs.declared.item.Item.TheVariants.{Call, Span, Pause};
ghost use Rattle.pp_event.specs.Answers.{by_script};

use pp_bytes::Listed;
use pp_event::{Item, Props, Script, ScriptTo};
use std::alloc::{AllocError, Global};
use std::marker::Model;

/// The items that a run has told, and how often it has called each of 64 host codes. Contracts see it as the list of
/// the items.
#[derive(Drop)]
pub(crate) struct Items {
    told: Vec<Item>,
    calls: [u64; 64],
}

impl Model for Items {
    ghost use Rattle.std.specs.Prelude.{List};
    ghost use Rattle.pp_event.specs.declared.item.Item.{Item};
    ghost use Rattle.pp_mean.specs.Steps.{CountsCalls};

    ghost Value = { List Item };

    ghost view = { λ i. i.told.items };

    ghost invariant = { λ i. CountsCalls i.calls i.told.items };
}

impl Items {
    /// Nothing was told yet.
    pub(crate) fn new(alloc: Global) -> Items
        ensures { result ≡ [] }
    {
        Items {
            told: Vec::new(alloc),
            calls: [0; 64],
        }
    }

    /// What a script answers to the next call of a host code.
    pub(crate) fn answer(&self, script: &Script, host: u32) -> u32
        requires { host < 64 }
        ensures { result ≡ by_script script.now self.now host }
    {
        script.answer(ScriptTo::Code(host), self.calls[host as usize])
    }

    /// One more call.
    pub(crate) fn call(
        &mut self,
        host: u32,
        value: u64,
        at: u64,
        props: Props,
        answer: u32,
    ) -> Result<(), AllocError>
        requires { host < 64 }
        ensures { OnOk result (self.new ≡ self.old ++ Call host value at props answer ∷ []) }
    {
        self.told.push(Item::Call {
            code: host,
            value,
            at,
            props,
            answer,
        })?;
        self.calls[host as usize] += 1;
        Ok(())
    }

    /// One more span.
    pub(crate) fn span(&mut self, span: u32, from: u64, to: u64) -> Result<(), AllocError>
        ensures { OnOk result (self.new ≡ self.old ++ Span span from to ∷ []) }
    {
        self.told.push(Item::Span { span, from, to })?;
        Ok(())
    }

    /// One more pause.
    pub(crate) fn pause(&mut self, code: u32, at: u64) -> Result<(), AllocError>
        ensures { OnOk result (self.new ≡ self.old ++ Pause code at ∷ []) }
    {
        self.told.push(Item::Pause { code, at })?;
        Ok(())
    }

    /// The items in order. Takes no memory.
    pub(crate) fn listed(self) -> Listed<Item>
        ensures { result ≡ self }
    {
        Listed::of(self.told)
    }
}
