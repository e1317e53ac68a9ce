// A host that keeps the log of another one.
ghost use Rattle.std.specs.Prelude.{◌≡◌, ◌<◌, ◌+◌, OnOk, vec_len, vec_capacity, [], ◌∷◌, ◌++◌, map};
ghost use Rattle.pp_event.specs.declared.host.Reply.TheVariants.{Is};
ghost use Rattle.pp_event.specs.Told.{told};

use crate::event::Event;
use crate::host::{Host, Reply};
use crate::props::Props;
use pp_outside::NoMemory;
use std::alloc::Global;

/// Keeps the log of a host: each question that it answered, with the answer.
///
/// It takes its memory first, then asks, and answers what the inner host answered. It refuses where there is no
/// memory, or the inner host refuses.
#[derive(Drop)]
pub struct Recorded<'a, H> {
    inner: H,
    events: Vec<Event<'a>>,
    refused: u64,
}

impl<'a, H: Host<'a>> Recorded<'a, H> {
    /// An empty log of this host. Takes no memory.
    pub fn new(alloc: Global, inner: H) -> Recorded<'a, H>
        ensures { (result.events.items ≡ []) × (result.inner ≡ inner) × (result.refused ≡ 0) }
    {
        Recorded {
            inner,
            events: Vec::new(alloc),
            refused: 0,
        }
    }

    /// The events so far, in order.
    pub fn log(&self) -> &[Event<'a>]
        ensures { result.now ≡ self.now.events.items }
    {
        self.events.as_slice()
    }

    // Takes the memory for one event more.
    fn reserve(&mut self) -> Result<(), NoMemory>
        ensures same { self.new.events.items ≡ self.old.events.items }
        ensures inner { self.new.inner ≡ self.old.inner }
        ensures refused { self.new.refused ≡ self.old.refused }
        ensures room { OnOk result (vec_len self.new.events < vec_capacity self.new.events) }
    {
        self.events.reserve(1)?;
        Ok(())
    }

    // Puts an event last in the log, where there is memory for it, and passes its answer on.
    fn keep(&mut self, event: Event<'a>, answer: u32) -> Reply
        requires { vec_len self.old.events < vec_capacity self.old.events }
        ensures passed { result ≡ Is answer }
        ensures kept { self.new.events.items ≡ self.old.events.items ++ event.entry ∷ [] }
        ensures inner { self.new.inner ≡ self.old.inner }
        ensures refused { self.new.refused ≡ self.old.refused }
    {
        match self.events.push(event) {
            Ok(()) => Reply::Is(answer),
            Err(_) => unreachable!(),
        }
    }
}

impl<'a, H: Host<'a>> Host<'a> for Recorded<'a, H> {
    ghost use Rattle.std.specs.Prelude.{List, Some, min, ◌-◌, ◌^◌};
    ghost use Rattle.pp_event.specs.Told.{Told};

    ghost View = { List Told × H.View };

    ghost shown = { λ s. record {
      log = Some (map told s.events.items);
      refusals = min ((H.shown s.inner).refusals + s.refused) (2 ^ 64 - 1);
      view = (map told s.events.items, (H.shown s.inner).view);
    } };

    ghost allows = { λ v e. H.allows v.1 e };

    ghost next = { λ v e. (v.0 ++ e ∷ [], H.next v.1 e) };

    fn call(&mut self, code: u32, value: u64, at: u64, props: &Props) -> Reply {
        if self.reserve().is_err() {
            self.refused = self.refused.saturating_add(1);
            return Reply::NoMemory;
        }
        match self.inner.call(code, value, at, props) {
            Reply::Is(answer) => {
                let event = Event::Call {
                    code,
                    value,
                    at,
                    props: props.copy(),
                    answer,
                };
                self.keep(event, answer)
            }
            Reply::NoMemory => Reply::NoMemory,
        }
    }

    fn piece(&mut self, span: u32, part: &'a [u8], at: u64, last: bool) -> Reply {
        if self.reserve().is_err() {
            self.refused = self.refused.saturating_add(1);
            return Reply::NoMemory;
        }
        match self.inner.piece(span, part, at, last) {
            Reply::Is(answer) => {
                let event = Event::Piece {
                    span,
                    at,
                    part,
                    last,
                    answer,
                };
                self.keep(event, answer)
            }
            Reply::NoMemory => Reply::NoMemory,
        }
    }
}
