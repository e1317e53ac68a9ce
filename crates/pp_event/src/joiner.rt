// Pieces are joined to spans.
ghost use Rattle.std.specs.Prelude.{◌≡◌, ◌<◌, ◌+◌, ◌^◌, length, OnOk, OnErr, IfOk, unwrap_or};
ghost use Rattle.pp_event.specs.Told.{told, Pieced};
ghost use Rattle.pp_event.specs.Joiner.{nothing_joined, no_parts, with_event, with_piece, item_of, parts_of, end_of};

use crate::event::Event;
use crate::item::Item;
use pp_outside::NoMemory;
use std::alloc::Global;
use std::marker::Model;

// What came of a span: where its first piece since the last one stands, and the bytes of the span that is open or was
// closed last.
#[derive(Debug, Drop)]
struct Parts {
    begun: Option<u64>,
    bytes: Vec<u8>,
}

impl Model for Parts {
    ghost use Rattle.pp_event.specs.Joiner.{SpanParts};

    ghost Value = { SpanParts };

    ghost view = { λ p. record { begun = p.begun; bytes = p.bytes.items } };
}

impl Parts {
    // No piece came yet.
    fn none(alloc: Global) -> Parts
        ensures { result ≡ no_parts }
    {
        Parts {
            begun: None,
            bytes: Vec::new(alloc),
        }
    }

    // Puts a piece behind the others, and answers where the first one began.
    fn add(&mut self, at: u64, part: &[u8], last: bool) -> Result<u64, NoMemory>
        ensures from { IfOk result (λ from. from ≡ unwrap_or self.old.begun at) }
        ensures added { OnOk result (self.new ≡ with_piece self.old at part.now last) }
        ensures kept { OnErr result (self.new ≡ self.old) }
    {
        self.bytes.reserve(part.len())?;
        if self.begun.is_none() {
            self.bytes.clear();
        }
        self.bytes.extend_from_slice(part)?;
        let from = self.begun.unwrap_or(at);
        self.begun = if last { None } else { Some(from) };
        Ok(from)
    }
}

/// Joins the pieces of each span. Contracts see it as the list of what came of each of 32 spans.
#[derive(Debug, Drop)]
pub struct Joiner {
    spans: [Parts; 32],
}

impl Model for Joiner {
    ghost use Rattle.std.specs.Prelude.{List, length, ◌≡◌};
    ghost use Rattle.pp_event.specs.Joiner.{SpanParts};

    ghost Value = { List SpanParts };

    ghost view = { λ j. j.spans };

    ghost invariant = { λ j. length j.spans ≡ 32 };
}

impl Joiner {
    /// No event came yet. Takes no memory.
    pub fn new(alloc: Global) -> Joiner
        ensures { result ≡ nothing_joined }
    {
        Joiner {
            spans: std::array::from_fn(
                |_|
                    ensures { result ≡ no_parts }
                { Parts::none(alloc) },
            ),
        }
    }

    /// One event more. A call gives its item, the last piece of a span the item of the span, and another piece `None`.
    ///
    /// Refused, it changes nothing.
    pub fn take(&mut self, event: &Event<'_>) -> Result<Option<Item>, NoMemory>
        requires { end_of (told event.now) < 2 ^ 64 }
        ensures item { IfOk result (λ item. item ≡ item_of self.old (told event.now)) }
        ensures taken { OnOk result (self.new ≡ with_event self.old (told event.now)) }
        ensures kept { OnErr result (self.new ≡ self.old) }
    {
        match event {
            Event::Call {
                code,
                value,
                at,
                props,
                answer,
            } => Ok(Some(Item::Call {
                code: *code,
                value: *value,
                at: *at,
                props: props.copy(),
                answer: *answer,
            })),
            Event::Piece {
                span,
                at,
                part,
                last,
                ..
            } => self.take_piece(*span, *at, part, *last),
        }
    }

    // One piece more.
    fn take_piece(
        &mut self,
        span: u32,
        at: u64,
        part: &[u8],
        last: bool,
    ) -> Result<Option<Item>, NoMemory>
        requires { at + length part.now < 2 ^ 64 }
        ensures item { IfOk result (λ item. item ≡ item_of self.old (Pieced span at part.now last 0)) }
        ensures taken { OnOk result (self.new ≡ with_event self.old (Pieced span at part.now last 0)) }
        ensures kept { OnErr result (self.new ≡ self.old) }
    {
        let from = self.add(span, at, part, last)?;
        if !last {
            return Ok(None);
        }
        Ok(Some(Item::Span {
            span,
            from,
            to: at + part.len() as u64,
        }))
    }

    // Puts a piece behind the others of its span, and answers where the first one began.
    fn add(&mut self, span: u32, at: u64, part: &[u8], last: bool) -> Result<u64, NoMemory>
        ensures from { IfOk result (λ from. from ≡ unwrap_or (parts_of self.old span).begun at) }
        ensures taken { OnOk result (self.new ≡ with_event self.old (Pieced span at part.now last 0)) }
        ensures kept { OnErr result (self.new ≡ self.old) }
    {
        if span as usize >= self.spans.as_slice().len() {
            return Ok(at);
        }
        self.spans[span as usize].add(at, part, last)
    }

    /// The joined bytes of the span that is open or was closed last; none where no piece of it was taken.
    pub fn bytes_of(&self, span: u32) -> &[u8]
        ensures { result.now ≡ (parts_of self.now span).bytes }
    {
        match self.spans.get(span as usize) {
            Some(parts) => parts.bytes.as_slice(),
            None => &[],
        }
    }
}
