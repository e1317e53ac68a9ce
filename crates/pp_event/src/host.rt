// Who answers calls and pieces.
ghost use Rattle.std.specs.Prelude.{◌<◌, ◌^◌, ℕ};
ghost use Rattle.pp_event.specs.Told.{Told, Called, Pieced};
ghost use Rattle.pp_event.specs.Events.{Shown, Replies};

use crate::props::Props;

/// A reply to a question.
#[derive(Clone, Copy, Debug, PartialEq, Eq)]
pub enum Reply {
    /// The answer.
    Is(u32),
    /// The host has no memory for the question, and has not answered it.
    NoMemory,
}

/// Who answers. A host counts its refusals for want of memory.
pub trait Host<'a> {
    /// The type of the host's view: plain data, which says what its answers rest on.
    ghost View: { Type 0 };

    /// What the host shows: its log, where it keeps one, its count of refusals, and its view.
    ghost shown: { Self → Shown View };

    /// Whether a host of this view may give this event. One that promises nothing allows all.
    ghost allows: { View → Told → Type 0 };

    /// The view behind this event.
    ghost next: { View → Told → View };

    /// Asks a host code with a value at a place, the properties having these values.
    ///
    /// `NoMemory` comes only where the count of refusals rose, and then log and view are as before.
    fn call(&mut self, code: u32, value: u64, at: u64, props: &Props) -> Reply
        requires { code < 64 }
        ensures replies { Replies allows next (shown self.old) (shown self.new) (λ answer. Called code value at props.now answer) result }
        ensures fits { (shown self.new).refusals < 2 ^ 64 };

    /// Gives a span a part of its bytes, which begins at a place. `last` where the span is closed there.
    ///
    /// `NoMemory` comes as for `call`.
    fn piece(&mut self, span: u32, part: &'a [u8], at: u64, last: bool) -> Reply
        requires { span < 32 }
        ensures replies { Replies allows next (shown self.old) (shown self.new) (λ answer. Pieced span at part.now last answer) result }
        ensures fits { (shown self.new).refusals < 2 ^ 64 };
}
