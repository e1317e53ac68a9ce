// The moves of a flow, and what its points do to spans.
ghost use Rattle.std.specs.Prelude.{◌≡◌, ℕ, ◌<◌, ◌⊎◌, ◌↔◌, IsTrue};
ghost use Rattle.pp_flow.specs.declared.moves.Act.TheVariants.{Opens, Closes};
ghost use Rattle.pp_flow.specs.Spans.{HaveSpans};

/// A move from a point to a point, which is made where one of the bytes from `lo` to `hi` comes next.
///
/// One with `lo` above `hi` is made on no byte, and spans still go along it.
#[derive(Clone, Copy, Debug, PartialEq, Eq)]
pub struct Move {
    pub from: u32,
    pub to: u32,
    pub lo: u8,
    pub hi: u8,
    /// Whether it keeps the place, so that the same byte comes next.
    pub free: bool,
    /// Whether any byte may come next behind it. A pause's move is free and onward.
    pub onward: bool,
}

/// What a point does to spans. Their numbers are below 32.
#[derive(Clone, Copy, Debug, PartialEq, Eq)]
pub enum Act {
    /// Nothing.
    Goes,
    /// It opens a span.
    Opens(u32),
    /// It closes a span.
    Closes(u32),
    /// Nothing, and spans may be mixed there, since what comes to it fails.
    Fails,
}

// Whether the span that a point opens or closes is below 32.
fn has_span(act: Act) -> bool
    ensures { IsTrue result ↔ ((s : ℕ) → (act ≡ Opens s) ⊎ (act ≡ Closes s) → s < 32) }
{
    match act {
        Act::Opens(span) | Act::Closes(span) => span < 32,
        Act::Goes | Act::Fails => true,
    }
}

/// Whether all spans are below 32.
pub fn have_spans(acts: &[Act]) -> bool
    ensures { IsTrue result ↔ HaveSpans acts.now }
{
    for place in 0..acts.len() {
        if !has_span(acts[place]) {
            return false;
        }
    }
    true
}
