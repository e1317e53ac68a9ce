// The pieces of spans that a host is given.
ghost use Rattle.std.specs.Prelude.{◌≡◌, [], ◌∷◌, ◌+◌, ◌<◌, ◌≤◌, length, max};
ghost use Rattle.pp_engine.specs.Feeds.{Fire, OpenBelow, piece_of, parts_of};

use pp_event::{Host, Reply, Spans};

/// How a host took pieces.
#[derive(Clone, Copy, Debug)]
pub enum Fired {
    /// It answered 0 to each.
    All,
    /// It answered another number to one, and was given none behind it.
    Stopped { answer: u32 },
    /// It refused one, and was given none behind it.
    Out,
}

// The later of two places.
fn later_of(one: u64, other: u64) -> u64
    ensures { result ≡ max one other }
{
    if one < other { other } else { one }
}

/// Gives the host the part of a span that lies in the input, up to a place. The input begins at `base`.
pub fn fire<'a, H: Host<'a>>(
    host: &mut H,
    span: u32,
    input: &'a [u8],
    base: u64,
    from: u64,
    at: u64,
    last: bool,
) -> Fired
    requires span { span < 32 }
    requires from { from ≤ at }
    requires base { base ≤ at }
    requires at { at ≤ base + length input.now }
    ensures { Fire H.allows H.next (H.shown host.old) (H.shown host.new) (piece_of base input.now span from at last ∷ []) at result }
{
    let start = later_of(from, base);
    let part = &input[(start - base) as usize..(at - base) as usize];
    match host.piece(span, part, start, last) {
        Reply::Is(0) => Fired::All,
        Reply::Is(answer) => Fired::Stopped { answer },
        Reply::NoMemory => Fired::Out,
    }
}

/// Gives the host the part of each open span, in order, where it isn't empty.
pub fn fire_parts<'a, H: Host<'a>>(
    host: &mut H,
    spans: &Spans,
    input: &'a [u8],
    base: u64,
    at: u64,
) -> Fired
    requires count { length spans.now ≤ 32 }
    requires below { OpenBelow spans.now at }
    requires base { base ≤ at }
    requires at { at ≤ base + length input.now }
    ensures { Fire H.allows H.next (H.shown host.old) (H.shown host.new) (parts_of base input.now at 0 spans.now) at result }
{
    for span in 0..spans.len() {
        if let Some(from) = spans.get(span) {
            if later_of(from, base) < at {
                match fire(host, span, input, base, from, at, false) {
                    Fired::All => {}
                    Fired::Stopped { answer } => return Fired::Stopped { answer },
                    Fired::Out => return Fired::Out,
                }
            }
        }
    }
    Fired::All
}
