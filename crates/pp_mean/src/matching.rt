// Where a match node leads.
ghost use Rattle.std.specs.Prelude.{◌≡◌, ◌<◌, ◌≤◌, ◌+◌, ◌^◌, ◌==◌, if◌then◌else◌, ℕ, Some, IfSome, length, map, option_map, find};
ghost use Rattle.pp_graph.specs.declared.node.Peek.{Peek};
ghost use Rattle.pp_bytes.specs.Fold.{folded};
ghost use Rattle.pp_event.specs.Run.{Config};
ghost use Rattle.pp_event.specs.Turns.{to};
ghost use Rattle.pp_mean.specs.Nodes.{common, fits, reach, best, goes_on, waits, match_turn, peek_turn, peek_at};
ghost use Rattle.pp_mean.specs.Steps.{edge_turn, key_edge, farther, outlasts};

use pp_bytes::Fold;
use pp_graph::{Key, Other, Peek};

/// An edge that a match node takes: the node that it leads to, how many bytes it takes, and the number that it carries.
#[derive(Clone, Copy, Debug)]
pub(crate) struct Edge {
    pub target: u32,
    pub taken: usize,
    pub number: u32,
}

/// The edge that a match node takes where these bytes are left, or none where it waits.
pub(crate) fn edge_at(
    fold: Fold,
    keys: &[Key],
    peeks: &[Peek],
    other: Other,
    rest: &[u8],
) -> Option<Edge>
    ensures turn { (c : Config) → match_turn c rest.now keys.now peeks.now other (map (folded fold) rest.now) ≡ edge_turn c rest.now result }
    ensures within { IfSome result (λ e. e.taken ≤ length rest.now) }
{
    if waits(fold, keys, peeks, other, rest) {
        return None;
    }
    match best(fold, keys, rest) {
        Some(edge) => Some(edge),
        None => {
            let reached = reach(fold, keys, rest);
            Some(other_edge(other, reached, peek_at(fold, peeks, rest)))
        }
    }
}

// The edge where no key fits: that of a peek where no byte was reached, else the otherwise.
fn other_edge(other: Other, reached: usize, peek: Option<Peek>) -> Edge
    requires { reached < 2 ^ 63 }
    ensures turn { (c : Config) → peek_turn c other reached peek ≡ to c result.target result.taken result.number }
    ensures taken { result.taken ≤ (if other.skip then reached + 1 else reached) }
{
    if reached == 0 {
        if let Some(peek) = peek {
            return Edge {
                target: peek.target,
                taken: 0,
                number: 0,
            };
        }
    }
    Edge {
        target: other.target,
        taken: if other.skip { reached + 1 } else { reached },
        number: 0,
    }
}

// Whether a match node waits where these bytes are left.
fn waits(fold: Fold, keys: &[Key], peeks: &[Peek], other: Other, rest: &[u8]) -> bool
    ensures { result ≡ waits keys.now peeks.now other (map (folded fold) rest.now) }
{
    goes_on(fold, keys, rest)
        || (rest.is_empty() && (!keys.is_empty() || !peeks.is_empty() || other.skip))
}

// Whether some key begins with all of these bytes and goes on.
fn goes_on(fold: Fold, keys: &[Key], rest: &[u8]) -> bool
    ensures { result ≡ goes_on keys.now (map (folded fold) rest.now) }
{
    for key in keys {
        if outlasts(fold, key, rest) {
            return true;
        }
    }
    false
}

// Whether a key begins with all of these bytes and goes on.
fn outlasts(fold: Fold, key: &Key, rest: &[u8]) -> bool
    ensures { result ≡ outlasts (map (folded fold) rest.now) key.now }
{
    let bytes = key.bytes.items();
    common(fold, bytes, rest) == rest.len() && rest.len() < bytes.len()
}

// The edge of the longest key that fits, if one fits; the first of those.
fn best(fold: Fold, keys: &[Key], rest: &[u8]) -> Option<Edge>
    ensures { result ≡ option_map key_edge (best keys.now (map (folded fold) rest.now)) }
{
    let mut found: Option<Edge> = None;
    for key in keys {
        if fits(fold, key, rest) {
            found = Some(farther(found, edge_of(key)));
        }
    }
    found
}

// The edge that takes more bytes; the first where both take as many.
fn farther(found: Option<Edge>, edge: Edge) -> Edge
    ensures { Some result ≡ farther found (Some edge) }
{
    match found {
        Some(first) => {
            if first.taken < edge.taken {
                edge
            } else {
                first
            }
        }
        None => edge,
    }
}

// The edge of a key.
fn edge_of(key: &Key) -> Edge
    ensures { result ≡ key_edge key.now }
{
    Edge {
        target: key.target,
        taken: key.bytes.items().len(),
        number: key.number.unwrap_or(0),
    }
}

// Whether these bytes begin with the whole key.
fn fits(fold: Fold, key: &Key, rest: &[u8]) -> bool
    ensures { result ≡ fits (map (folded fold) rest.now) key.now }
{
    common(fold, key.bytes.items(), rest) == key.bytes.items().len()
}

// The length of the longest common prefix with any key.
fn reach(fold: Fold, keys: &[Key], rest: &[u8]) -> usize
    ensures value { result ≡ reach keys.now (map (folded fold) rest.now) }
    ensures within { result ≤ length rest.now }
{
    let mut most = 0;
    for key in keys {
        most = most.max(common(fold, key.bytes.items(), rest));
    }
    most
}

// The length of the longest common prefix.
fn common(fold: Fold, key: &[u8], rest: &[u8]) -> usize
    ensures value { result ≡ common key.now (map (folded fold) rest.now) }
    ensures within { result ≤ length rest.now }
{
    let most = key.len().min(rest.len());
    for n in 0..most {
        if key[n] != fold.of(rest[n]) {
            return n;
        }
    }
    most
}

// The peek of the byte that comes first.
fn peek_at(fold: Fold, peeks: &[Peek], rest: &[u8]) -> Option<Peek>
    ensures { result ≡ peek_at peeks.now (map (folded fold) rest.now) }
{
    match rest.first() {
        Some(byte) => peek_of(peeks, fold.of(*byte)),
        None => None,
    }
}

// The peek of a byte.
fn peek_of(peeks: &[Peek], byte: u8) -> Option<Peek>
    ensures { result ≡ find (λ (p : Peek). p.byte == byte) peeks.now }
{
    peeks.iter().copied().find(|peek| peek.byte == byte)
}
