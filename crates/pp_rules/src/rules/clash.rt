// The edges of one node, kept so that a clash with one more, other than of equal keys of none or several bytes, is found
// without going over them.
ghost use Rattle.std.specs.Prelude.{◌≡◌, List, [], ◌∷◌, ◌++◌, ℕ, Option, IfOk, OnOk};
ghost use Rattle.std.specs.List.{list_any};
ghost use Rattle.pp_rules.specs.declared.call.NamedEdge.{NamedEdge as Edge};
ghost use Rattle.pp_rules.specs.declared.call.NamedEdge.TheVariants as edges;
ghost use Rattle.pp_rules.specs.steps.Clashes.{short_clash};
ghost use Rattle.pp_rules.specs.steps.OwnEdges.{HasEdges, begins_in as begins_in_of, key_clash};
ghost use Rattle.pp_rules.specs.Sets.{byte_edge};

pub(crate) mod key_set;

use crate::call::NamedEdge;
use crate::kept::ByteUse;
use crate::rules::clash::key_set::KeySet;
use pp_bytes::ByteSet;
use std::alloc::{AllocError, Global};
use std::collections::BTreeSet;

/// The edges of one node: its keys, peek bytes and answer numbers.
#[derive(Drop)]
pub(crate) struct OwnEdges {
    pub(crate) keys: KeySet,
    peeks: ByteSet,
    answers: BTreeSet<u32>,
}

impl OwnEdges {
    /// A node without edges. Takes no memory.
    pub(crate) fn new(alloc: Global) -> OwnEdges
        ensures { HasEdges result [] }
    {
        OwnEdges {
            keys: KeySet::new(),
            peeks: ByteSet::new(),
            answers: BTreeSet::new(alloc),
        }
    }

    /// Adds an edge. Answers whether one of those before clashes with it, other than as the same key of none or several
    /// bytes.
    pub(crate) fn add(&mut self, edge: &NamedEdge) -> Result<bool, AllocError>
        ensures added { OnOk result ((own : List Edge) → HasEdges self.old own → HasEdges self.new (own ++ edge.now ∷ [])) }
        ensures clashes { IfOk result (λ clashes. (own : List Edge) → HasEdges self.old own → clashes ≡ list_any (λ e. short_clash e edge.now) own) }
    {
        match edge {
            NamedEdge::Key { bytes, .. } => Ok(self.add_key(bytes.items())),
            NamedEdge::Peek { byte } => Ok(self.add_peek(*byte)),
            NamedEdge::Answer { number } => {
                let is_new = self.answers.insert(*number)?;
                Ok(!is_new)
            }
            NamedEdge::Otherwise { .. } => Ok(false),
        }
    }

    // Adds the edge of a key. Answers whether one of those before is this key, of one byte, or a peek byte that it
    // begins with.
    fn add_key(&mut self, key: &[u8]) -> bool
        ensures added { (own : List Edge) (number : Option ℕ) → HasEdges self.old own → HasEdges self.new (own ++ edges.Key key.now number ∷ []) }
        ensures clashes { (own : List Edge) → HasEdges self.old own → result ≡ list_any (λ e. key_clash key.now e) own }
    {
        self.keys.add(key) || begins_in(&self.peeks, key)
    }

    /// Adds the edge of a byte. Answers whether one of those before clashes with it.
    pub(crate) fn add_byte(&mut self, how: ByteUse, byte: u8) -> bool
        ensures added { (own : List Edge) → HasEdges self.old own → HasEdges self.new (own ++ byte_edge how byte ∷ []) }
        ensures clashes { (own : List Edge) → HasEdges self.old own → result ≡ list_any (λ e. short_clash e (byte_edge how byte)) own }
    {
        match how {
            ByteUse::Key { .. } => self.keys.add_byte(byte) || self.peeks.has(byte),
            ByteUse::Peek => self.add_peek(byte),
        }
    }

    // Adds the edge of a peek byte. Answers whether one of those before is this peek byte or a key that begins with it.
    fn add_peek(&mut self, byte: u8) -> bool
        ensures added { (own : List Edge) → HasEdges self.old own → HasEdges self.new (own ++ edges.Peek byte ∷ []) }
        ensures clashes { (own : List Edge) → HasEdges self.old own → result ≡ list_any (λ e. short_clash e (edges.Peek byte)) own }
    {
        let clashes = self.keys.has_begun(byte) || self.peeks.has(byte);
        self.peeks.add(byte);
        clashes
    }
}

// Whether the first of some bytes is in a set.
fn begins_in(peeks: &ByteSet, bytes: &[u8]) -> bool
    ensures { result ≡ begins_in_of peeks.now bytes.now }
{
    match bytes {
        [first, ..] => peeks.has(*first),
        [] => false,
    }
}
