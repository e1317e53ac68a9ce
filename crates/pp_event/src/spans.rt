// Which spans are open.
ghost use Rattle.std.specs.Prelude.{◌≡◌, ◌<◌, ◌≤◌, Some, None, length, slice_get, slice_set, replicate};

use std::marker::Model;

/// For each span, by its place, where it was opened, if it is open: at most 32. Contracts see it as the list of
/// these. It takes no memory.
#[derive(Debug, Drop)]
pub struct Spans {
    slots: [Option<u64>; 32],
    count: usize,
}

impl Model for Spans {
    ghost use Rattle.std.specs.Prelude.{List, ℕ, Option, take, ◌≤◌, ◌≡◌, length};

    ghost Value = { List (Option ℕ) };

    ghost view = { λ s. take s.count s.slots };

    ghost invariant = { λ s. (s.count ≤ 32) × (length s.slots ≡ 32) };
}

impl Spans {
    /// So many spans, all shut.
    pub fn shut(count: u32) -> Spans
        requires { count ≤ 32 }
        ensures { result ≡ replicate count None }
    {
        Spans {
            slots: [None; 32],
            count: count as usize,
        }
    }

    /// How many spans there are.
    pub fn len(&self) -> u32
        ensures value { result ≡ length self.now }
        ensures bound { result ≤ 32 }
    {
        self.count as u32
    }

    /// Where a span was opened, if it is open.
    pub fn get(&self, span: u32) -> Option<u64>
        requires { span < length self.now }
        ensures { slice_get self.now span ≡ Some result }
    {
        self.slots[span as usize]
    }

    /// Opens a span at a place, or shuts it.
    pub fn set(&mut self, span: u32, from: Option<u64>)
        requires { span < length self.old }
        ensures { self.new ≡ slice_set self.old span from }
    {
        self.slots[span as usize] = from;
    }
}
