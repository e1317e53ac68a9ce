// A source and a sink that never fail.
ghost use Rattle.std.specs.Prelude.{◌≡◌, ◌<◌, ℕ, [], List, None, Some, length, take, drop, min, IfOk, IsOk};

use crate::failed::Failed;
use crate::sink::Sink;
use crate::source::Source;
use std::marker::Model;

/// A source over bytes that lie in memory, which never fails. Contracts see it as the bytes that are left.
#[derive(Debug, Drop)]
pub struct CleanSource<'b> {
    left: &'b [u8],
}

impl<'b> Model for CleanSource<'b> {
    ghost Value = { List ℕ };

    ghost view = { λ s. s.left.now };
}

impl<'b> CleanSource<'b> {
    /// A source of these bytes.
    pub fn new(bytes: &'b [u8]) -> Self
        ensures { result ≡ bytes.now }
    {
        CleanSource { left: bytes }
    }
}

impl<'b> Source for CleanSource<'b> {
    ghost left = { λ s. Some s };

    ghost faults = { λ _. 0 };

    /// Fills the buffer, or gives all that is left.
    fn read(&mut self, into: &mut [u8]) -> Result<usize, Failed>
        ensures succeeds { IsOk result }
        ensures given { IfOk result (λ n. n ≡ min (length into.new) (length self.old)) }
        ensures same { IfOk result (λ n. take n into.new ≡ take n self.old) }
        ensures rest { IfOk result (λ n. self.new ≡ drop n self.old) }
        ensures end { IfOk result (λ n. n ≡ 0 → 0 < length into.new → self.new ≡ []) }
    {
        let count = into.len().min(self.left.len());
        let (front, rest) = self.left.split_at(count);
        into[..count].copy_from_slice(front);
        self.left = rest;
        Ok(count)
    }
}

/// A sink that takes each part whole, keeps none of it, and never fails.
#[derive(Clone, Copy, Debug, Default)]
pub struct CleanSink;

impl CleanSink {
    /// Such a sink.
    pub fn new() -> Self {
        CleanSink
    }
}

impl Sink for CleanSink {
    ghost written = { λ _. None };

    ghost faults = { λ _. 0 };

    /// Takes the whole part.
    fn write(&mut self, part: &[u8]) -> Result<usize, Failed>
        ensures { result ≡ Ok (length part.now) }
    {
        Ok(part.len())
    }
}
