// A source and a sink in memory, which fail at the calls that they are told.
ghost use Rattle.std.specs.Prelude.{◌≡◌, ◌↔◌, [], ◌<◌, ◌≤◌, ◌^◌, length, take, drop, Some, IfOk, IsErr, Contains};
ghost use Rattle.pp_outside.specs.Memory.{fresh_source, given_count, after_read, fresh_sink, WriteFails, taken_count, after_write};

use crate::failed::{Failed, NoMemory};
use crate::sink::Sink;
use crate::source::Source;
use std::alloc::Global;
use std::marker::Model;

/// A source in memory that gives its bytes in small parts, and fails at the calls that it is told.
#[derive(Debug, Drop)]
pub struct MemSource {
    bytes: Vec<u8>,
    done: usize,
    most: usize,
    fails: Vec<u64>,
    call: u64,
    faults: u64,
}

impl Model for MemSource {
    ghost use Rattle.std.specs.Prelude.{◌≤◌, ◌<◌, ◌^◌, length, drop};
    ghost use Rattle.pp_outside.specs.Memory.{SourceState};

    ghost Value = { SourceState };

    ghost view = { λ s. record { left = drop s.done s.bytes.items; most = s.most; fails = s.fails.items; call = s.call; faults = s.faults } };

    ghost invariant = { λ s. (s.done ≤ length s.bytes.items) × (1 ≤ s.most) × (s.faults < 2 ^ 64) };
}

impl MemSource {
    /// A source of these bytes that gives at most `most` of them per read. It fails exactly at the calls numbered in
    /// `fails`, from 0; the number of a call, once it is the greatest u64, stays there.
    pub fn new(alloc: Global, bytes: &[u8], most: usize, fails: &[u64]) -> Result<Self, NoMemory>
        requires { 1 ≤ most }
        ensures { IfOk result (λ source. source ≡ fresh_source bytes.now most fails.now) }
    {
        Ok(MemSource {
            bytes: bytes.to_vec(alloc)?,
            done: 0,
            most,
            fails: fails.to_vec(alloc)?,
            call: 0,
            faults: 0,
        })
    }
}

impl Source for MemSource {
    ghost left = { λ s. Some s.left };

    ghost faults = { λ s. s.faults };

    /// Takes no memory.
    fn read(&mut self, into: &mut [u8]) -> Result<usize, Failed>
        ensures fails { IsErr result ↔ Contains self.old.fails self.old.call }
        ensures given { IfOk result (λ n. n ≡ given_count self.old (length into.new)) }
        ensures same { IfOk result (λ n. take n into.new ≡ take n self.old.left) }
        ensures next { self.new ≡ after_read self.old result }
        ensures end { IfOk result (λ n. n ≡ 0 → 0 < length into.new → self.new.left ≡ []) }
        ensures never_falls { self.old.faults ≤ self.new.faults }
        ensures fits { self.new.faults < 2 ^ 64 }
    {
        let fails = self.fails.contains(&self.call);
        self.call = self.call.saturating_add(1);
        if fails {
            return Err(Failed::counted(&mut self.faults));
        }
        let left = &self.bytes[self.done..];
        let count = self.most.min(into.len()).min(left.len());
        into[..count].copy_from_slice(&left[..count]);
        self.done += count;
        Ok(count)
    }
}

/// A sink in memory that takes small parts, has room for so many bytes, and fails at the calls that it is told.
#[derive(Debug, Drop)]
pub struct MemSink {
    bytes: Vec<u8>,
    room: usize,
    most: usize,
    fails: Vec<u64>,
    call: u64,
    faults: u64,
}

impl Model for MemSink {
    ghost use Rattle.std.specs.Prelude.{◌≤◌, ◌<◌, ◌^◌, length, vec_capacity};
    ghost use Rattle.pp_outside.specs.Memory.{SinkState};

    ghost Value = { SinkState };

    ghost view = { λ s. record { written = s.bytes.items; room = s.room; most = s.most; fails = s.fails.items; call = s.call; faults = s.faults } };

    ghost invariant = { λ s. (length s.bytes.items ≤ s.room) × (s.room ≤ vec_capacity s.bytes) × (1 ≤ s.most) × (s.faults < 2 ^ 64) };
}

impl MemSink {
    /// An empty sink with memory for `room` bytes, which takes at most `most` bytes per write. It fails exactly at the
    /// calls numbered in `fails`, from 0, and at a part that is not empty once `room` bytes are written. The number
    /// of a call, once it is the greatest u64, stays there.
    pub fn new(alloc: Global, room: usize, most: usize, fails: &[u64]) -> Result<Self, NoMemory>
        requires { 1 ≤ most }
        ensures { IfOk result (λ sink. sink ≡ fresh_sink room most fails.now) }
    {
        Ok(MemSink {
            bytes: Vec::with_capacity(alloc, room)?,
            room,
            most,
            fails: fails.to_vec(alloc)?,
            call: 0,
            faults: 0,
        })
    }

    /// The bytes that were written.
    pub fn written(&self) -> &[u8]
        ensures value { result.now ≡ self.now.written }
        ensures within { length self.now.written ≤ self.now.room }
    {
        &self.bytes
    }
}

impl Sink for MemSink {
    ghost written = { λ s. Some s.written };

    ghost faults = { λ s. s.faults };

    /// Takes no memory.
    fn write(&mut self, part: &[u8]) -> Result<usize, Failed>
        ensures fails { IsErr result ↔ WriteFails self.old part.now }
        ensures taken { IfOk result (λ n. n ≡ taken_count self.old part.now) }
        ensures next { self.new ≡ after_write self.old part.now result }
        ensures some { IfOk result (λ n. 0 < length part.now → 0 < n) }
        ensures never_falls { self.old.faults ≤ self.new.faults }
        ensures fits { self.new.faults < 2 ^ 64 }
    {
        let room = self.room - self.bytes.len();
        let fails = self.fails.contains(&self.call) || (room == 0 && !part.is_empty());
        self.call = self.call.saturating_add(1);
        if fails {
            return Err(Failed::counted(&mut self.faults));
        }
        let count = self.most.min(part.len()).min(room);
        self.bytes.extend_from_slice(&part[..count]).unwrap();
        Ok(count)
    }
}
