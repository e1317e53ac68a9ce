// std's readers and writers as sources and sinks. Here the program touches the world, and tells nothing of content.
ghost use Rattle.std.specs.Prelude.{◌≡◌, ◌<◌, ◌≤◌, ◌^◌, Ok, None, length, IfOk};
ghost use Rattle.std.specs.Io.KnownBytes.{ReadConsumes, WriteAppends};
ghost use Rattle.pp_outside.specs.Faults.{count_after};

use crate::failed::Failed;
use crate::sink::Sink;
use crate::source::Source;
use std::io::{Read, Write};
use std::marker::Model;

/// A reader of std as a source. Contracts see the reader and the count of its faults.
#[derive(Debug, Drop)]
pub struct ReadSource<R> {
    inner: R,
    faults: u64,
}

impl<R> Model for ReadSource<R> {
    ghost use Rattle.std.specs.Prelude.{◌<◌, ◌^◌};
    ghost use Rattle.pp_outside.specs.Streams.{Counted, counted_code};

    ghost Value = { Counted R };

    ghost coded = { counted_code R.code };

    ghost view = { λ s. record { inner = s.inner; faults = s.faults } };

    ghost invariant = { λ s. s.faults < 2 ^ 64 };
}

impl<R> ReadSource<R> {
    /// A source without faults.
    pub fn new(inner: R) -> Self
        ensures reader { result.inner ≡ inner }
        ensures clean { result.faults ≡ 0 }
    {
        ReadSource { inner, faults: 0 }
    }
}

impl<R: Read> Source for ReadSource<R> {
    ghost left = { λ _. None };

    ghost faults = { λ s. s.faults };

    /// Each error of the reader is one fault. An empty buffer is answered without a call. Of a reader whose bytes std
    /// tells, an answer moves just these bytes, a failure moves none, and only its end is told as the end.
    fn read(&mut self, into: &mut [u8]) -> Result<usize, Failed>
        ensures bound { IfOk result (λ n. n ≤ length into.new) }
        ensures read { ReadConsumes (R.remaining self.old.inner) (R.remaining self.new.inner) result into.new }
        ensures empty { length into.new ≡ 0 → result ≡ Ok 0 }
        ensures no_call { length into.new ≡ 0 → self.new ≡ self.old }
        ensures counted { self.new.faults ≡ count_after self.old.faults result }
        ensures never_falls { self.old.faults ≤ self.new.faults }
        ensures fits { self.new.faults < 2 ^ 64 }
    {
        let ReadSource { inner, faults } = self;
        if into.is_empty() {
            return Ok(0);
        }
        match inner.read(into) {
            Ok(count) => Ok(count),
            Err(_) => Err(Failed::counted(faults)),
        }
    }
}

/// A writer of std as a sink. Contracts see the writer and the count of its faults.
#[derive(Debug, Drop)]
pub struct WriteSink<W> {
    inner: W,
    faults: u64,
}

impl<W> Model for WriteSink<W> {
    ghost use Rattle.std.specs.Prelude.{◌<◌, ◌^◌};
    ghost use Rattle.pp_outside.specs.Streams.{Counted, counted_code};

    ghost Value = { Counted W };

    ghost coded = { counted_code W.code };

    ghost view = { λ s. record { inner = s.inner; faults = s.faults } };

    ghost invariant = { λ s. s.faults < 2 ^ 64 };
}

impl<W> WriteSink<W> {
    /// A sink without faults.
    pub fn new(inner: W) -> Self
        ensures writer { result.inner ≡ inner }
        ensures clean { result.faults ≡ 0 }
    {
        WriteSink { inner, faults: 0 }
    }
}

impl<W: Write> Sink for WriteSink<W> {
    ghost written = { λ _. None };

    ghost faults = { λ s. s.faults };

    /// Each error of the writer is one fault, and so is a write of a part that is not empty which takes nothing.
    /// An empty part is answered without a call. A writer whose bytes std tells has just the bytes that were answered
    /// added, and none at a failure.
    fn write(&mut self, part: &[u8]) -> Result<usize, Failed>
        ensures bound { IfOk result (λ n. n ≤ length part.now) }
        ensures some { IfOk result (λ n. 0 < length part.now → 0 < n) }
        ensures written { WriteAppends (W.contents self.old.inner) (W.contents self.new.inner) result part.now }
        ensures empty { length part.now ≡ 0 → result ≡ Ok 0 }
        ensures no_call { length part.now ≡ 0 → self.new ≡ self.old }
        ensures counted { self.new.faults ≡ count_after self.old.faults result }
        ensures never_falls { self.old.faults ≤ self.new.faults }
        ensures fits { self.new.faults < 2 ^ 64 }
    {
        let WriteSink { inner, faults } = self;
        if part.is_empty() {
            return Ok(0);
        }
        match inner.write(part) {
            Ok(count) if 0 < count => Ok(count),
            _ => Err(Failed::counted(faults)),
        }
    }
}
