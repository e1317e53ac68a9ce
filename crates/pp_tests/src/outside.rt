// Sources and sinks: the fakes in memory, the clean ones, and the adapters of std's readers and writers.
ghost use Rattle.std.specs.Prelude.{◌≡◌, ◌<◌, ◌++◌, ℕ, List, Some, length, take, IfOk, OnOk, OnErr};
ghost use Rattle.pp_outside.specs.Faults.{Rose};
ghost use Rattle.pp_outside.specs.Sink.{Adds};

use pp_outside::{
    CleanSink, CleanSource, Failed, MemSink, MemSource, ReadSource, Sink, Source, Steps, WriteSink,
    read_some, write_whole,
};
use std::io;
use std::io::{ErrorKind, Read, Write};
use std::marker::Brand;
use std::sync::ledger::{Blank, Ledger};
use std::test::Fail;

// The whole input of a source that tells its bytes, where they are fewer than the buffer holds.
fn whole_input<S: Source>(source: &mut S, buffer: &mut [u8]) -> Result<usize, Failed>
    ensures whole { (bytes : List ℕ) → S.left source.old ≡ Some bytes → length bytes < length buffer.new
        → IfOk result (λ n. take n buffer.new ≡ bytes) }
{
    read_some(source, buffer)
}

// Two parts, one after the other.
fn write_both<K: Sink>(sink: &mut K, first: &[u8], second: &[u8]) -> Result<(), Failed>
    ensures whole { OnOk result (Adds (K.written sink.old) (K.written sink.new) (first.now ++ second.now)) }
    ensures failed { OnErr result (Rose (K.faults sink.old) (K.faults sink.new)) }
{
    write_whole(sink, first)?;
    write_whole(sink, second)
}

#[test]
fn a_source_in_parts_is_read_whole(rt: HostRuntime) -> Result<(), Fail> {
    for most in [1, 2, 7] {
        let mut source = MemSource::new(rt.alloc(), b"bab", most, &[])?;
        let mut buffer = [0u8; 4];
        assert_eq!(rt;
            whole_input(&mut source, &mut buffer)?,
            3,
            "in parts of {most}"
        );
        assert_eq!(rt; buffer[..3], b"bab"[..], "in parts of {most}");
        assert_eq!(rt;
            read_some(&mut source, &mut buffer)?,
            0,
            "in parts of {most}"
        );
    }
    Ok(())
}

#[test]
fn a_source_fails_at_the_listed_calls(rt: HostRuntime) -> Result<(), Fail> {
    let mut source = MemSource::new(rt.alloc(), b"bab", 2, &[0, 2])?;
    let mut buffer = [0u8; 4];
    assert_eq!(rt; read_some(&mut source, &mut buffer), Err(Failed));
    assert_eq!(rt; read_some(&mut source, &mut buffer), Err(Failed));
    assert_eq!(rt; buffer[..2], b"ba"[..]);
    assert_eq!(rt; read_some(&mut source, &mut buffer)?, 1);
    assert_eq!(rt; buffer[..1], b"b"[..]);
    Ok(())
}

#[test]
fn a_sink_that_takes_a_byte_a_call_gets_all(rt: HostRuntime) -> Result<(), Fail> {
    let mut sink = MemSink::new(rt.alloc(), 6, 1, &[])?;
    write_both(&mut sink, b"bab", b"abb")?;
    assert_eq!(rt; sink.written(), b"bababb".as_slice());
    Ok(())
}

#[test]
fn a_sink_fails_at_the_listed_calls_and_without_room(rt: HostRuntime) -> Result<(), Fail> {
    let mut sink = MemSink::new(rt.alloc(), 3, 2, &[0, 2])?;
    assert_eq!(rt; write_whole(&mut sink, b"bab"), Err(Failed));
    assert_eq!(rt; sink.written(), b"".as_slice());
    assert_eq!(rt; write_whole(&mut sink, b"bab"), Err(Failed));
    assert_eq!(rt; sink.written(), b"ba".as_slice());
    write_whole(&mut sink, b"b")?;
    assert_eq!(rt; write_whole(&mut sink, b"b"), Err(Failed));
    write_whole(&mut sink, b"")?;
    assert_eq!(rt; sink.written(), b"bab".as_slice());
    Ok(())
}

#[test]
fn the_clean_ones_never_fail(rt: HostRuntime) -> Result<(), Fail> {
    let mut buffer = [0u8; 4];
    let mut source = CleanSource::new(b"babab");
    assert_eq!(rt; read_some(&mut source, &mut buffer)?, 4);
    assert_eq!(rt; buffer[..], b"baba"[..]);
    assert_eq!(rt; read_some(&mut source, &mut buffer)?, 1);
    assert_eq!(rt; buffer[..1], b"b"[..]);
    write_whole(&mut CleanSink::new(), b"babab")?;
    Ok(())
}

// A reader that gives two bytes a call, and a writer that takes two, or takes nothing. Each fails at one call.
#[derive(Drop)]
struct Halting {
    calls: u32,
    fails_at: u32,
    takes: usize,
}

impl Halting {
    // How many of so many bytes this call moves.
    fn moved(&mut self, room: usize) -> io::Result<usize> {
        let call = self.calls;
        self.calls = call.saturating_add(1);
        if call == self.fails_at {
            return Err(io::Error::from(ErrorKind::Other));
        }
        Ok(self.takes.min(room))
    }
}

impl Read for Halting {
    fn read(&mut self, buf: &mut [u8]) -> io::Result<usize> {
        let count = self.moved(buf.len())?;
        let count = count.min(buf.len());
        buf[..count].fill(b'b');
        Ok(count)
    }
}

impl Write for Halting {
    fn write(&mut self, buf: &[u8]) -> io::Result<usize> {
        let count = self.moved(buf.len())?;
        Ok(count.min(buf.len()))
    }

    fn flush(&mut self) -> io::Result<()> {
        Ok(())
    }
}

// Two bytes a call, and a failure at this one.
const fn failing_at(fails_at: u32) -> Halting {
    Halting {
        calls: 0,
        fails_at,
        takes: 2,
    }
}

// The first call would fail. An empty buffer makes none, so the next one is the first.
#[test]
fn a_reader_of_std_is_a_source(rt: HostRuntime) -> Result<(), Fail> {
    let mut buffer = [0u8; 4];
    let mut source = ReadSource::new(b"bab".as_slice());
    assert_eq!(rt; read_some(&mut source, &mut buffer)?, 3);
    assert_eq!(rt; buffer[..3], b"bab"[..]);

    let mut input = ReadSource::new(rt.stdin());
    assert_eq!(rt; input.read(&mut [])?, 0);

    let mut source = ReadSource::new(failing_at(0));
    assert_eq!(rt; source.read(&mut [])?, 0);
    assert_eq!(rt; source.read(&mut buffer), Err(Failed));
    assert_eq!(rt; source.read(&mut buffer)?, 2);
    Ok(())
}

#[test]
fn a_reader_that_errs_in_the_middle_is_no_end(rt: HostRuntime) -> Result<(), Fail> {
    let mut buffer = [0u8; 6];
    let mut source = ReadSource::new(failing_at(1));
    assert_eq!(rt; read_some(&mut source, &mut buffer), Err(Failed));
    assert_eq!(rt; buffer, *b"bb\0\0\0\0");
    assert_eq!(rt; read_some(&mut source, &mut buffer)?, 6);
    assert_eq!(rt; buffer, *b"bbbbbb");
    Ok(())
}

#[test]
fn a_writer_of_std_is_a_sink(rt: HostRuntime) -> Result<(), Fail> {
    let mut written = Vec::new(rt.alloc());
    let mut sink = WriteSink::new(&mut written);
    write_whole(&mut sink, b"bab")?;
    assert_eq!(rt; written.as_slice(), b"bab".as_slice());

    let mut output = WriteSink::new(rt.stdout());
    assert_eq!(rt; output.write(&[])?, 0);

    // An empty part makes no call, a short write is told as short, and an error as one.
    let mut sink = WriteSink::new(failing_at(1));
    assert_eq!(rt; sink.write(&[])?, 0);
    assert_eq!(rt; sink.write(b"bab")?, 2);
    assert_eq!(rt; sink.write(b"bab"), Err(Failed));
    write_whole(&mut sink, b"bab")?;

    let mut full = WriteSink::new(Halting {
        takes: 0,
        ..failing_at(9)
    });
    assert_eq!(rt; full.write(b"b"), Err(Failed));
    Ok(())
}

#[test]
fn a_failure_has_a_text(rt: HostRuntime) -> Result<(), Fail> {
    let text = format!(in rt.alloc(); "{}", Failed)?;
    assert_eq!(rt; text.as_str(), "the outside failed");
    Ok(())
}

// Two steps over the ledger of this blank.
fn two_steps<L: Ledger>(blank: Blank)
    requires name { blank.name ≡ L.name }
    requires parts { blank.parts ≡ L.parts }
    requires some { 0 < blank.parts }
{
    let mut steps = Steps::<L>::new(blank);
    steps.tick();
    steps.tick();
}

#[test]
fn steps_are_counted() {
    two_steps::<Brand>(Blank::new(1));
}
