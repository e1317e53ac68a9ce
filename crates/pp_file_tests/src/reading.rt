// Files that are read, and bytes that are none.
ghost use Rattle.std.specs.Prelude.{◌≡◌, ◌<◌};

use crate::writing::FIRST_FILE;
use pp_file::{FileFault, read_program, write_program};
use pp_outside::Steps;
use pp_program::VerifyRule;
use std::alloc::Global;
use std::marker::Brand;
use std::process::Abort;
use std::sync::ledger::{Blank, Ledger};
use std::test::Fail;

// Bytes that begin with a file.
#[derive(Clone, Copy)]
struct Begun {
    bytes: &'static [u8],
}

// The first file alone, and with bytes behind it.
const BEGUN: [Begun; 2] = [
    Begun { bytes: &FIRST_FILE },
    Begun {
        bytes: b"\x7fLLP\x01\x00\x00\x00\x3c\x00\x01\x00\x00\x02\x00\x02\x00\x00\x00\x03hit\x00\x05start\x06hit_it\x00\x00\x00\x00\x00\x00\x01aa\x01\x00\x01\x01\x00\x00\x00\x01\x01\x00\x00\x00\x00\x00more",
    },
];

// The program that the bytes begin with is written as the first file is.
fn assert_again<L: Ledger>(
    rt: &impl Abort,
    alloc: Global,
    begun: &Begun,
    blank: Blank,
) -> Result<(), Fail>
    requires name { blank.name ≡ L.name }
    requires parts { blank.parts ≡ L.parts }
    requires some { 0 < blank.parts }
{
    let (program, length) = read_program(alloc, begun.bytes)?;
    assert_eq!(rt; length, 60);
    let mut steps = Steps::<L>::new(blank);
    let written = write_program(alloc, &program, &mut steps)?;
    assert_eq!(rt; written.as_slice(), FIRST_FILE.as_slice());
    Ok(())
}

#[test]
fn a_file_is_read_again(rt: HostRuntime) -> Result<(), Fail> {
    for begun in BEGUN {
        assert_again::<Brand>(&rt, rt.alloc(), &begun, Blank::new(1))?;
    }
    Ok(())
}

// The fault of bytes that begin with no file.
fn fault_of(alloc: Global, bytes: &[u8]) -> Result<FileFault, Fail> {
    match read_program(alloc, bytes) {
        Ok(_) => Err(Fail::from("a file")),
        Err(fault) => Ok(fault),
    }
}

// The first file with one byte changed: its place, the new byte, and the fault.
const DAMAGED: [(usize, u8, FileFault); 12] = [
    (0, 0x00, FileFault::Magic),
    (4, 0x03, FileFault::Version { found: 3 }),
    (8, 0x12, FileFault::Form { offset: 5 }),
    (8, 0x3b, FileFault::Form { offset: 59 }),
    (8, 0x3d, FileFault::Short),
    (
        17,
        0x02,
        FileFault::Verify {
            rule: VerifyRule::Target,
            at: 2,
        },
    ),
    (
        25,
        0x30,
        FileFault::Verify {
            rule: VerifyRule::Names,
            at: 1,
        },
    ),
    (39, 0x0f, FileFault::Form { offset: 39 }),
    (45, 0x60, FileFault::Form { offset: 45 }),
    (
        48,
        0x05,
        FileFault::Verify {
            rule: VerifyRule::Target,
            at: 0,
        },
    ),
    (
        49,
        0x00,
        FileFault::Verify {
            rule: VerifyRule::Loop,
            at: 0,
        },
    ),
    (
        55,
        0x01,
        FileFault::Verify {
            rule: VerifyRule::Target,
            at: 1,
        },
    ),
];

#[test]
fn a_damaged_file_is_refused(rt: HostRuntime) -> Result<(), Fail> {
    for (place, byte, want) in DAMAGED {
        let mut bytes = FIRST_FILE;
        *bytes.get_mut(place).ok_or("no such place")? = byte;
        assert_eq!(rt; fault_of(rt.alloc(), &bytes)?, want);
    }
    Ok(())
}

#[test]
fn a_byte_that_is_left_over_is_refused(rt: HostRuntime) -> Result<(), Fail> {
    let mut bytes = Vec::from_slice(rt.alloc(), &FIRST_FILE)?;
    *bytes.get_mut(8).ok_or("no such place")? = 61;
    bytes.push(0)?;
    assert_eq!(rt;
        fault_of(rt.alloc(), &bytes)?,
        FileFault::Form { offset: 60 }
    );
    Ok(())
}

#[test]
fn a_file_that_is_cut_off_is_short(rt: HostRuntime) -> Result<(), Fail> {
    for length in 0..60 {
        let front = FIRST_FILE.get(..length).ok_or("no such front")?;
        assert_eq!(rt; fault_of(rt.alloc(), front)?, FileFault::Short);
    }
    Ok(())
}

// The head, counts and finish rule of a file of 200,000 bytes that states 4,096 names and 65,535 states.
const LONG_HEAD: [u8; 19] = [
    0x7f, 0x4c, 0x4c, 0x50, 0x01, 0x00, 0x03, 0x0d, 0x40, 0x00, 0x00, 0x00, 0x10, 0x00, 0xff, 0xff,
    0x00, 0x00, 0x00,
];

// These, and made bytes behind them.
fn made(alloc: Global) -> Result<Vec<u8>, Fail> {
    let mut bytes = Vec::from_slice(alloc, &LONG_HEAD)?;
    let mut x: u32 = 1;
    for _ in 19..200_000 {
        x = x.wrapping_mul(1_103_515_245).wrapping_add(12_345);
        bytes.push((x >> 24) as u8)?;
    }
    Ok(bytes)
}

// Some 1,500 names have room, and the next one runs past the end.
#[test]
fn made_bytes_are_refused(rt: HostRuntime) -> Result<(), Fail> {
    let bytes = made(rt.alloc())?;
    assert_eq!(rt;
        fault_of(rt.alloc(), &bytes)?,
        FileFault::Form { offset: 200_000 }
    );
    Ok(())
}

#[test]
fn faults_have_a_text(rt: HostRuntime) -> Result<(), Fail> {
    for (fault, want) in [
        (FileFault::Magic, "magic"),
        (FileFault::Version { found: 3 }, "version 3"),
        (FileFault::Short, "short"),
        (FileFault::Form { offset: 39 }, "form at 39"),
        (FileFault::NoMemory, "out of memory"),
    ] {
        assert_eq!(rt; format!(in rt.alloc(); "{fault}")?.as_str(), want);
    }
    Ok(())
}
