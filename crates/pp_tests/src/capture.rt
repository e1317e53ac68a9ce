// Records of a capture, read and written.

use pp_capture::{Entries, Rec, RecFault, Sets, one_spelling, read_rec, write_rec};
use std::test::Fail;

/// Connection 0 begins without sets and script.
const BEGIN: [u8; 5] = [1, 0, 0, 0, 0];

/// The part `bab` for connection 0.
const BAB: [u8; 7] = [2, 0, 0, 3, 0x62, 0x61, 0x62];

/// Connection 3 begins. Property 1 is 258 and property 7 is 2^63. Host code 0 answers 5 and span 1 answers 2^31 + 1.
const TWO_AND_TWO: [u8; 33] = [
    1, 3, 2, 1, 0, 0, 0, 0, 0, 0, 1, 2, 7, 0x80, 0, 0, 0, 0, 0, 0, 0, 0, 2, 0x00, 0, 0, 0, 5, 0x81,
    0x80, 0, 0, 1,
];

/// Bytes that begin with no record and are no front of one, and the place of the first wrong byte.
const WRONG: [(&[u8], usize); 8] = [
    (&[9], 0),
    (&[0], 0),
    (&[6, 0], 0),
    // a target between host codes and spans, and one past the spans
    (&[1, 0, 0, 0, 1, 0x40, 0, 0, 0, 0], 5),
    (&[1, 0, 0, 0, 1, 0xa0, 0, 0, 0, 0], 5),
    // the second entry, behind one set
    (
        &[
            1, 0, 1, 4, 0, 0, 0, 0, 0, 0, 0, 9, 0, 2, 0x3f, 0, 0, 0, 0, 0x7f, 0, 0, 0, 0,
        ],
        19,
    ),
    // the record is cut off behind the wrong byte
    (&[1, 0, 0, 0, 1, 0x40], 5),
    (&[1, 0, 0, 1, 0, 0x9f, 0, 0, 0, 0, 0xff, 0], 10),
];

#[test]
fn a_part_goes_both_ways(rt: HostRuntime) -> Result<(), Fail> {
    let rec = Rec::Bytes {
        conn: 0,
        part: b"bab",
    };
    assert_eq!(rt; write_rec(rt.alloc(), &rec)?.as_slice(), BAB.as_slice());
    match read_rec(&BAB) {
        Ok((Rec::Bytes { conn, part }, len)) => {
            assert_eq!(rt; conn, 0);
            assert_eq!(rt; part, b"bab".as_slice());
            assert_eq!(rt; len, 7);
        }
        _ => assert!(rt; false, "a Bytes record"),
    }
    assert!(rt; matches!(read_rec(&BAB[..6]), Err(RecFault::Short)));
    Ok(())
}

#[test]
fn the_largest_part_goes_both_ways(rt: HostRuntime) -> Result<(), Fail> {
    let largest = vec![in rt.alloc(); 7u8; 65535]?;
    let rec = Rec::Bytes {
        conn: 255,
        part: largest.as_slice(),
    };
    let written = write_rec(rt.alloc(), &rec)?;
    assert_eq!(rt; written.len(), 65539);
    assert!(rt; written.as_slice().starts_with(&[2, 255, 0xff, 0xff, 7]));
    match read_rec(written.as_slice()) {
        Ok((Rec::Bytes { conn, part }, len)) => {
            assert_eq!(rt; conn, 255);
            assert_eq!(rt; part, largest.as_slice());
            assert_eq!(rt; len, 65539);
        }
        _ => assert!(rt; false, "a Bytes record"),
    }
    Ok(())
}

#[test]
fn a_begin_record_tells_its_lists(rt: HostRuntime) -> Result<(), Fail> {
    match read_rec(&TWO_AND_TWO) {
        Ok((rec, len)) => {
            assert_eq!(rt; len, 33);
            assert_eq!(rt;
                write_rec(rt.alloc(), &rec)?.as_slice(),
                TWO_AND_TWO.as_slice()
            );
            match rec {
                Rec::Begin { conn, sets, script } => {
                    assert_eq!(rt; conn, 3);
                    assert_eq!(rt; sets.len(), 2);
                    assert_eq!(rt; sets.get(0), (1, 258));
                    assert_eq!(rt; sets.get(1), (7, 1 << 63));
                    assert_eq!(rt; script.len(), 2);
                    assert_eq!(rt; script.get(0), (0, 5));
                    assert_eq!(rt; script.get(1), (0x81, 0x8000_0001));
                }
                _ => assert!(rt; false, "a Begin record"),
            }
        }
        Err(_) => assert!(rt; false, "a record"),
    }
    for len in 0..TWO_AND_TWO.len() {
        assert!(rt;
            matches!(read_rec(&TWO_AND_TWO[..len]), Err(RecFault::Short)),
            "at {len}"
        );
    }
    Ok(())
}

#[test]
fn short_records_go_both_ways(rt: HostRuntime) -> Result<(), Fail> {
    let empty = Rec::Begin {
        conn: 0,
        sets: Sets::none(),
        script: Entries::none(),
    };
    assert_eq!(rt; write_rec(rt.alloc(), &empty)?.as_slice(), BEGIN.as_slice());
    assert!(rt; matches!(read_rec(&BEGIN), Ok((Rec::Begin { conn: 0, .. }, 5))));
    assert_eq!(rt;
        write_rec(rt.alloc(), &Rec::Resume { conn: 0 })?.as_slice(),
        [3, 0].as_slice()
    );
    assert!(rt; matches!(read_rec(&[3, 0]), Ok((Rec::Resume { conn: 0 }, 2))));
    assert_eq!(rt;
        write_rec(rt.alloc(), &Rec::Finish { conn: 9 })?.as_slice(),
        [4, 9].as_slice()
    );
    assert!(rt; matches!(read_rec(&[4, 9, 5]), Ok((Rec::Finish { conn: 9 }, 2))));
    assert_eq!(rt;
        write_rec(rt.alloc(), &Rec::Halt)?.as_slice(),
        [5].as_slice()
    );
    assert!(rt; matches!(read_rec(&[5, 5]), Ok((Rec::Halt, 1))));
    Ok(())
}

#[test]
fn a_wrong_kind_behind_a_record_is_told(rt: HostRuntime) {
    let bytes = [1, 0, 0, 0, 0, 9];
    match read_rec(&bytes) {
        Ok((_, len)) => {
            assert_eq!(rt; len, 5);
            assert!(rt; matches!(read_rec(&bytes[len..]), Err(RecFault::Form { offset: 0 })));
        }
        Err(_) => assert!(rt; false, "a record"),
    }
}

#[test]
fn the_first_wrong_byte_is_told(rt: HostRuntime) {
    for (bytes, want) in WRONG {
        match read_rec(bytes) {
            Err(RecFault::Form { offset }) => assert_eq!(rt; offset, want, "at {bytes:?}"),
            _ => assert!(rt; false, "a wrong byte at {bytes:?}"),
        }
    }
}

#[test]
fn faults_of_records_have_a_text(rt: HostRuntime) -> Result<(), Fail> {
    one_spelling();
    for (fault, want) in [
        (RecFault::Short, "a record is cut off"),
        (RecFault::Form { offset: 19 }, "wrong byte at 19"),
    ] {
        assert_eq!(rt; format!(in rt.alloc(); "{fault}")?.as_str(), want);
    }
    Ok(())
}
