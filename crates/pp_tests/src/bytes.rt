// Sets of bytes and their ranges, folds, numbers and lists.

use pp_bytes::{ByteSet, Fold, Listed, Ranges, read_number};
use std::test::Fail;

// The set of the bytes of a text.
fn set_of(text: &[u8]) -> ByteSet {
    let mut bytes = ByteSet::new();
    for b in text {
        bytes.add(*b);
    }
    bytes
}

const LETTERS_AND_DIGITS: &[u8] = b"abcdefghijklmnopqrstuvwxyzABCDEFGHIJKLMNOPQRSTUVWXYZ0123456789";

#[test]
fn digits_and_letters_are_three_ranges(rt: HostRuntime) {
    let bytes = set_of(LETTERS_AND_DIGITS);
    let ranges = bytes.ranges().expect(&rt, "three runs");
    let pairs = [(b'0', b'9'), (b'A', b'Z'), (b'a', b'z')];
    assert_eq!(rt; ranges.len(), 3);
    for i in 0..3u32 {
        assert_eq!(rt; ranges.get(i), pairs[i as usize], "place {i}");
    }
    for b in 0..=u8::MAX {
        assert_eq!(rt; ranges.has(b), bytes.has(b), "byte {b}");
    }
}

// The token bytes of RFC 9110, section 5.6.2, are nine runs.
#[test]
fn token_bytes_are_too_many_ranges(rt: HostRuntime) {
    let mut bytes = set_of(LETTERS_AND_DIGITS);
    for b in b"!#$%&'*+-.^_`|~" {
        bytes.add(*b);
    }
    assert_eq!(rt; bytes.ranges(), None);
}

#[test]
fn edges_of_the_bytes_are_runs(rt: HostRuntime) {
    let ranges = set_of(b"\x00\x01\xff").ranges().expect(&rt, "two runs");
    assert_eq!(rt; ranges.len(), 2);
    assert_eq!(rt; ranges.get(0), (0, 1));
    assert_eq!(rt; ranges.get(1), (255, 255));
    let none = ByteSet::new().ranges().expect(&rt, "no run");
    assert_eq!(rt; none, Ranges::new());
}

#[test]
fn pairs_are_pushed_in_order(rt: HostRuntime) {
    let mut ranges = Ranges::new();
    for (lo, hi, fits) in [
        (5, 9, true),
        (10, 12, false),
        (11, 10, false),
        (11, 11, true),
    ] {
        assert_eq!(rt; ranges.can_push(lo, hi), fits, "{lo} to {hi}");
        if ranges.can_push(lo, hi) {
            ranges.push(lo, hi);
        }
    }
    assert_eq!(rt; ranges.len(), 2);
    let copy = ranges;
    assert_eq!(rt; copy, ranges);
    assert!(rt; copy.has(5) && copy.has(9) && !copy.has(10) && copy.has(11) && !copy.has(12));
}

const FOLDS: [(Fold, u8, u8); 7] = [
    (Fold::Same, b'A', b'A'),
    (Fold::Lower, b'@', b'@'),
    (Fold::Lower, b'A', b'a'),
    (Fold::Lower, b'Z', b'z'),
    (Fold::Lower, b'[', b'['),
    (Fold::Lower, b'a', b'a'),
    (Fold::Lower, 0xc1, 0xc1),
];

#[test]
fn folds_a_byte(rt: HostRuntime) {
    for (fold, b, folded) in FOLDS {
        assert_eq!(rt; fold.of(b), folded, "{fold:?} of {b}");
    }
}

const NUMBERS: [(&[u8], Option<u64>); 12] = [
    (b"0", Some(0)),
    (b"7", Some(7)),
    (b"100", Some(100)),
    (b"18446744073709551615", Some(u64::MAX)),
    (b"18446744073709551616", None),
    (b"99999999999999999999999", None),
    (b"", None),
    (b"00", None),
    (b"01", None),
    (b"+1", None),
    (b"-1", None),
    (b"1 ", None),
];

#[test]
fn reads_a_number(rt: HostRuntime) {
    for (text, number) in NUMBERS {
        assert_eq!(rt; read_number(text), number, "{text:?}");
    }
}

#[test]
fn lists_lend_their_items(rt: HostRuntime) -> Result<(), Fail> {
    let list = Listed::of(vec![in rt.alloc(); 3u8, 1, 2]?);
    assert_eq!(rt; list.items(), [3u8, 1, 2].as_slice());
    Ok(())
}

#[test]
fn bytes_of_a_set_are_counted(rt: HostRuntime) {
    assert!(rt; ByteSet::new().is_empty());
    assert_eq!(rt; ByteSet::new().len(), 0);
    for b in [0, 64, u8::MAX] {
        let mut bytes = ByteSet::new();
        bytes.add(b);
        bytes.add(b);
        assert!(rt; !bytes.is_empty(), "{b}");
        assert_eq!(rt; bytes.len(), 1, "{b}");
    }
    assert_eq!(rt; set_of(LETTERS_AND_DIGITS).len(), 62);
}
