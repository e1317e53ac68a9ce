// Runs of bytes in some ranges.

use pp_bytes::Ranges;
use pp_scan::run_of;

const DIGITS: [(u8, u8); 1] = [(b'0', b'9')];

const HEX_DIGITS: [(u8, u8); 3] = [(b'0', b'9'), (b'A', b'F'), (b'a', b'f')];

// The ranges of pairs, each of which may follow those before it.
fn ranges_of(pairs: &[(u8, u8)]) -> Ranges {
    let mut ranges = Ranges::new();
    for (lo, hi) in pairs {
        if ranges.can_push(*lo, *hi) {
            ranges.push(*lo, *hi);
        }
    }
    ranges
}

#[test]
fn stops_at_the_first_byte_outside(rt: HostRuntime) {
    let mut bytes = [b'1'; 41];
    bytes[40] = b'x';
    assert_eq!(rt; run_of(&ranges_of(&DIGITS), &bytes), 40);
}

// How many bytes come first that are in the ranges, one by one.
fn plain_count(ranges: &Ranges, bytes: &[u8]) -> usize {
    for (place, b) in bytes.iter().enumerate() {
        if !ranges.has(*b) {
            return place;
        }
    }
    bytes.len()
}

#[test]
fn every_length_is_as_the_plain_count(rt: HostRuntime) {
    let ranges = ranges_of(&HEX_DIGITS);
    let inside = [b'c'; 100];
    for len in 0..=100 {
        let bytes = &inside[..len];
        assert_eq!(rt; run_of(&ranges, bytes), len, "{len} bytes inside");
        assert_eq!(rt;
            plain_count(&ranges, bytes),
            len,
            "{len} bytes inside, one by one"
        );
    }
    for place in 0..100 {
        let mut bytes = inside;
        bytes[place] = b'g';
        assert_eq!(rt; run_of(&ranges, &bytes), place, "one outside at {place}");
        assert_eq!(rt;
            plain_count(&ranges, &bytes),
            place,
            "one outside at {place}, one by one"
        );
    }
}

// A byte, and how many of 64 of them come first that are digits.
const EDGES: [(u8, usize); 6] = [
    (b'/', 0),
    (b'0', 64),
    (b'9', 64),
    (b':', 0),
    (0x00, 0),
    (0xff, 0),
];

#[test]
fn ends_of_a_pair_are_inside(rt: HostRuntime) {
    let ranges = ranges_of(&DIGITS);
    for (b, run) in EDGES {
        assert_eq!(rt; run_of(&ranges, &[b; 64]), run, "byte {b}");
    }
    assert_eq!(rt; run_of(&Ranges::new(), &[b'0'; 64]), 0, "no pair");
}
