use pp_frame::{
    ChunkFault, Field, Framing, HeadFault, Part, Start, chunk_data, fields_of, framing,
};
use std::test::Fail;

/// A request of version 1.1.
const REQUEST: Start = Start {
    response: false,
    status: 0,
    minor: 1,
};

/// A request of version 1.0.
const OLD_REQUEST: Start = Start {
    response: false,
    status: 0,
    minor: 0,
};

// A response of version 1.1.
fn response(status: u16) -> Start {
    Start {
        response: true,
        status,
        minor: 1,
    }
}

// A field by its four places.
fn field(name: Part, value: Part) -> Field {
    Field { name, value }
}

// A part by its two places.
fn part(from: usize, to: usize) -> Part {
    Part { from, to }
}

#[test]
fn a_field_is_its_name_and_its_value_without_blanks(rt: HostRuntime) -> Result<(), Fail> {
    let one = fields_of(rt.alloc(), b"A: b\r\n\r\n")?;
    assert_eq!(rt; one.as_slice(), [field(part(0, 1), part(3, 4))].as_slice());
    let none = fields_of(rt.alloc(), b"\r\nA: b\r\n\r\n")?;
    assert_eq!(rt; none.as_slice(), [].as_slice());
    let three = fields_of(rt.alloc(), b"A:\t b c \t\r\nBC: \r\nD:e:f\r\n\r\nrest")?;
    let want = [
        field(part(0, 1), part(4, 7)),
        field(part(11, 13), part(15, 15)),
        field(part(17, 18), part(19, 22)),
    ];
    assert_eq!(rt; three.as_slice(), want.as_slice());
    Ok(())
}

const BAD_HEADS: [(&[u8], HeadFault); 9] = [
    (b"", HeadFault::NoEnd),
    (b"A: b", HeadFault::NoEnd),
    (b"A: b\r\n", HeadFault::NoEnd),
    (b"A: b\r\n\n", HeadFault::NoEnd),
    (b"A: b\n\n", HeadFault::NoEnd),
    (b"A\r\nB: c\r\n", HeadFault::NoEnd),
    (b"A\r\nB: c\r\n\r\n", HeadFault::NoColon { line: 1 }),
    (b"A: b\r\nB\r\nC\r\n\r\n", HeadFault::NoColon { line: 2 }),
    (b"A: b\r\n c\r\n\r\n", HeadFault::NoColon { line: 2 }),
];

#[test]
fn a_bad_head_is_told_by_its_first_cause(rt: HostRuntime) {
    for (head, want) in BAD_HEADS {
        match fields_of(rt.alloc(), head) {
            Err(fault) => assert_eq!(rt; fault, want, "at {head:?}"),
            Ok(_) => assert!(rt; false, "a fault at {head:?}"),
        }
    }
}

/// Heads that are refused, with the number of the error.
const REFUSED: [(Start, &[u8], u32); 7] = [
    (
        REQUEST,
        b"Content-Length: 5\r\nContent-Length: 5\r\n\r\n",
        4,
    ),
    (OLD_REQUEST, b"Transfer-Encoding: chunked\r\n\r\n", 15),
    (REQUEST, b"Transfer-Encoding: gzip\r\n\r\n", 15),
    (REQUEST, b"Transfer-Encoding: chunked, gzip\r\n\r\n", 15),
    (REQUEST, b"Transfer-Encoding: \"chunked\"\r\n\r\n", 15),
    (REQUEST, b"Content-Length: +5\r\n\r\n", 11),
    (REQUEST, b"Content-Length: 18446744073709551616\r\n\r\n", 11),
];

#[test]
fn hostile_heads_are_refused(rt: HostRuntime) -> Result<(), Fail> {
    for (start, head, code) in REFUSED {
        let fields = fields_of(rt.alloc(), head)?;
        assert_eq!(rt;
            framing(start, head, &fields, 0),
            Framing::Refused(code),
            "at {head:?}"
        );
    }
    Ok(())
}

/// Heads of requests of version 1.1, the host's answer and the framing.
const REQUESTS: [(&[u8], u32, Framing); 13] = [
    (b"\r\n", 0, Framing::Length(0)),
    (b"Host: a\r\n\r\n", 0, Framing::Length(0)),
    (b"CONTENT-length: 007\r\n\r\n", 0, Framing::Length(7)),
    (
        b"Content-Length: 18446744073709551615\r\n\r\n",
        0,
        Framing::Length(u64::MAX),
    ),
    (b"Content-Length:\r\n\r\n", 0, Framing::Refused(11)),
    (
        b"Content-Length: 5\r\nTransfer-Encoding: chunked\r\n\r\n",
        0,
        Framing::Refused(4),
    ),
    (b"transfer-encoding: Chunked\r\n\r\n", 0, Framing::Chunked),
    (
        b"Transfer-Encoding: gzip, chunked ,,\r\n\r\n",
        0,
        Framing::Chunked,
    ),
    (
        b"Transfer-Encoding: gzip\r\nA: b\r\nTransfer-Encoding: chunked\r\n\r\n",
        0,
        Framing::Chunked,
    ),
    (
        b"Transfer-Encoding: chunked, chunked\r\n\r\n",
        0,
        Framing::Chunked,
    ),
    (
        b"Transfer-Encoding: chunked\r\nTransfer-Encoding: gzip\r\n\r\n",
        0,
        Framing::Refused(15),
    ),
    // a HEAD whose host says that no body follows, and a CONNECT whose host asks for a tunnel
    (b"Content-Length: 5\r\n\r\n", 1, Framing::Nothing),
    (b"Content-Length: 5\r\n\r\n", 2, Framing::Tunnel),
];

#[test]
fn requests_are_framed(rt: HostRuntime) -> Result<(), Fail> {
    for (head, answer, want) in REQUESTS {
        let fields = fields_of(rt.alloc(), head)?;
        assert_eq!(rt;
            framing(REQUEST, head, &fields, answer),
            want,
            "at {head:?}"
        );
    }
    Ok(())
}

/// Statuses of responses, heads, the host's answer and the framing.
const RESPONSES: [(u16, &[u8], u32, Framing); 11] = [
    (100, b"Content-Length: 5\r\n\r\n", 0, Framing::Nothing),
    (101, b"\r\n", 0, Framing::Nothing),
    (
        199,
        b"Transfer-Encoding: chunked\r\n\r\n",
        0,
        Framing::Nothing,
    ),
    (204, b"Content-Length: 5\r\n\r\n", 0, Framing::Nothing),
    (304, b"Content-Length: 5\r\n\r\n", 0, Framing::Nothing),
    (200, b"\r\n", 0, Framing::UntilClose),
    (200, b"Content-Length: 5\r\n\r\n", 0, Framing::Length(5)),
    (
        200,
        b"Transfer-Encoding: gzip\r\n\r\n",
        0,
        Framing::UntilClose,
    ),
    (
        200,
        b"Transfer-Encoding: gzip, chunked\r\n\r\n",
        0,
        Framing::Chunked,
    ),
    // the response to a HEAD, and to a CONNECT
    (200, b"Content-Length: 5\r\n\r\n", 1, Framing::Nothing),
    (200, b"\r\n", 2, Framing::Tunnel),
];

#[test]
fn responses_are_framed(rt: HostRuntime) -> Result<(), Fail> {
    for (status, head, answer, want) in RESPONSES {
        let fields = fields_of(rt.alloc(), head)?;
        assert_eq!(rt;
            framing(response(status), head, &fields, answer),
            want,
            "at {status} {head:?}"
        );
    }
    Ok(())
}

/// Chunked bodies, how many bytes each takes, and the data.
const CHUNKED: [(&[u8], usize, &[u8]); 5] = [
    (b"5\r\nHELLO\r\n0\r\n\r\n", 15, b"HELLO"),
    (b"0\r\n\r\nrest", 5, b""),
    (b"1;x=y\r\na\r\n00;z\r\nA: b\r\nC:\r\n\r\n", 28, b"a"),
    (b"2\r\n\r\n\r\n1\r\nb\r\n0\r\n\r\n5", 18, b"\r\nb"),
    (b"00a\r\n0123456789\r\n0\r\n\r\n", 22, b"0123456789"),
];

#[test]
fn a_chunked_body_gives_its_data(rt: HostRuntime) -> Result<(), Fail> {
    for (bytes, used, body) in CHUNKED {
        let found = chunk_data(rt.alloc(), bytes)?;
        assert!(rt; found.whole, "at {bytes:?}");
        assert_eq!(rt; found.used, used, "at {bytes:?}");
        assert_eq!(rt; found.body.as_slice(), body, "at {bytes:?}");
    }
    Ok(())
}

/// A chunked body with an extension and trailers. Its data stands from 7 to 10.
const CUT: &[u8] = b"3;x=y\r\nabc\r\n0\r\nA: b\r\n\r\n";

#[test]
fn a_body_that_is_cut_off_gives_its_data_so_far(rt: HostRuntime) -> Result<(), Fail> {
    for len in 0..CUT.len() {
        let found = chunk_data(rt.alloc(), &CUT[..len])?;
        assert!(rt; !found.whole, "at {len}");
        assert_eq!(rt; found.used, len, "at {len}");
        let from = len.min(7);
        assert_eq!(rt; found.body.as_slice(), &CUT[from..len.min(10)], "at {len}");
    }
    assert!(rt; chunk_data(rt.alloc(), CUT)?.whole);
    Ok(())
}

/// Bytes that are no chunked body, and the first wrong byte.
const WRONG: [(&[u8], usize); 10] = [
    (b"g", 0),
    (b"5x", 1),
    (b"5 \r\n", 1),
    (b"5\n", 1),
    (b"1\r\nab", 4),
    (b"0\r\n\n", 3),
    (b"0\r\nA b\r\n", 4),
    (b"0\r\n: b\r\n", 3),
    (b"1;\x7f", 2),
    (b"10000000000000000\r\n", 16),
];

#[test]
fn the_first_wrong_byte_of_a_chunked_body_is_told(rt: HostRuntime) -> Result<(), Fail> {
    for (bytes, want) in WRONG {
        match chunk_data(rt.alloc(), bytes) {
            Err(fault) => assert_eq!(rt; fault, ChunkFault::Form { offset: want }, "at {bytes:?}"),
            Ok(_) => assert!(rt; false, "a fault at {bytes:?}"),
        }
    }
    let largest = chunk_data(rt.alloc(), b"ffffffffffffffff\r\nab")?;
    assert!(rt; !largest.whole);
    assert_eq!(rt; largest.body.as_slice(), b"ab".as_slice());
    Ok(())
}
