// What a parser may be told to accept beyond the strict rules.
ghost use Rattle.std.specs.Prelude.{⊤};
ghost use Rattle.pp_http.specs.Lenient.{lenient_flags};

use bitflags::{Flag, Flags, bitflag_items};

/// What may be accepted beyond the strict rules: the bits of the property lenient. The strict rules are those of no flag.
/// Contracts see the bits.
#[derive(Clone, Copy, PartialEq, Eq, Debug)]
pub struct Lenient(u16);

bitflag_items! {
    impl Lenient: u16 {
        /// A field value other than Content-Length and Transfer-Encoding may hold any byte besides CR and LF.
        const HEADERS = 1;
        /// Content-Length beside Transfer-Encoding is accepted; Transfer-Encoding decides.
        const CHUNKED_LENGTH = 2;
        /// After a message that closes the connection a new message is read.
        const KEEP_ALIVE = 4;
        /// A request whose last coding isn't chunked has a body until close.
        const TRANSFER_ENCODING = 8;
        /// Any version of the form digit, point, digit.
        const VERSION = 16;
        /// Bytes after a message that closes the connection are skipped.
        const DATA_AFTER_CLOSE = 32;
        /// A CR without LF ends a line.
        const OPTIONAL_LF_AFTER_CR = 64;
        /// Chunk data may be followed by no line end.
        const OPTIONAL_CRLF_AFTER_CHUNK = 128;
        /// An LF without CR ends a line.
        const OPTIONAL_CR_BEFORE_LF = 256;
        /// Spaces may stand after a chunk size.
        const SPACES_AFTER_CHUNK_SIZE = 512;
    }
}

impl Flags for Lenient {
    type Bits = u16;

    ghost exact = { ⊤ };

    ghost table = { lenient_flags };

    ghost set_of = { λ lenient. lenient.0 };

    fn flags<'a>() -> &'a [Flag<Lenient>] {
        Lenient::FLAGS
    }

    fn bits(&self) -> u16 {
        self.0
    }

    fn from_bits_retain(bits: u16) -> Lenient {
        Lenient(bits)
    }
}
