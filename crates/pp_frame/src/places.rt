// Where in a chunked body a byte stands.
ghost use Rattle.std.specs.Prelude.{◌≡◌, ◌+◌, ◌*◌, ◌<◌, ◌^◌};
ghost use Rattle.std.specs.Option.{SomeIff};
ghost use Rattle.std.specs.Char.{digit_value};
ghost use Rattle.pp_frame.specs.Bytes.{is_text_byte, is_token_byte};
ghost use Rattle.pp_frame.specs.steps.Places.{behind_data, behind_size, digit_or, holds_data, is_whole, next, when_is};

/// Where in a chunked body the next byte stands. A number is the size so far, or how many bytes of data follow that one.
#[derive(Clone, Copy, Debug, PartialEq, Eq)]
pub(crate) enum Place {
    FirstDigit,
    Digits(u64),
    Extension(u64),
    SizeFeed(u64),
    Data(u64),
    DataReturn,
    DataFeed,
    FieldStart,
    Name,
    Value,
    ValueFeed,
    LastFeed,
    Whole,
}

impl Place {
    // Whether the byte at the place is data.
    pub(crate) fn holds_data(self) -> bool
        ensures { result ≡ holds_data self }
    {
        matches!(self, Place::Data(_))
    }

    // Whether the body is there to its end.
    pub(crate) fn is_whole(self) -> bool
        ensures { result ≡ is_whole self }
    {
        matches!(self, Place::Whole)
    }

    // The place behind a byte, if the byte may stand at this one.
    #[tactic(auto, unfolding(crate::specs::steps::Places::next))]
    pub(crate) fn next(self, b: u8) -> Option<Place>
        ensures { result ≡ next self b }
    {
        match self {
            Place::FirstDigit => digit_or(0, b, None),
            Place::Digits(size) => digit_or(size, b, behind_digits(size, b)),
            Place::Extension(_) if is_text_byte(b) => Some(self),
            Place::Extension(size) => when_is(b'\r', b, Place::SizeFeed(size), None),
            Place::SizeFeed(size) => when_is(b'\n', b, behind_size(size), None),
            Place::Data(left) => Some(behind_data(left)),
            Place::DataReturn => when_is(b'\r', b, Place::DataFeed, None),
            Place::DataFeed => when_is(b'\n', b, Place::FirstDigit, None),
            Place::FieldStart if is_token_byte(b) => Some(Place::Name),
            Place::FieldStart => when_is(b'\r', b, Place::LastFeed, None),
            Place::Name if is_token_byte(b) => Some(Place::Name),
            Place::Name => when_is(b':', b, Place::Value, None),
            Place::Value if is_text_byte(b) => Some(Place::Value),
            Place::Value => when_is(b'\r', b, Place::ValueFeed, None),
            Place::ValueFeed => when_is(b'\n', b, Place::FieldStart, None),
            Place::LastFeed => when_is(b'\n', b, Place::Whole, None),
            Place::Whole => None,
        }
    }
}

// The place behind a byte that ends the digits of a size.
fn behind_digits(size: u64, b: u8) -> Option<Place>
    ensures { result ≡ when_is 13 b (Place.SizeFeed size) (when_is 59 b (Place.Extension size) None) }
{
    let extension = when_is(b';', b, Place::Extension(size), None);
    when_is(b'\r', b, Place::SizeFeed(size), extension)
}

// The place, if the byte is the wanted one, or else another.
fn when_is(wanted: u8, b: u8, place: Place, other: Option<Place>) -> Option<Place>
    ensures { result ≡ when_is wanted b place other }
{
    if b == wanted { Some(place) } else { other }
}

// The place behind one more digit of a size, or else another.
fn digit_or(size: u64, b: u8, other: Option<Place>) -> Option<Place>
    ensures { result ≡ digit_or size b other }
{
    match with_digit(size, b) {
        Some(more) => Some(Place::Digits(more)),
        None => other,
    }
}

// A size with one more hexadecimal digit behind it, if the byte is one and the size stays below 2^64.
fn with_digit(size: u64, b: u8) -> Option<u64>
    ensures { SomeIff result ((digit_value b < 16) × (size * 16 + digit_value b < 2 ^ 64)) (size * 16 + digit_value b) }
{
    let digit = char::from(b).to_digit(16)?;
    size.checked_mul(16)?.checked_add(u64::from(digit))
}

// The place behind a size line.
fn behind_size(size: u64) -> Place
    ensures { result ≡ behind_size size }
{
    if size == 0 {
        Place::FieldStart
    } else {
        Place::Data(size - 1)
    }
}

// The place behind a byte of data.
fn behind_data(left: u64) -> Place
    ensures { result ≡ behind_data left }
{
    if left == 0 {
        Place::DataReturn
    } else {
        Place::Data(left - 1)
    }
}

// A byte of a field's value or of an extension.
#[tactic(auto, unfolding(crate::specs::Bytes::is_text_byte))]
fn is_text_byte(b: u8) -> bool
    ensures { result ≡ is_text_byte b }
{
    matches!(b, b'\t' | 0x20..=0x7e | 0x80..=0xff)
}

// A byte of a field's name.
#[tactic(auto, unfolding(crate::specs::Bytes::is_token_byte))]
fn is_token_byte(b: u8) -> bool
    ensures { result ≡ is_token_byte b }
{
    b.is_ascii_alphanumeric() || b"!#$%&'*+-.^_`|~".contains(&b)
}
