// The lines of the graph, as data.
ghost use Rattle.std.specs.Prelude.{◌≡◌, ◌+◌, ◌*◌, ◌<◌, ◌≤◌, ◌++◌, true, length, flat_map, OnOk};
ghost use Rattle.pp_bytes.specs.Bytes.{bytes_of};
ghost use Rattle.pp_graph.specs.Calls.{last_node as last_node_of, has_otherwise as has_otherwise_of, named_kind, named_code};
ghost use Rattle.pp_bytes.specs.Ranges.{in_ranges};
ghost use Rattle.std.specs.FinSet.{from_list};
ghost use Rattle.pp_http.specs.ByteSets.{down};
ghost use Rattle.pp_rules.specs.declared.call.NamedKind.TheVariants.{Invoke as named_invoke};
ghost use Rattle.pp_http.specs.Rows.{row_calls, kind_named, row_fits, rows_fit, bytes_in};

use pp_bytes::{ByteSet, Fold};
use pp_graph::{CodeText, GraphBuilder, KindText, NoMemory, Width};

/// A set of bytes that rows name.
#[derive(Clone, Copy)]
pub enum Bytes {
    /// LF and CR.
    Ends,
    /// Tab and space.
    Blanks,
    /// LF, CR and the comma.
    Marks,
    /// Tab, space and the comma.
    List,
    /// The bytes of a token.
    Token,
    /// The bytes of a field's value.
    Value,
    /// These without the comma.
    ValueNoComma,
    /// And without the double quote.
    PlainValue,
    /// The bytes of a request's target.
    Target,
    /// All bytes.
    Every,
}

/// What a node does, with the names of a property, a host code or a span, and numbers.
#[derive(Clone, Copy)]
pub enum NodeKind<'t> {
    Match,
    /// A match that reads A to Z as a to z.
    Lower,
    Call(&'t str),
    Store(&'t str),
    Load(&'t str),
    Update(&'t str, u64),
    Equal(&'t str, u64),
    And(&'t str, u64),
    Or(&'t str, u64),
    Test(&'t str, u64),
    /// A product and a sum, up to the property's greatest value.
    MulAdd(&'t str, u32),
    Consume(&'t str),
    Open(&'t str),
    Close(&'t str),
    Pause(u32, &'t str),
    Fail(u32, &'t str),
}

/// A declaration, a node, or edges of the node above.
#[derive(Clone, Copy)]
pub enum Row<'t> {
    Prop(&'t str, Width),
    Host(&'t str),
    Span(&'t str),
    Entry(&'t str),
    Finish(&'t str, &'t str),
    /// A node without its edges.
    Node(&'t str, NodeKind<'t>),
    /// A key.
    On(&'t str, &'t str),
    /// A key with its number.
    Select(&'t str, u32, &'t str),
    /// A key of one byte for each byte of a set.
    OnAny(Bytes, &'t str),
    Peek(u8, &'t str),
    /// A peek for each byte of a set.
    PeekAny(Bytes, &'t str),
    /// An answer.
    Is(u32, &'t str),
    /// The otherwise, which takes no byte.
    Otherwise(&'t str),
    /// The otherwise, which takes a byte.
    Skip(&'t str),
}

/// The bytes of a set.
pub fn byte_set(bytes: Bytes) -> ByteSet
    ensures { bytes_of result ≡ bytes_in bytes }
{
    match bytes {
        Bytes::Ends => set_of(&[(10, 10), (13, 13)]),
        Bytes::Blanks => set_of(&[(9, 9), (32, 32)]),
        Bytes::Marks => set_of(&[(10, 10), (13, 13), (44, 44)]),
        Bytes::List => set_of(&[(9, 9), (32, 32), (44, 44)]),
        Bytes::Token => set_of(&[
            (33, 33),
            (35, 39),
            (42, 43),
            (45, 46),
            (48, 57),
            (65, 90),
            (94, 122),
            (124, 124),
            (126, 126),
        ]),
        Bytes::Value => set_of(&[(9, 9), (32, 126), (128, 255)]),
        Bytes::ValueNoComma => set_of(&[(9, 9), (32, 43), (45, 126), (128, 255)]),
        Bytes::PlainValue => set_of(&[(9, 9), (32, 33), (35, 43), (45, 126), (128, 255)]),
        Bytes::Target => set_of(&[(33, 126)]),
        Bytes::Every => set_of(&[(0, 255)]),
    }
}

/// The bytes of these ranges.
pub fn set_of(ranges: &[(u8, u8)]) -> ByteSet
    ensures { result ≡ from_list (down 256 ranges.now) }
{
    let mut set = ByteSet::new();
    for k in 0..256usize {
        let b = k as u8;
        if is_in(ranges, b) {
            set.add(b);
        }
    }
    set
}

// Whether a byte is in one of the ranges.
fn is_in(ranges: &[(u8, u8)], b: u8) -> bool
    ensures { result ≡ in_ranges ranges.now b }
{
    ranges.iter().any(|(lo, hi)| *lo <= b && b <= *hi)
}

// The kind of a node, as the builder takes it.
fn kind_text(kind: NodeKind<'_>) -> KindText<'_>
    ensures { named_kind result ≡ kind_named kind.entry }
{
    match kind {
        NodeKind::Match => KindText::Match { fold: Fold::Same },
        NodeKind::Lower => KindText::Match { fold: Fold::Lower },
        NodeKind::Consume(prop) => KindText::Consume { prop },
        NodeKind::Open(span) => KindText::SpanOpen { span },
        NodeKind::Close(span) => KindText::SpanClose { span },
        NodeKind::Pause(code, reason) => KindText::Pause { code, reason },
        NodeKind::Fail(code, reason) => KindText::Fail { code, reason },
        NodeKind::Call(host) => invoke(CodeText::Call { host }),
        NodeKind::Store(prop) => invoke(CodeText::Store { prop }),
        NodeKind::Load(prop) => invoke(CodeText::Load { prop }),
        NodeKind::Update(prop, value) => invoke(CodeText::Update { prop, value }),
        NodeKind::Equal(prop, value) => invoke(CodeText::Equal { prop, value }),
        NodeKind::And(prop, value) => invoke(CodeText::And { prop, value }),
        NodeKind::Or(prop, value) => invoke(CodeText::Or { prop, value }),
        NodeKind::Test(prop, value) => invoke(CodeText::Test { prop, value }),
        NodeKind::MulAdd(prop, base) => invoke(CodeText::MulAdd {
            prop,
            base,
            max: None,
        }),
    }
}

// A node that runs this code.
fn invoke(code: CodeText<'_>) -> KindText<'_>
    ensures { named_kind result ≡ named_invoke (named_code code.entry) }
{
    KindText::Invoke { code }
}

/// Adds the calls of a row.
pub fn add_row(b: &mut GraphBuilder, row: Row<'_>) -> Result<(), NoMemory>
    requires fits { row_fits (last_node_of b.old) (has_otherwise_of b.old) row ≡ true }
    requires room { length b.old < 4294967039 }
    ensures added { OnOk result (b.new ≡ b.old ++ row_calls row.entry) }
{
    match row {
        Row::Prop(name, width) => b.prop(name, width),
        Row::Host(name) => b.host(name, false),
        Row::Span(name) => b.span(name),
        Row::Entry(name) => b.entry(name),
        Row::Finish(prop, host) => b.finish(prop, host),
        Row::Node(name, kind) => b.node(name, kind_text(kind)),
        Row::On(key, target) => b.key(key.as_bytes(), None, target),
        Row::Select(key, number, target) => b.key(key.as_bytes(), Some(number), target),
        Row::OnAny(bytes, target) => b.keys(byte_set(bytes), None, target),
        Row::Peek(byte, target) => b.peek(byte, target),
        Row::PeekAny(bytes, target) => b.peeks(byte_set(bytes), target),
        Row::Is(answer, target) => b.answer(answer, target),
        Row::Otherwise(target) => b.otherwise(target),
        Row::Skip(target) => b.skip(target),
    }
}

/// Adds the calls of these rows, in order.
pub fn add_rows(b: &mut GraphBuilder, rows: &[Row<'_>]) -> Result<(), NoMemory>
    requires fits { rows_fit (last_node_of b.old) (has_otherwise_of b.old) rows.now ≡ true }
    requires room { length b.old + 256 * length rows.now < 4294967039 }
    ensures added { OnOk result (b.new ≡ b.old ++ flat_map row_calls rows.now) }
    ensures long { OnOk result (length b.new ≤ length b.old + 256 * length rows.now) }
{
    for row in rows {
        add_row(b, *row)?;
    }
    Ok(())
}
