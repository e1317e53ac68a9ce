// Reading what a file declares: counts, the finish rule, properties, host codes, spans and names.
ghost use Rattle.std.specs.Prelude.{◌≡◌, ℕ, length, None, IfOk};
ghost use Rattle.pp_file.specs.Fields.{text_at, any_at, items_at};
ghost use Rattle.pp_file.specs.Parts.{width_at, prop_at, host_at, span_at, rule_at, finish_at, counts_at};
ghost use Rattle.pp_file.specs.steps.Readers.{Gives};

use crate::cursor::Cursor;
use crate::fault::FileFault;
use pp_bytes::Listed;
use pp_rules::{HostDecl, Name, PropDecl, SpanDecl, Width};
use std::alloc::Global;

/// How many properties, host codes, spans, names and states a file has, and its entry.
#[derive(Clone, Copy, Debug)]
pub(crate) struct Counts {
    pub(crate) props: u8,
    pub(crate) hosts: u8,
    pub(crate) spans: u8,
    pub(crate) names: u16,
    pub(crate) states: u16,
    pub(crate) entry: u16,
}

const MOST_PROPS: u32 = 64;

const MOST_HOSTS: u32 = 64;

const MOST_SPANS: u32 = 32;

const MOST_NAMES: u32 = 4096;

const MOST_STATES: u32 = 65535;

/// The counts and the entry.
#[tactic(auto, unfolding(crate::specs::Parts::counts_at))]
pub(crate) fn read_counts(cursor: &mut Cursor<'_>) -> Result<Counts, FileFault>
    ensures { Gives result cursor.new (counts_at cursor.old) }
{
    let props = cursor.u8_within(0, MOST_PROPS)?;
    let hosts = cursor.u8_within(0, MOST_HOSTS)?;
    let spans = cursor.u8_within(0, MOST_SPANS)?;
    let names = cursor.u16_within(1, MOST_NAMES)?;
    let states = cursor.u16_within(1, MOST_STATES)?;
    let entry = cursor.read_u16()?;
    Ok(Counts {
        props,
        hosts,
        spans,
        names,
        states,
        entry,
    })
}

// The property and the host code of the finish rule.
#[tactic(auto, unfolding(crate::specs::Parts::rule_at))]
fn read_rule(cursor: &mut Cursor<'_>) -> Result<Option<(u32, u32)>, FileFault>
    ensures { Gives result cursor.new (rule_at cursor.old) }
{
    let prop = cursor.read_u8()?;
    let host = cursor.read_u8()?;
    Ok(Some((prop as u32, host as u32)))
}

/// The finish rule, if there is one.
#[tactic(auto, unfolding(crate::specs::Parts::finish_at))]
pub(crate) fn read_finish(cursor: &mut Cursor<'_>) -> Result<Option<(u32, u32)>, FileFault>
    ensures { Gives result cursor.new (finish_at cursor.old) }
{
    let there = cursor.u8_within(0, 1)?;
    if there == 0 {
        return Ok(None);
    }
    read_rule(cursor)
}

// A name.
fn read_name(alloc: Global, cursor: &mut Cursor<'_>) -> Result<Name, FileFault>
    ensures { Gives result cursor.new (text_at cursor.old) }
{
    let text = cursor.text()?;
    Ok(Name::new(alloc, text)?)
}

// How many bits a property has.
#[tactic(auto, unfolding(crate::specs::Parts::width_at))]
fn read_width(cursor: &mut Cursor<'_>) -> Result<Width, FileFault>
    ensures { Gives result cursor.new (width_at cursor.old) }
{
    let offset = cursor.place();
    match cursor.read_u8()? {
        8 => Ok(Width::W8),
        16 => Ok(Width::W16),
        32 => Ok(Width::W32),
        64 => Ok(Width::W64),
        _ => Err(FileFault::Form { offset }),
    }
}

// A property.
#[tactic(auto, unfolding(crate::specs::Parts::prop_at))]
fn read_prop(alloc: Global, cursor: &mut Cursor<'_>) -> Result<PropDecl, FileFault>
    ensures { Gives result cursor.new (prop_at cursor.old) }
{
    let name = read_name(alloc, cursor)?;
    let width = read_width(cursor)?;
    Ok(PropDecl { name, width })
}

// A host code.
#[tactic(auto, unfolding(crate::specs::Parts::host_at))]
fn read_host(alloc: Global, cursor: &mut Cursor<'_>) -> Result<HostDecl, FileFault>
    ensures { Gives result cursor.new (host_at cursor.old) }
{
    let name = read_name(alloc, cursor)?;
    let signature = cursor.u8_within(0, 1)?;
    Ok(HostDecl {
        name,
        value: signature == 1,
    })
}

// A span.
#[tactic(auto, unfolding(crate::specs::Parts::span_at))]
fn read_span(alloc: Global, cursor: &mut Cursor<'_>) -> Result<SpanDecl, FileFault>
    ensures { Gives result cursor.new (span_at cursor.old) }
{
    let name = read_name(alloc, cursor)?;
    Ok(SpanDecl { name })
}

/// So many properties.
pub(crate) fn read_props(
    alloc: Global,
    cursor: &mut Cursor<'_>,
    count: u8,
) -> Result<Listed<PropDecl>, FileFault>
    ensures { Gives result cursor.new (any_at prop_at count cursor.old) }
{
    let mut props = Vec::new(alloc);
    for _ in 0..count {
        let prop = read_prop(alloc, cursor)?;
        props.push(prop)?;
    }
    Ok(Listed::of(props))
}

/// So many host codes.
pub(crate) fn read_hosts(
    alloc: Global,
    cursor: &mut Cursor<'_>,
    count: u8,
) -> Result<Listed<HostDecl>, FileFault>
    ensures { Gives result cursor.new (any_at host_at count cursor.old) }
{
    let mut hosts = Vec::new(alloc);
    for _ in 0..count {
        let host = read_host(alloc, cursor)?;
        hosts.push(host)?;
    }
    Ok(Listed::of(hosts))
}

/// So many spans.
pub(crate) fn read_spans(
    alloc: Global,
    cursor: &mut Cursor<'_>,
    count: u8,
) -> Result<Listed<SpanDecl>, FileFault>
    ensures { Gives result cursor.new (any_at span_at count cursor.old) }
{
    let mut spans = Vec::new(alloc);
    for _ in 0..count {
        let span = read_span(alloc, cursor)?;
        spans.push(span)?;
    }
    Ok(Listed::of(spans))
}

/// So many names.
pub(crate) fn read_names(
    alloc: Global,
    cursor: &mut Cursor<'_>,
    count: u16,
) -> Result<Listed<Name>, FileFault>
    ensures { Gives result cursor.new (any_at text_at count cursor.old) }
{
    let mut names = Vec::new(alloc);
    for _ in 0..count {
        let name = read_name(alloc, cursor)?;
        names.push(name)?;
    }
    Ok(Listed::of(names))
}
