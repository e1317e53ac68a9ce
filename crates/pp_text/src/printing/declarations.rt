// The lines of what a graph declares: properties, hosts, spans, the entry and the finish rule.
ghost use Rattle.std.specs.Prelude.{◌≡◌, ◌++◌, codes, flat_map, map, if◌then◌else◌, OnOk};
ghost use Rattle.pp_rules.specs.declared.call.BuilderCall.TheVariants as call;
ghost use Rattle.pp_text.specs.Tokens.{token_text};
ghost use Rattle.pp_text.specs.Statements.{width_word};
ghost use Rattle.pp_text.specs.Telling.{node_name as node_name_of, prop_call, host_call, span_call, finish_calls};
ghost use Rattle.pp_text.specs.Printed.{printed_line};

use crate::printing::names::{host_name, node_name, prop_name};
use crate::printing::tokens::{end_line, push_word};
use pp_graph::{Graph, HostDecl, PropDecl, SpanDecl, Width};
use std::alloc::AllocError;

/// A line for each property.
pub(crate) fn print_props(out: &mut Vec<u8>, graph: &Graph) -> Result<(), AllocError>
    ensures { OnOk result (out.new.items ≡ out.old.items ++ flat_map printed_line (map prop_call graph.now.props)) }
{
    for prop in graph.props() {
        print_prop(out, prop)?;
    }
    Ok(())
}

fn print_prop(out: &mut Vec<u8>, prop: &PropDecl) -> Result<(), AllocError>
    ensures { OnOk result (out.new.items ≡ out.old.items ++ printed_line (prop_call prop.now)) }
{
    out.extend_from_slice(b"prop")?;
    push_word(out, prop.name.bytes())?;
    push_word(out, width_text(prop.width))?;
    end_line(out)
}

fn width_text(width: Width) -> &'static [u8]
    ensures { result.now ≡ token_text (width_word width) }
{
    match width {
        Width::W8 => b"u8",
        Width::W16 => b"u16",
        Width::W32 => b"u32",
        Width::W64 => b"u64",
    }
}

/// A line for each host.
pub(crate) fn print_hosts(out: &mut Vec<u8>, graph: &Graph) -> Result<(), AllocError>
    ensures { OnOk result (out.new.items ≡ out.old.items ++ flat_map printed_line (map host_call graph.now.hosts)) }
{
    for host in graph.hosts() {
        print_host(out, host)?;
    }
    Ok(())
}

fn print_host(out: &mut Vec<u8>, host: &HostDecl) -> Result<(), AllocError>
    ensures { OnOk result (out.new.items ≡ out.old.items ++ printed_line (host_call host.now)) }
{
    out.extend_from_slice(b"host")?;
    push_word(out, host.name.bytes())?;
    push_word(out, signature_text(host.value))?;
    end_line(out)
}

fn signature_text(value: bool) -> &'static [u8]
    ensures { result.now ≡ (if value then codes "value" else codes "match") }
{
    if value { b"value" } else { b"match" }
}

/// A line for each span.
pub(crate) fn print_spans(out: &mut Vec<u8>, graph: &Graph) -> Result<(), AllocError>
    ensures { OnOk result (out.new.items ≡ out.old.items ++ flat_map printed_line (map span_call graph.now.spans)) }
{
    for span in graph.spans() {
        print_span(out, span)?;
    }
    Ok(())
}

fn print_span(out: &mut Vec<u8>, span: &SpanDecl) -> Result<(), AllocError>
    ensures { OnOk result (out.new.items ≡ out.old.items ++ printed_line (span_call span.now)) }
{
    out.extend_from_slice(b"span")?;
    push_word(out, span.name.bytes())?;
    end_line(out)
}

pub(crate) fn print_entry(out: &mut Vec<u8>, graph: &Graph) -> Result<(), AllocError>
    ensures { OnOk result (out.new.items ≡ out.old.items ++ printed_line (call.Entry (node_name_of graph.now graph.now.entry))) }
{
    out.extend_from_slice(b"entry")?;
    push_word(out, node_name(graph, graph.entry()))?;
    end_line(out)
}

/// A line for the finish rule, if there is one.
pub(crate) fn print_finish(out: &mut Vec<u8>, graph: &Graph) -> Result<(), AllocError>
    ensures { OnOk result (out.new.items ≡ out.old.items ++ flat_map printed_line (finish_calls graph.now graph.now.finish)) }
{
    match graph.finish_rule() {
        Some((prop, host)) => {
            out.extend_from_slice(b"finish")?;
            push_word(out, prop_name(graph, prop))?;
            push_word(out, host_name(graph, host))?;
            end_line(out)
        }
        None => Ok(()),
    }
}
