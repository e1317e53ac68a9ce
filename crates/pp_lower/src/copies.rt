// Copies of what a graph declares.
ghost use Rattle.std.specs.Prelude.{◌≡◌, IfOk, map};
ghost use Rattle.pp_graph.specs.declared.node.Node.{Node};

use pp_bytes::Listed;
use pp_graph::Node;
use pp_rules::{HostDecl, Name, PropDecl, Reason, SpanDecl};
use std::alloc::{AllocError, Global};

/// The properties.
pub fn copy_of_props(alloc: Global, props: &[PropDecl]) -> Result<Listed<PropDecl>, AllocError>
    ensures { IfOk result (λ l. l ≡ props.now) }
{
    let mut list = Vec::new(alloc);
    for prop in props {
        let name = copy_of_name(alloc, &prop.name)?;
        list.push(PropDecl {
            name,
            width: prop.width,
        })?;
    }
    let list = Listed::of(list);
    Ok(list)
}

/// The host codes.
pub fn copy_of_hosts(alloc: Global, hosts: &[HostDecl]) -> Result<Listed<HostDecl>, AllocError>
    ensures { IfOk result (λ l. l ≡ hosts.now) }
{
    let mut list = Vec::new(alloc);
    for host in hosts {
        let name = copy_of_name(alloc, &host.name)?;
        list.push(HostDecl {
            name,
            value: host.value,
        })?;
    }
    let list = Listed::of(list);
    Ok(list)
}

/// The spans.
pub fn copy_of_spans(alloc: Global, spans: &[SpanDecl]) -> Result<Listed<SpanDecl>, AllocError>
    ensures { IfOk result (λ l. l ≡ spans.now) }
{
    let mut list = Vec::new(alloc);
    for span in spans {
        let name = copy_of_name(alloc, &span.name)?;
        list.push(SpanDecl { name })?;
    }
    let list = Listed::of(list);
    Ok(list)
}

/// The names of nodes.
pub(crate) fn copy_of_names(alloc: Global, nodes: &[Node]) -> Result<Listed<Name>, AllocError>
    ensures { IfOk result (λ l. l ≡ map (λ (n : Node). n.name) nodes.now) }
{
    let mut list = Vec::new(alloc);
    for node in nodes {
        let name = copy_of_name(alloc, &node.name)?;
        list.push(name)?;
    }
    let list = Listed::of(list);
    Ok(list)
}

/// The same reason.
pub fn copy_of_reason(alloc: Global, reason: &Reason) -> Result<Reason, AllocError>
    ensures { IfOk result (λ r. r ≡ reason.now) }
{
    let copy = Reason::new(alloc, reason.bytes())?;
    Ok(copy)
}

/// The same name.
pub fn copy_of_name(alloc: Global, name: &Name) -> Result<Name, AllocError>
    ensures { IfOk result (λ n. n ≡ name.now) }
{
    let copy = Name::new(alloc, name.bytes())?;
    Ok(copy)
}
