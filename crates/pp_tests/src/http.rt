// The HTTP graph and its names.
use bitflags::Flags;
use pp_check::check;
use pp_http::{Lenient, error_name, host, http_graph, method_name, prop, span};
use std::test::Fail;

#[test]
fn laws_are_called() {
    host::places();
    prop::places();
    span::places();
}

#[test]
fn the_graph_is_accepted(rt: HostRuntime) -> Result<(), Fail> {
    let graph = http_graph(rt.alloc())?;
    assert_eq!(rt; graph.nodes().len(), 205);
    let checked = check(rt.alloc(), graph)?;
    assert_eq!(rt; checked.gap(), 35);
    Ok(())
}

#[test]
fn methods_have_names(rt: HostRuntime) -> Result<(), Fail> {
    for (number, name) in [
        (0, Some("DELETE")),
        (1, Some("GET")),
        (24, Some("M-SEARCH")),
        (33, None),
    ] {
        assert_eq!(rt; method_name(number), name);
    }
    Ok(())
}

#[test]
fn errors_have_names(rt: HostRuntime) -> Result<(), Fail> {
    for (number, name) in [(0, Some("OK")), (22, Some("PAUSED_UPGRADE")), (23, None)] {
        assert_eq!(rt; error_name(number), name);
    }
    Ok(())
}

#[test]
fn flags_have_bits(rt: HostRuntime) -> Result<(), Fail> {
    assert_eq!(rt; Lenient::HEADERS.bits(), 1);
    assert_eq!(rt; Lenient::SPACES_AFTER_CHUNK_SIZE.bits(), 512);
    Ok(())
}
