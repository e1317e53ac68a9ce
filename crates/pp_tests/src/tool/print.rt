// The command `print`.
use super::{GRAPH, Outside, SOUND, outcome_of};
use pp_tool::Status;
use std::test::Fail;

// The text of examples/netstrings/graph.txt.
pub(super) const NETSTRINGS: &str =
    r#"graph 1  # a row of netstrings: a length in digits, a colon, so many bytes, a comma

prop left u32; host done match; span body
entry size

# The length. A number on an edge goes to the node that it leads to.
node size match
  on "0" = 0 -> digit; on "1" = 1 -> digit; on "2" = 2 -> digit; on "3" = 3 -> digit; on "4" = 4 -> digit
  on "5" = 5 -> digit; on "6" = 6 -> digit; on "7" = 7 -> digit; on "8" = 8 -> digit; on "9" = 9 -> digit
  on ":" -> begin
  else -> bad
node digit muladd left 10 max 99999; is 1 -> long; else -> size

# The body, a span of so many bytes.
node begin open body; else -> take
node take consume left; else -> close_body
node close_body close body; else -> tell
node tell call done; else -> comma

node comma match
  on "," -> size     # and the next one
  peek [\r\n] -> over
  else -> bad
node over pause 21 "the row is over"; else -> line_end
node line_end match; on [\r\n] -> size; else -> bad

node bad error 1 "no netstring"; node long error 2 "more than 99,999 bytes"
end
"#;

// The text of examples/netstrings/printed.txt.
const NETSTRINGS_PRINTED: &str = r#"graph 1
prop left u32
host done match
span body
entry size
node size match
on "0" = 0 -> digit
on "1" = 1 -> digit
on "2" = 2 -> digit
on "3" = 3 -> digit
on "4" = 4 -> digit
on "5" = 5 -> digit
on "6" = 6 -> digit
on "7" = 7 -> digit
on "8" = 8 -> digit
on "9" = 9 -> digit
on ":" -> begin
else -> bad
node digit muladd left 10 max 99999
is 1 -> long
else -> size
node begin open body
else -> take
node take consume left
else -> close_body
node close_body close body
else -> tell
node tell call done
else -> comma
node comma match
on "," -> size
peek "\x0a" -> over
peek "\x0d" -> over
else -> bad
node over pause 21 "the row is over"
else -> line_end
node line_end match
on "\x0a" -> size
on "\x0d" -> size
else -> bad
node bad error 1 "no netstring"
node long error 2 "more than 99,999 bytes"
end
"#;

// Texts, the status of `print`, what it writes, and the line that it tells.
const PRINTED: [(&str, Status, &str, &str); 7] = [
    (GRAPH, Status::Ok, GRAPH, ""),
    (NETSTRINGS, Status::Ok, NETSTRINGS_PRINTED, ""),
    (
        "graph 1;entry s;node s match;on [ba] -> s;else -> e;node e error 1 \"#;\";end",
        Status::Ok,
        "graph 1\nentry s\nnode s match\non \"a\" -> s\non \"b\" -> s\nelse -> e\nnode e error 1 \"#;\"\nend\n",
        "",
    ),
    (
        "graph 1\r\n\n  span  s # a part\nentry a;node a open s\nelse -> a\nend\n",
        Status::Ok,
        "graph 1\nspan s\nentry a\nnode a open s\nelse -> a\nend\n",
        "",
    ),
    (
        "graph 1;entry s;node s match;on [b-a] -> s;else -> s;end",
        Status::Graph,
        "",
        "graph: line 1: syntax\n",
    ),
    (
        "graph 1\nhost hit match\nentry start\nnode start match\non \"a\" -> hit_it\nskip -> start\nnode hit_it call hit\nelse -> start\nend\nx",
        Status::Graph,
        "",
        "graph: line 10: syntax\n",
    ),
    (
        "graph 1\nentry s;node s match;skip -> s;end\n\n",
        Status::Graph,
        "",
        "graph: line 3: syntax\n",
    ),
];

#[test]
fn a_graph_is_printed_however_its_text_is_cut(rt: HostRuntime) -> Result<(), Fail> {
    let alloc = rt.alloc();
    for (text, status, written, line) in PRINTED {
        for most in [1, 100_000] {
            let outside = Outside { most, ..SOUND };
            let got = outcome_of(alloc, &["print"], text.as_bytes(), outside)?;
            assert_eq!(rt; got.status, status, "at {text}");
            assert_eq!(rt; got.output.written(), written.as_bytes(), "at {text}");
            assert_eq!(rt; got.errors.written(), line.as_bytes(), "at {text}");
        }
    }
    Ok(())
}
