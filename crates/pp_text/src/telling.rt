// The law that a graph is built again by the calls that tell it, and that its printed text tells just these.
ghost use Rattle.std.specs.Prelude.{◌≡◌, []};
ghost use Rattle.pp_graph.specs.Built.{built};
ghost use Rattle.pp_graph.specs.Calls.{HaveForm};
ghost use Rattle.pp_rules.specs.Rules.{KeepsRules};
ghost use Rattle.pp_text.specs.Printed.{printed};
ghost use Rattle.pp_text.specs.Sequence.{Follow};
ghost use Rattle.pp_text.specs.Telling.{calls_of};
ghost use Rattle.pp_text.specs.Text.{IsTextOf};

use pp_graph::Graph;

/// The calls that tell a graph keep the rules, and they give the graph again. The printed text is a graph text of these
/// calls, whole within the limit, so whoever reads it reads this graph.
pub fn told_again(graph: &Graph)
    ensures rules { KeepsRules (calls_of graph.now) }
    ensures forms { HaveForm (calls_of graph.now) }
    ensures follow { Follow [] (calls_of graph.now) }
    ensures again { built (calls_of graph.now) ≡ graph.now }
    ensures text { IsTextOf (printed graph.now) (calls_of graph.now) }
{
    let _nodes = graph.nodes();
}
