// Laws over the definitions, each the contract of a function without code.
ghost use Rattle.std.specs.Prelude.{◌≡◌, ◌<◌, ◌≤◌, ◌+◌, ◌^◌, ◌++◌, ◌⊎◌, [], ℕ, List, Some, None, length, slice_get, sum_by};
ghost use Rattle.pp_graph.specs.declared.node.Node.{Node};
ghost use Rattle.pp_graph.specs.Plan.{Plan, IsWellFormed, AreDistinct, key_bytes};
ghost use Rattle.pp_event.specs.Run.{Oracle, RunResult};
ghost use Rattle.pp_event.specs.Runs.{IsBounded};
ghost use Rattle.pp_event.specs.Loops.{AreBytes};
ghost use Rattle.pp_mean.specs.Mean.{Means};
ghost use Rattle.pp_mean.specs.Loops.{IsLoopFree};
ghost use Rattle.pp_check.specs.Spans.{SpansFit};
ghost use Rattle.pp_bytes.specs.declared.fold.Fold.{Fold};
ghost use Rattle.pp_program.specs.declared.program.Rest.{Rest};
ghost use Rattle.pp_program.specs.declared.program.Instr.TheVariants.{Branch};
ghost use Rattle.pp_program.specs.declared.program.State.{State};
ghost use Rattle.pp_program.specs.States.{ProgramMeans};
ghost use Rattle.pp_program.specs.Valid.{Holds, IsValid};
ghost use Rattle.pp_program.specs.declared.fault.VerifyRule.TheVariants as rules;
ghost use Rattle.pp_lower.specs.Lowered.{lowered};
ghost use Rattle.pp_lower.specs.Tree.{IsMatch, keys_of, prefixes};
ghost use Rattle.pp_lower.specs.steps.Order.{Has, IsOrdered};
ghost use Rattle.pp_lower.specs.Kept.{KeepsMeaning, SameRun};

/// The program of a graph that keeps the rules means what the graph means: where the graph's run has a result, the run of
/// the program has the same one, and no other.
pub fn lowering_keeps()
    ensures { (g : Plan) → IsWellFormed g → KeepsMeaning g (lowered g) }
{}

/// Where such a graph has no loop, a run of its program, with answers of 32 bits on a string of bytes, is one of the graph.
pub fn lowering_adds_none()
    ensures { (g : Plan) (values bytes : List ℕ) (oracle : Oracle) (resumes : ℕ) (q : RunResult) → IsWellFormed g → IsLoopFree g →
        IsBounded oracle → AreBytes bytes → ProgramMeans (lowered g) values bytes oracle resumes q →
        (r : RunResult) × Means g values bytes oracle resumes r × SameRun g (lowered g) r q }
{}

/// The program of a graph that keeps the rules keeps those of programs: that on targets, with all counts and the length of
/// its file, and those on widths and names; that on loops, where the graph has none; and that on spans, where they fit in the
/// graph. So what `lower` gives is valid.
pub fn lowered_is_valid()
    ensures valid { (g : Plan) → IsWellFormed g → IsLoopFree g → SpansFit g → IsValid (lowered g) }
    ensures targets { (g : Plan) → IsWellFormed g → Holds (lowered g) rules.Target }
    ensures widths { (g : Plan) → IsWellFormed g → Holds (lowered g) rules.Width }
    ensures loops { (g : Plan) → IsWellFormed g → IsLoopFree g → Holds (lowered g) rules.Loop }
    ensures spans { (g : Plan) → IsWellFormed g → SpansFit g → Holds (lowered g) rules.Spans }
    ensures names { (g : Plan) → IsWellFormed g → Holds (lowered g) rules.Names }
{}

/// The program of a graph that keeps the rules has at most 24,096 states. Where one has no edge, its rest carries no number.
pub fn lowered_states()
    ensures few { (g : Plan) → IsWellFormed g → length (lowered g).states ≤ 24096 }
    ensures bare { (g : Plan) → IsWellFormed g → (n : ℕ) (s : State) → slice_get (lowered g).states n ≡ Some s →
        (fold : Fold) (stay : List (ℕ × ℕ)) (rest : Rest) → s.instr ≡ Branch fold stay [] rest → rest.number ≡ None }
{}

/// Each match node of a graph that keeps the rules has a key tree: its keys differ, and are short enough.
pub fn nodes_have_trees()
    ensures distinct { (g : Plan) (place : ℕ) (node : Node) → IsWellFormed g → slice_get g.nodes place ≡ Some node → IsMatch node.kind →
        AreDistinct (key_bytes (keys_of node.kind)) }
    ensures fits { (g : Plan) (place : ℕ) (node : Node) → IsWellFormed g → slice_get g.nodes place ≡ Some node → IsMatch node.kind →
        sum_by length (key_bytes (keys_of node.kind)) + 1 < 2 ^ 32 }
{}

/// The prefixes of texts are exactly their fronts and the empty one, each once: they stand in strict lexicographic order, the
/// empty one first.
pub fn prefixes_in_order()
    ensures ordered { (texts : List (List ℕ)) → IsOrdered (prefixes texts) }
    ensures only { (texts : List (List ℕ)) (p : List ℕ) → Has (prefixes texts) p → (p ≡ []) ⊎ ((text more : List ℕ) × Has texts text × (text ≡ p ++ more)) }
    ensures there { (texts : List (List ℕ)) (text p more : List ℕ) → Has texts text → text ≡ p ++ more → Has (prefixes texts) p }
{}
