// Laws over the definitions, each the contract of a function without code.
ghost use Rattle.std.specs.Prelude.{◌≡◌, ◌⊎◌, ◌≢◌, ◌≤◌, ◌<◌, List, ℕ, slice_index};
ghost use Rattle.pp_graph.specs.Plan.{Plan};
ghost use Rattle.pp_event.specs.Loops.{IsGap, IsRankTable, Reaches};
ghost use Rattle.pp_mean.specs.Loops.{graph_moves, IsLoopFree};
ghost use Rattle.pp_check.specs.Checked.{IsFault, IsAlike};
ghost use Rattle.pp_check.specs.Spans.{SpansFit, TellsOpen};
ghost use Rattle.pp_check.specs.declared.checked.CheckFault.{CheckFault};
ghost use Rattle.pp_check.specs.declared.checked.CheckFault.TheVariants.{Loop, NoMemory};

/// That a check has no answer for a graph is absurd.
pub fn some_answer()
    ensures answer { (g : Plan) → ¬ (¬ ((IsLoopFree g × SpansFit g) ⊎ ((f : CheckFault) × (f ≢ NoMemory) × IsFault g f))) }
    ensures gap { (g : Plan) → IsLoopFree g → ¬ (¬ ((gap : ℕ) × IsGap (graph_moves g) gap)) }
    ensures masks { (g : Plan) → ¬ (¬ ((opened : List ℕ) × TellsOpen g opened)) }
{}

/// A graph that is accepted has no fault, and no graph has two: one cycle may only be told from its first node by several ways.
pub fn one_answer()
    ensures accepted { (g : Plan) (f : CheckFault) → f ≢ NoMemory → IsLoopFree g → SpansFit g → IsFault g f → ⊥ }
    ensures loops { (g : Plan) (a b : ℕ) (c d : List ℕ) → IsFault g (Loop a c) → IsFault g (Loop b d) → (a ≡ b) × (slice_index c 0 ≡ slice_index d 0) }
    ensures faults { (g : Plan) (f h : CheckFault) → f ≢ NoMemory → h ≢ NoMemory → IsFault g f → IsFault g h → IsAlike f h }
{}

/// A graph with a table of ranks has no loop, and its gap is the greatest rank of a node that can be come to.
pub fn rank_table()
    ensures loop_free { (g : Plan) (rank : ℕ → ℕ → ℕ) → IsRankTable (graph_moves g) rank → IsLoopFree g }
    ensures gap { (g : Plan) (rank : ℕ → ℕ → ℕ) → IsRankTable (graph_moves g) rank → (gap b node : ℕ) →
        ((a n : ℕ) → Reaches (graph_moves g) a n → rank a n ≤ gap) → Reaches (graph_moves g) b node → rank b node ≡ gap → IsGap (graph_moves g) gap }
{}
