// Laws over the definitions, each the contract of a function without code.
ghost use Rattle.std.specs.Prelude.{◌≡◌, ◌⊎◌, ◌++◌, ℕ, ◌+◌, List, Option, Some};
ghost use Rattle.pp_graph.specs.Plan.{Plan};
ghost use Rattle.pp_event.specs.Chain.{run_for};
ghost use Rattle.pp_event.specs.Run.{Oracle, Stage, RunResult, move};
ghost use Rattle.pp_event.specs.Growth.{Extends};
ghost use Rattle.pp_event.specs.Loops.{AreBytes};
ghost use Rattle.pp_event.specs.Runs.{IsBounded};
ghost use Rattle.pp_mean.specs.Nodes.{graph_turn};
ghost use Rattle.pp_mean.specs.Mean.{Means};
ghost use Rattle.pp_mean.specs.Loops.{IsLoopFree};
ghost use Rattle.pp_mean.specs.Whole.{Given, EndsOnce, ComesBack};

/// A graph has at most one run on a string, whatever the values, answers and resumes.
pub fn at_most_one_run()
    ensures { (g : Plan) (values bytes : List ℕ) (oracle : Oracle) (resumes : ℕ) (r q : RunResult) →
        Means g values bytes oracle resumes r → Means g values bytes oracle resumes q → r ≡ q }
{}

/// More moves never change a run that has ended.
pub fn more_moves()
    ensures { (g : Plan) (oracle : Oracle) (more n : ℕ) (s : Stage) (r : RunResult) →
        run_for (move (graph_turn g) oracle) n s ≡ Some r →
        run_for (move (graph_turn g) oracle) (more + n) s ≡ Some r }
{}

/// A run ends and comes to no node twice at one place, or it comes to a node twice at one place: one or the other.
pub fn run_or_loop()
    ensures some { (x : Given) → ((r : RunResult) × EndsOnce x r) ⊎ ((node : ℕ) × (byte : Option ℕ) × ComesBack x node byte) }
    ensures one { (x : Given) (r : RunResult) (node : ℕ) (byte : Option ℕ) → EndsOnce x r → ComesBack x node byte → ⊥ }
{}

/// A graph without a loop has exactly one run on each string, for all values, answers of 32 bits and resumes, and that run
/// comes to no node twice at one place.
pub fn one_run()
    ensures run { (x : Given) → IsLoopFree x.graph → IsBounded x.oracle → AreBytes x.bytes → (r : RunResult) × EndsOnce x r }
    ensures once { (x : Given) → IsLoopFree x.graph → IsBounded x.oracle → AreBytes x.bytes → (node : ℕ) (byte : Option ℕ) → ComesBack x node byte → ⊥ }
{}

/// What the run on a string tells begins what the run on a longer one tells, with the same values, answers and resumes.
pub fn longer_strings()
    ensures { (g : Plan) (values bytes more : List ℕ) (oracle : Oracle) (resumes : ℕ) (r q : RunResult) →
        Means g values bytes oracle resumes r → Means g values (bytes ++ more) oracle resumes q → Extends r.last.items q.last.items }
{}
