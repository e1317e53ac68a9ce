// Laws over the definitions, each the contract of a function without code.
ghost use Rattle.std.specs.Prelude.{◌≡◌, ◌↔◌, ◌≤◌, ℕ, List, ◌++◌, length, map};
ghost use Rattle.pp_event.specs.Chain.{stages};
ghost use Rattle.pp_event.specs.Loops.{AreBytes, IsGap, IsRankTable, NoneTwice, Reaches, stand};
ghost use Rattle.pp_event.specs.Runs.{IsBounded};
ghost use Rattle.pp_program.specs.Moves.{IsLoopFree, program_moves};
ghost use Rattle.pp_program.specs.Valid.{Holds, IsValid};
ghost use Rattle.pp_program.specs.declared.fault.VerifyRule.TheVariants as rules;
ghost use Rattle.pp_program.specs.declared.program.Program.{Program};
ghost use Rattle.pp_event.specs.Run.{Oracle, RunResult, move, start};
ghost use Rattle.pp_event.specs.Growth.{Extends, Onward};
ghost use Rattle.pp_event.specs.Places.{LiesIn};
ghost use Rattle.pp_program.specs.States.{program_turn, program_entry, ProgramMeans};

/// A program has at most one run on a string, whatever the values, answers and resumes.
pub fn at_most_one_run()
    ensures { (p : Program) (values bytes : List ℕ) (oracle : Oracle) (resumes : ℕ) (r q : RunResult) →
        ProgramMeans p values bytes oracle resumes r → ProgramMeans p values bytes oracle resumes q → r ≡ q }
{}

/// What the run on a string tells begins what the run on a longer one tells, with the same values, answers and resumes.
pub fn longer_strings()
    ensures { (p : Program) (values bytes more : List ℕ) (oracle : Oracle) (resumes : ℕ) (r q : RunResult) →
        ProgramMeans p values bytes oracle resumes r → ProgramMeans p values (bytes ++ more) oracle resumes q →
        Extends r.last.items q.last.items }
{}

/// The run on a string and more is the run on the string, gone on with from where it ended. So it is no matter where a
/// string is cut.
pub fn goes_on()
    ensures { (p : Program) (values bytes more : List ℕ) (oracle : Oracle) (resumes : ℕ) (r q : RunResult) →
        ProgramMeans p values bytes oracle resumes r →
        ProgramMeans p values (bytes ++ more) oracle resumes q ↔ Onward (program_turn p) oracle r more q r.finish }
{}

/// The items of a run are told in order within its string, its place and open spans lie there, and its rest behind it.
pub fn lies_in_its_string()
    ensures { (p : Program) (values bytes : List ℕ) (oracle : Oracle) (resumes : ℕ) (r : RunResult) →
        ProgramMeans p values bytes oracle resumes r → LiesIn 0 (length bytes) r.last }
{}

/// A valid program has exactly one run on each string of bytes, whatever the values, the answers of 32 bits and the resumes.
/// That run comes to no state twice at one place.
pub fn one_run()
    ensures run { (p : Program) (values bytes : List ℕ) (oracle : Oracle) (resumes : ℕ) → IsValid p → IsBounded oracle → AreBytes bytes →
        (r : RunResult) × ProgramMeans p values bytes oracle resumes r }
    ensures only { (p : Program) (values bytes : List ℕ) (oracle : Oracle) (resumes : ℕ) (r q : RunResult) → IsValid p →
        ProgramMeans p values bytes oracle resumes r → ProgramMeans p values bytes oracle resumes q → r ≡ q }
    ensures once { (p : Program) (values bytes : List ℕ) (oracle : Oracle) (resumes n : ℕ) → IsValid p → IsBounded oracle → AreBytes bytes →
        NoneTwice (map stand (stages (move (program_turn p) oracle) n (start (program_entry p values) bytes resumes))) }
{}

/// A program with a table of ranks has no loop, so the rule on loops holds. Its gap is the greatest rank that a state has
/// which can be come to.
pub fn rank_table()
    ensures loop_free { (p : Program) (rank : ℕ → ℕ → ℕ) → IsRankTable (program_moves p) rank → IsLoopFree p }
    ensures rule { (p : Program) → IsLoopFree p ↔ Holds p rules.Loop }
    ensures gap { (p : Program) (rank : ℕ → ℕ → ℕ) → IsRankTable (program_moves p) rank → (gap b state : ℕ) →
        ((byte other : ℕ) → Reaches (program_moves p) byte other → rank byte other ≤ gap) →
        Reaches (program_moves p) b state → rank b state ≡ gap → IsGap (program_moves p) gap }
{}
