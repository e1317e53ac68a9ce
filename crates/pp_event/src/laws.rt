//! Laws of runs, each the contract of a function without code. The lemmas that they rest on, and those over relations
//! between machines, stand in `proofs`, where callers may cite them.
ghost use Rattle.std.specs.Prelude.{◌≡◌, ◌↔◌, ◌+◌, ◌<◌, ℕ, List, [], ◌++◌, Option, Some, length};
ghost use Rattle.pp_event.specs.declared.item.Item.{Item};
ghost use Rattle.pp_event.specs.Chain.{Ends, run_for};
ghost use Rattle.pp_event.specs.Run.{Config, Machine, Oracle, Stage, RunResult, Waiting, RunEnds, move};
ghost use Rattle.pp_event.specs.Answers.{Honest};
ghost use Rattle.pp_event.specs.Steady.{IsSteady, IsResumable, IsPlaced};
ghost use Rattle.pp_event.specs.Growth.{Extends, followed, IsKept, Onward, allowed, OnceResumed};
ghost use Rattle.pp_event.specs.Places.{SpansBehind, IsOrderly, LiesIn};
ghost use Rattle.pp_event.specs.Quiet.{IsQuietMachine, QuietEnd};
ghost use Rattle.pp_event.specs.Told.{Told};
ghost use Rattle.pp_event.specs.Joined.{joined, joined_bytes};
ghost use Rattle.pp_event.specs.Joiner.{nothing_joined, after_events, items_taken, parts_of};

/// A run has at most one result.
pub fn at_most_one_result()
    ensures { (turn : Machine) (oracle : Oracle) (c : Config) (bytes : List ℕ) (resumes : ℕ) (r q : RunResult) →
        RunEnds turn oracle c bytes resumes r → RunEnds turn oracle c bytes resumes q → r ≡ q }
{}

/// More moves never change a run that has ended.
pub fn more_moves()
    ensures { (turn : Machine) (oracle : Oracle) (more n : ℕ) (s : Stage) (r : RunResult) →
        run_for (move turn oracle) n s ≡ Some r → run_for (move turn oracle) (more + n) s ≡ Some r }
{}

/// With more bytes behind, a steady machine tells what it told, and more behind it.
pub fn longer_strings()
    ensures { (turn : Machine) (oracle : Oracle) (c : Config) (bytes more : List ℕ) (resumes : ℕ) (r q : RunResult) →
        IsSteady turn → RunEnds turn oracle c bytes resumes r → RunEnds turn oracle c (bytes ++ more) resumes q →
        Extends r.last.items q.last.items }
{}

/// A paused or failed result of a steady machine is kept with more bytes behind.
pub fn ended_for_good()
    ensures { (turn : Machine) (oracle : Oracle) (s : Stage) (more : List ℕ) (r : RunResult) →
        IsSteady turn → Ends (move turn oracle) s r → IsKept turn oracle s more r r.finish }
{}

/// The run on bytes and more is the run on the bytes, gone on with from where it ended.
pub fn goes_on()
    ensures { (turn : Machine) (oracle : Oracle) (s : Stage) (more : List ℕ) (r q : RunResult) →
        IsSteady turn → IsResumable turn → Ends (move turn oracle) s r →
        Ends (move turn oracle) (followed s more) q ↔ Onward turn oracle r more q r.finish }
{}

/// With one resume more, the run is the same up to the pause where it ended, and goes on from there.
pub fn one_more_resume()
    ensures { (turn : Machine) (oracle : Oracle) (s : Stage) (r q : RunResult) →
        Ends (move turn oracle) s r → Ends (move turn oracle) (allowed s) q ↔ OnceResumed turn oracle r q r.finish }
{}

/// Another oracle that gives the answers of a run's items gives the same run.
pub fn same_answers()
    ensures { (turn : Machine) (one other : Oracle) (s : Stage) (r : RunResult) →
        Honest other r.last.items → Ends (move turn one) s r → Ends (move turn other) s r }
{}

/// Another oracle that gives the answers of a run's first items gives a run that begins with these.
pub fn same_beginnings()
    ensures { (turn : Machine) (one other : Oracle) (s : Stage) (r q : RunResult) (xs ys : List Item) →
        Honest other xs → r.last.items ≡ xs ++ ys → Ends (move turn one) s r → Ends (move turn other) s q → Extends xs q.last.items }
{}

/// The items of a run are told in order within its string, its place and open spans lie there, and its rest behind it.
pub fn lies_in_its_string()
    ensures { (turn : Machine) (oracle : Oracle) (c : Config) (bytes : List ℕ) (resumes : ℕ) (r : RunResult) →
        IsSteady turn → IsPlaced turn → IsOrderly turn → SpansBehind c → RunEnds turn oracle c bytes resumes r →
        LiesIn c.at (c.at + length bytes) r.last }
{}

/// A run that waits has taken all its bytes.
pub fn waits_at_the_end()
    ensures { (turn : Machine) (oracle : Oracle) (s : Stage) (r : RunResult) →
        Ends (move turn oracle) s r → r.finish ≡ Waiting → r.last.rest ≡ [] }
{}

/// A run that passes no pause tells a pause only as its last item, exactly where it paused.
pub fn pauses_at_the_end()
    ensures { (turn : Machine) (oracle : Oracle) (c : Config) (bytes : List ℕ) (r : RunResult) →
        IsQuietMachine turn → RunEnds turn oracle c bytes 0 r → QuietEnd r.finish r.last.config.at r.last.items }
{}

/// What a joiner answers to the events of a log, one after the other, is the log joined.
pub fn takes_join()
    ensures { (log : List Told) → items_taken nothing_joined log ≡ joined log }
{}

/// After the events of a log a joiner has the joined bytes of each span.
pub fn bytes_join()
    ensures { (log : List Told) (span : ℕ) → span < 32 → (parts_of (after_events nothing_joined log) span).bytes ≡ joined_bytes span log }
{}
