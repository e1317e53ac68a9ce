// Laws over the definitions, each the contract of a function without code.
ghost use Rattle.std.specs.Prelude.{◌≡◌, ℕ, ◌+◌, ◌<◌, ◌≤◌, List, slice_index};
ghost use Rattle.pp_flow.specs.declared.moves.Move.{Move};
ghost use Rattle.pp_flow.specs.Flow.{FreeWay, IsGap, IsLoopFree, IsRanking, IsReachable, StaysBelow};
ghost use Rattle.pp_flow.specs.Loops.{IsCycle};

/// A ranking at each byte shows that there is no loop, and its greatest rank is the gap.
pub fn ranking_gives_gap()
    ensures { (moves : List Move) (entry gap : ℕ) (rank : ℕ → ℕ → ℕ) →
        ((b : ℕ) → b < 256 → IsRanking moves entry b (rank b)) →
        ((b node : ℕ) → IsReachable moves entry b node → rank b node ≤ gap) →
        ((b : ℕ) × (node : ℕ) × IsReachable moves entry b node × (rank b node ≡ gap)) →
        IsLoopFree moves entry × IsGap moves entry gap }
{}

/// Along a row of free moves a rank falls by one a move at least.
pub fn ways_fall()
    ensures { (moves : List Move) (entry b : ℕ) (rank : ℕ → ℕ) → IsRanking moves entry b rank →
        (node n end : ℕ) → IsReachable moves entry b node → FreeWay moves b node n end → rank end + n ≤ rank node }
{}

/// A cycle from a reachable pair is a loop.
pub fn a_cycle_is_a_loop()
    ensures { (moves : List Move) (entry b : ℕ) (cycle : List ℕ) → IsCycle moves b cycle →
        IsReachable moves entry b (slice_index cycle 0) → IsLoopFree moves entry → ⊥ }
{}

/// A gap is below the count of points.
pub fn gap_is_below()
    ensures { (moves : List Move) (entry count gap : ℕ) → StaysBelow moves count → entry < count →
        IsLoopFree moves entry → IsGap moves entry gap → gap < count }
{}
