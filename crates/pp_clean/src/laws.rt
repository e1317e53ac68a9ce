// Laws over the definitions, each the contract of a function without code.
ghost use Rattle.pp_graph.specs.Plan.{Plan, IsWellFormed};
ghost use Rattle.pp_mean.specs.Loops.{IsLoopFree as GraphIsLoopFree};
ghost use Rattle.pp_check.specs.Spans.{SpansFit as GraphSpansFit};
ghost use Rattle.pp_program.specs.declared.fault.VerifyRule.TheVariants as rules;
ghost use Rattle.pp_program.specs.declared.program.Program.{Program};
ghost use Rattle.pp_program.specs.Moves.{IsLoopFree};
ghost use Rattle.pp_program.specs.Spans.{SpansFit};
ghost use Rattle.pp_program.specs.Valid.{Holds, IsValid};
ghost use Rattle.pp_lower.specs.Kept.{KeepsMeaning};
ghost use Rattle.pp_lower.specs.Lowered.{lowered};
ghost use Rattle.pp_clean.specs.Finished.{finished, IsFinishable, IsFinished};
ghost use Rattle.pp_clean.specs.Keeps.{Keeps};
ghost use Rattle.pp_clean.specs.Skip.{skipped, IsNumberless};

/// A program without the moves to empty states that have others behind them means what the program means.
pub fn skipping_keeps()
    ensures { (p : Program) → IsNumberless p.states → Keeps p (skipped p) }
{}

/// A program in its final form means what the program means, and has that form.
pub fn finishing_keeps()
    ensures keeps { (p : Program) → IsFinishable p → Keeps p (finished p) }
    ensures form { (p : Program) → IsFinishable p → IsFinished (finished p) }
{}

/// Finishing brings in no loop.
pub fn finishing_makes_no_loop()
    ensures { (p : Program) → IsFinishable p → IsLoopFree p → IsLoopFree (finished p) }
{}

/// Where the spans of a program fit, they fit when it is finished.
pub fn finishing_keeps_spans()
    ensures { (p : Program) → IsFinishable p → SpansFit p → SpansFit (finished p) }
{}

/// Finishing keeps the rules on targets, with all counts and the length of the file, and those on widths and names. So what
/// is valid stays valid.
pub fn finishing_keeps_rules()
    ensures valid { (p : Program) → IsFinishable p → IsValid p → IsValid (finished p) }
    ensures targets { (p : Program) → IsFinishable p → Holds p rules.Target → Holds (finished p) rules.Target }
    ensures widths { (p : Program) → IsFinishable p → Holds p rules.Width → Holds (finished p) rules.Width }
    ensures names { (p : Program) → Holds p rules.Names → Holds (finished p) rules.Names }
{}

/// What `lower` gives can be finished. What a program keeps of another one, it keeps of a graph.
pub fn lowered_can_be_finished()
    ensures finishable { (g : Plan) → IsWellFormed g → GraphIsLoopFree g → GraphSpansFit g → IsFinishable (lowered g) }
    ensures keeps { (g : Plan) (p q : Program) → KeepsMeaning g p → Keeps p q → KeepsMeaning g q }
{}
