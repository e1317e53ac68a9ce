//! Laws of reports, each the contract of a function without code.
ghost use Rattle.std.specs.Prelude.{◌≡◌, ◌↔◌, ℕ, [], ◌++◌, None, List, All, is_some};
ghost use Rattle.pp_capture.specs.Spelling.{Record};
ghost use Rattle.pp_event.specs.Loops.{AreBytes};
ghost use Rattle.pp_program.specs.Valid.{Sound, IsVerified};
ghost use Rattle.pp_program.specs.declared.program.Program.{Program};
ghost use Rattle.pp_engine.specs.Sets.{AreRight};
ghost use Rattle.pp_trace.specs.declared.mode.Mode.{Mode};
ghost use Rattle.pp_trace.specs.Coherent.{Coherent};
ghost use Rattle.pp_trace.specs.Connection.{Connection, advanced, carried};
ghost use Rattle.pp_trace.specs.Cuts.{TellsTheRun, CutsChangeNothing, TellsAll};
ghost use Rattle.pp_trace.specs.Faults.{FitsProperty, is_begun};
ghost use Rattle.pp_trace.specs.Feed.{fed};
ghost use Rattle.pp_trace.specs.Growth.{Grow};
ghost use Rattle.pp_trace.specs.Headline.{IsReport};
ghost use Rattle.pp_trace.specs.Isolation.{GivesItsOwn, IsIsolated};
ghost use Rattle.pp_trace.specs.Kept.{feed_of, CanGoOn};
ghost use Rattle.pp_trace.specs.Programs.{program_meaning, program_subject};
ghost use Rattle.pp_trace.specs.Report.{own, stands};
ghost use Rattle.pp_trace.specs.Same.{ShowsTheSame};
ghost use Rattle.pp_trace.specs.Subject.{Meaning, SeenRuns, AreRunsOf, Subject};

/// The lines of a connection in a report are those that its own records give. So they are the same in each report of a
/// list with the same records of this connection.
pub fn own_records_alone()
    ensures own { (subject : Subject) (mode : Mode) (limit : ℕ) → GivesItsOwn subject mode limit }
    ensures same { (subject : Subject) (mode : Mode) (limit : ℕ) → IsIsolated subject mode limit }
{}

/// The items that a connection's records tell, one after another, are those of the run of its whole string. So other cuts
/// of the string change none of them.
pub fn whole_strings()
    ensures run { (subject : Subject) (mode : Mode) (limit : ℕ) → Grow subject.run → TellsTheRun subject mode limit }
    ensures same { (subject : Subject) (mode : Mode) (limit : ℕ) → Grow subject.run → CutsChangeNothing subject mode limit }
    ensures begun { (subject : Subject) (mode : Mode) (limit : ℕ) → Grow subject.run → TellsAll subject mode limit }
{}

/// With more bytes or one resume more, no run of a program takes back what it told, and one that had ended is the same.
pub fn nothing_taken_back()
    ensures { (p : Program) (run : SeenRuns) → AreRunsOf (program_meaning p) run → Grow run }
{}

/// A record that feeds nothing leaves the run as it was, and there are no lines of a feed.
pub fn nothing_fed()
    ensures run { (subject : Subject) (c : Connection) (rec : Record) → Grow subject.run → Coherent subject c → AreBytes (c.bytes ++ carried rec) →
        feed_of c rec ≡ None → CanGoOn c.run.finish → (advanced subject c rec).run ≡ c.run }
    ensures lines { (subject : Subject) (mode : Mode) (c : Connection) (rec : Record) → Grow subject.run → Coherent subject c → AreBytes (c.bytes ++ carried rec) →
        feed_of c rec ≡ None → CanGoOn c.run.finish → (fed mode c (advanced subject c rec)).lines ≡ [] }
{}

/// A verified program has runs, and a list of records has at most one report by the runs of a machine.
pub fn one_report()
    ensures runs { (v : Sound) → IsVerified v → (run : SeenRuns) × AreRunsOf (program_meaning v.program) run }
    ensures only { (m : Meaning) (subject : SeenRuns → Subject) (mode : Mode) (list : List Record) (xs ys : List ℕ) →
        IsReport m subject mode list xs → IsReport m subject mode list ys → xs ≡ ys }
{}

/// The sets of a Begin record fit a program exactly where its parser takes them.
pub fn sets_that_fit()
    ensures { (p : Program) (run : SeenRuns) (sets : List (ℕ × ℕ)) → All (FitsProperty (program_subject p run)) sets ↔ AreRight p sets }
{}

/// A connection stands somehow behind its own records of a list exactly where one of them begins it.
pub fn begun_by_begin()
    ensures { (subject : Subject) (mode : Mode) (limit n : ℕ) (list : List Record) → is_some (stands subject mode limit (own n list)) ≡ is_begun n list }
{}

/// What are the runs of one machine are the runs of each machine that shows the same.
pub fn same_runs()
    ensures { (m n : Meaning) (run : SeenRuns) → ShowsTheSame m n → AreRunsOf m run → AreRunsOf n run }
{}
