// Laws over the definitions, each the contract of a function without code.
ghost use Rattle.std.specs.Prelude.{◌≡◌, ◌↔◌, ◌≢◌, List, ℕ, [], Option};
ghost use Rattle.pp_tool.specs.declared.refusal.GraphReason.{GraphReason};
ghost use Rattle.pp_tool.specs.declared.refusal.CheckReason.{CheckReason};
ghost use Rattle.pp_tool.specs.declared.refusal.Refusal.{Refusal};
ghost use Rattle.pp_tool.specs.declared.refusal.Refusal.TheVariants as refusal;
ghost use Rattle.pp_tool.specs.declared.status.Status.{Status};
ghost use Rattle.pp_tool.specs.declared.status.Status.TheVariants as status;
ghost use Rattle.pp_tool.specs.declared.words.Command.{Command};
ghost use Rattle.pp_tool.specs.declared.words.Command.TheVariants.{Check, Print};
ghost use Rattle.pp_tool.specs.Answers.{ComesWhere};
ghost use Rattle.pp_tool.specs.Verdict.{Gives, Refuses, Concludes, AtMostOne, AtLeastOne};
ghost use Rattle.pp_tool.specs.GraphText.{HasNoGraph, IsNoGraph, ReadsText, ReadsTextAlone};
ghost use Rattle.pp_tool.specs.Trace.{Traces, HasReport};
ghost use Rattle.pp_tool.specs.Check.{IsCheckedAs};
ghost use Rattle.pp_tool.specs.Print.{Prints};
ghost use Rattle.pp_tool.specs.Commands.{IsAnswerOf};
ghost use Rattle.pp_tool.specs.Facts.{FailsCheck, FailsAlone, HasLongRest, HasNoCapture, HasPrint, HasShape};

/// `trace` refuses an input for each reason exactly where the input gives that reason, and writes nothing before; what it
/// writes of any other is the report of the run.
pub fn trace_decides()
    ensures graph { (bytes before : List ℕ) (reason : GraphReason) → Traces bytes (Refuses (refusal.Graph reason) before) ↔ (HasNoGraph bytes reason × (before ≡ [])) }
    ensures check { (bytes before : List ℕ) (reason : CheckReason) → Traces bytes (Refuses (refusal.Check reason) before) ↔ (FailsCheck bytes reason × (before ≡ [])) }
    ensures too_long { (bytes before : List ℕ) → Traces bytes (Refuses refusal.TooLong before) ↔ (HasLongRest bytes × (before ≡ [])) }
    ensures capture { (bytes before : List ℕ) → Traces bytes (Refuses refusal.Capture before) ↔ (HasNoCapture bytes × (before ≡ [])) }
    ensures lines { (bytes lines : List ℕ) → Traces bytes (Gives lines) → HasReport bytes lines }
{}

/// `check` refuses an input exactly where it is not the text of a graph alone, or is that of a graph which has a loop or
/// whose spans do not fit, and else writes the line of its shape.
pub fn check_decides()
    ensures graph { (bytes before : List ℕ) (reason : GraphReason) → IsCheckedAs bytes (Refuses (refusal.Graph reason) before) ↔ (IsNoGraph bytes reason × (before ≡ [])) }
    ensures check { (bytes before : List ℕ) (reason : CheckReason) → IsCheckedAs bytes (Refuses (refusal.Check reason) before) ↔ (FailsAlone bytes reason × (before ≡ [])) }
    ensures lines { (bytes lines : List ℕ) → IsCheckedAs bytes (Gives lines) ↔ HasShape bytes lines }
{}

/// `print` refuses an input exactly where it is not the text of a graph alone, and else writes its printed text.
pub fn print_decides()
    ensures graph { (bytes before : List ℕ) (why : Refusal) → Prints bytes (Refuses why before) ↔
        ((reason : GraphReason) × IsNoGraph bytes reason × (why ≡ refusal.Graph reason) × (before ≡ [])) }
    ensures lines { (bytes lines : List ℕ) → Prints bytes (Gives lines) ↔ HasPrint bytes lines }
{}

/// So each status of an answer of `trace` comes exactly where its fact holds. The premise is what `tool` ensures of its
/// answer and its output.
pub fn trace_answers()
    ensures graph { (bytes : List ℕ) (answer : Status) (before after : Option (List ℕ)) → Concludes (Traces bytes) answer before after →
        ComesWhere answer status.Graph ((reason : GraphReason) × HasNoGraph bytes reason) }
    ensures check { (bytes : List ℕ) (answer : Status) (before after : Option (List ℕ)) → Concludes (Traces bytes) answer before after →
        ComesWhere answer status.Check ((reason : CheckReason) × FailsCheck bytes reason) }
    ensures too_long { (bytes : List ℕ) (answer : Status) (before after : Option (List ℕ)) → Concludes (Traces bytes) answer before after →
        ComesWhere answer status.TooLong (HasLongRest bytes) }
    ensures capture { (bytes : List ℕ) (answer : Status) (before after : Option (List ℕ)) → Concludes (Traces bytes) answer before after →
        ComesWhere answer status.Capture (HasNoCapture bytes) }
{}

/// And of `check`, over any input without TooLong and Capture.
pub fn check_answers()
    ensures graph { (bytes : List ℕ) (answer : Status) (before after : Option (List ℕ)) → Concludes (IsCheckedAs bytes) answer before after →
        ComesWhere answer status.Graph ((reason : GraphReason) × IsNoGraph bytes reason) }
    ensures check { (bytes : List ℕ) (answer : Status) (before after : Option (List ℕ)) → Concludes (IsCheckedAs bytes) answer before after →
        ComesWhere answer status.Check ((reason : CheckReason) × FailsAlone bytes reason) }
    ensures no_capture { (answer : Status) → IsAnswerOf Check answer → (answer ≢ status.TooLong) × (answer ≢ status.Capture) }
{}

/// And of `print`, whose other refusals never come, over any input; and no command answers Program.
pub fn print_answers()
    ensures graph { (bytes : List ℕ) (answer : Status) (before after : Option (List ℕ)) → Concludes (Prints bytes) answer before after →
        ComesWhere answer status.Graph ((reason : GraphReason) × IsNoGraph bytes reason) }
    ensures no_check { (answer : Status) → IsAnswerOf Print answer → (answer ≢ status.Check) × (answer ≢ status.TooLong) × (answer ≢ status.Capture) }
    ensures no_program { (command : Command) (answer : Status) → IsAnswerOf command answer → answer ≢ status.Program }
{}

/// An input has at most one reading as a graph text, and each command has at most one verdict over it.
pub fn one_verdict()
    ensures text { (bytes : List ℕ) → AtMostOne (ReadsText bytes) }
    ensures text_alone { (bytes : List ℕ) → AtMostOne (ReadsTextAlone bytes) }
    ensures trace { (bytes : List ℕ) → AtMostOne (Traces bytes) }
    ensures check { (bytes : List ℕ) → AtMostOne (IsCheckedAs bytes) }
    ensures print { (bytes : List ℕ) → AtMostOne (Prints bytes) }
{}

/// And at least one of each: that it has none is absurd.
pub fn some_verdict()
    ensures text { (bytes : List ℕ) → AtLeastOne (ReadsText bytes) }
    ensures text_alone { (bytes : List ℕ) → AtLeastOne (ReadsTextAlone bytes) }
    ensures trace { (bytes : List ℕ) → AtLeastOne (Traces bytes) }
    ensures check { (bytes : List ℕ) → AtLeastOne (IsCheckedAs bytes) }
    ensures print { (bytes : List ℕ) → AtLeastOne (Prints bytes) }
{}
