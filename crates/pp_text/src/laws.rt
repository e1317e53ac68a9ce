// Laws over the definitions, each the contract of a function without code.
ghost use Rattle.std.specs.Prelude.{◌≡◌, ℕ, List};
ghost use Rattle.pp_rules.specs.declared.rules.GraphRule.{GraphRule};
ghost use Rattle.pp_rules.specs.Rules.{KeepsRules};
ghost use Rattle.pp_text.specs.Text.{Told, BeginWithText, IsWrongAt, IsTooLong};
ghost use Rattle.pp_text.specs.Outcome.{Breaks, HasReading};

/// Bytes have at most one reading as a graph text: one text begins them, or one line is wrong, or a line is too long, and
/// the calls of the text keep the rules or break one first.
pub fn one_reading()
    ensures text { (bytes : List ℕ) (told other : Told) (last end : ℕ) (rest more : List ℕ) →
        BeginWithText bytes told last rest → BeginWithText bytes other end more → (told ≡ other) × (last ≡ end) × (rest ≡ more) }
    ensures wrong_line { (bytes : List ℕ) (line other : ℕ) → IsWrongAt bytes line → IsWrongAt bytes other → line ≡ other }
    ensures text_or_wrong { (bytes : List ℕ) (told : Told) (last : ℕ) (rest : List ℕ) (line : ℕ) → BeginWithText bytes told last rest → ¬ (IsWrongAt bytes line) }
    ensures text_or_long { (bytes : List ℕ) (told : Told) (last : ℕ) (rest : List ℕ) → BeginWithText bytes told last rest → ¬ (IsTooLong bytes) }
    ensures wrong_or_long { (bytes : List ℕ) (line : ℕ) → IsWrongAt bytes line → ¬ (IsTooLong bytes) }
    ensures fault { (bytes : List ℕ) (line other : ℕ) (rule broken : GraphRule) → Breaks bytes line rule → Breaks bytes other broken → (line ≡ other) × (rule ≡ broken) }
    ensures fault_or_graph { (bytes : List ℕ) (line : ℕ) (rule : GraphRule) (told : Told) (last : ℕ) (rest : List ℕ) →
        Breaks bytes line rule → BeginWithText bytes told last rest → ¬ (KeepsRules told.calls) }
{}

/// And at least one: that they have none is absurd.
pub fn some_reading()
    ensures { (bytes : List ℕ) → ¬ (¬ (HasReading bytes)) }
{}
