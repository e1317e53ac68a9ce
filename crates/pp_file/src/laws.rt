// Laws of program files, each the contract of a function without code.
ghost use Rattle.std.specs.Prelude.{◌≡◌, ℕ, List, ◌++◌, length};
ghost use Rattle.pp_program.specs.FileLength.{file_length};
ghost use Rattle.pp_program.specs.declared.program.Program.{Program};
ghost use Rattle.pp_file.specs.Held.{IsHeld};
ghost use Rattle.pp_file.specs.Spelling.{Spells, spelled};

/// Two programs with one file are the same, and no file begins another.
pub fn one_spelling()
    ensures same { (bytes : List ℕ) (p q : Program) → IsHeld p → IsHeld q → Spells bytes p → Spells bytes q → p ≡ q }
    ensures prefix_free { (a b x y : List ℕ) (p q : Program) → IsHeld p → IsHeld q → Spells a p → Spells b q → a ++ x ≡ b ++ y →
        (a ≡ b) × (p ≡ q) × (x ≡ y) }
{}

/// The file of a program has as many bytes as it says.
pub fn one_length()
    ensures { (p : Program) → length (spelled p) ≡ file_length p }
{}
