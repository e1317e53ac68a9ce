// What a byte is compared as.
ghost use Rattle.std.specs.Prelude.{◌≡◌};

/// What is done to a byte before it is compared.
#[derive(Clone, Copy, Debug, PartialEq, Eq)]
pub enum Fold {
    /// The byte as it is.
    Same,
    /// A to Z as a to z, and all other bytes as they are.
    Lower,
}

impl Fold {
    ghost use Rattle.pp_bytes.specs.Fold.{folded};

    /// The byte that is compared in place of `b`.
    pub fn of(self, b: u8) -> u8
        ensures { result ≡ folded self b }
    {
        match self {
            Fold::Same => b,
            Fold::Lower => b.to_ascii_lowercase(),
        }
    }
}
