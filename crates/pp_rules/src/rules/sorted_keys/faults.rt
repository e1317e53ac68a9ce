// The two faults of keys that sorting tells: a key that comes again, and a gap.
ghost use Rattle.std.specs.Prelude.{◌≡◌, ◌+◌, ◌<◌, ◌^◌, option_map, IfSome};
ghost use Rattle.pp_rules.specs.steps.Least.{lesser as lesser_of};
ghost use Rattle.pp_rules.specs.steps.KeyFaults.{earlier as earlier_of};

/// The first places of both faults: at which a key of none or of several bytes comes again, and at which the later of two
/// keys that leave a gap stands.
#[derive(Clone, Copy, Drop)]
pub(crate) struct KeyFaults {
    pub(crate) again: Option<usize>,
    pub(crate) gap: Option<usize>,
}

impl KeyFaults {
    /// Of each fault the earlier of two.
    pub(crate) fn earlier(self, other: KeyFaults) -> KeyFaults
        ensures { result ≡ earlier_of self other }
    {
        KeyFaults {
            again: lesser(self.again, other.again),
            gap: lesser(self.gap, other.gap),
        }
    }

    /// Places that count from this start, as ones that count from the first call.
    pub(crate) fn counted_from(self, start: usize) -> KeyFaults
        requires again { IfSome self.again (λ p. start + p < 2 ^ 64) }
        requires gap { IfSome self.gap (λ p. start + p < 2 ^ 64) }
        ensures again { result.again ≡ option_map (λ p. start + p) self.again }
        ensures gap { result.gap ≡ option_map (λ p. start + p) self.gap }
    {
        KeyFaults {
            again: from_start(self.again, start),
            gap: from_start(self.gap, start),
        }
    }
}

// A place that counts from this start, if it is there, as one that counts from the first call.
fn from_start(place: Option<usize>, start: usize) -> Option<usize>
    requires { IfSome place (λ p. start + p < 2 ^ 64) }
    ensures { result ≡ option_map (λ p. start + p) place }
{
    match place {
        Some(p) => Some(start + p),
        None => None,
    }
}

/// The lesser of two numbers, of those that are there.
pub(crate) fn lesser(a: Option<usize>, b: Option<usize>) -> Option<usize>
    ensures { result ≡ lesser_of a b }
{
    match (a, b) {
        (Some(i), Some(j)) => Some(i.min(j)),
        (None, found) | (found, None) => found,
    }
}
