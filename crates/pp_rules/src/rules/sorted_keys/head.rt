// The head of a key: a number by which keys are mostly compared without a look at their bytes.
ghost use Rattle.std.specs.Prelude.{◌≡◌};
ghost use Rattle.pp_rules.specs.steps.KeyTables.{IsHead, padded};

/// The number of the first eight bytes of a key, the first of them the highest, with zeros behind those of a shorter one.
pub(crate) fn head_of(key: &[u8]) -> u64
    ensures { IsHead result key.now }
{
    u64::from_be_bytes(front_of(key))
}

// The first eight bytes of a key, with zeros behind those of a shorter one.
fn front_of(key: &[u8]) -> [u8; 8]
    ensures { result ≡ padded 8 key.now }
{
    let mut front = [0; 8];
    let len = key.len().min(8);
    front[..len].copy_from_slice(&key[..len]);
    front
}
