// Tables of zeros and of lowered flags.

ghost use Rattle.std.specs.Prelude.{◌≡◌, false, IfOk, replicate};

use std::alloc::{AllocError, Global};

/// So many zeros.
pub fn zeros(alloc: Global, n: usize) -> Result<Vec<u64>, AllocError>
    ensures { IfOk result (λ v. v.items ≡ replicate n 0) }
{
    Ok(vec![in alloc; 0u64; n]?)
}

/// So many flags that are down.
pub fn flags(alloc: Global, n: usize) -> Result<Vec<bool>, AllocError>
    ensures { IfOk result (λ v. v.items ≡ replicate n false) }
{
    Ok(vec![in alloc; false; n]?)
}

/// So many zeros of eight bits.
pub fn small_zeros(alloc: Global, n: usize) -> Result<Vec<u8>, AllocError>
    ensures { IfOk result (λ v. v.items ≡ replicate n 0) }
{
    Ok(vec![in alloc; 0u8; n]?)
}

/// The same numbers.
pub fn copy_of(alloc: Global, numbers: &[usize]) -> Result<Vec<usize>, AllocError>
    ensures { IfOk result (λ v. v.items ≡ numbers.now) }
{
    Ok(numbers.to_vec(alloc)?)
}

/// So many zeros of 32 bits.
pub fn no_ranks(alloc: Global, n: usize) -> Result<Vec<u32>, AllocError>
    ensures { IfOk result (λ v. v.items ≡ replicate n 0) }
{
    Ok(vec![in alloc; 0u32; n]?)
}
