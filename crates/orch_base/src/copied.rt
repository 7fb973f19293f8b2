//! Exact copies.

ghost use Rattle.std.specs.Prelude.{◌≡◌, IfOk};

use crate::Memory;
use std::alloc::Global;

/// What can be had once more. For a list of `Copy` values there is `Listed::copy`.
pub trait Copied: Drop {
    /// The same once more. `Err` means out of memory.
    fn copy(&self, alloc: Global) -> Result<Self, Memory>
        ensures { IfOk result (λ c. c ≡ self.now) };
}

/// A copy of each value, in order. `Err` means out of memory.
pub fn copy_of<T: Copied>(alloc: Global, values: &[T]) -> Result<Vec<T>, Memory>
    ensures { IfOk result (λ copies. copies.items ≡ values.now) }
{
    let mut copies = Vec::with_capacity(alloc, values.len())?;
    for value in values {
        copies.push(value.copy(alloc)?)?;
    }
    Ok(copies)
}
