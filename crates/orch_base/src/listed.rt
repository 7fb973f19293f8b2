//! Lists that contracts see as lists.

ghost use Rattle.std.specs.Prelude.{◌≡◌, ◌↔◌, IfOk, IsTrue};

use crate::{Copied, Memory, Same, copy_of, same_values};
use std::alloc::Global;
use std::marker::Model;

/// Values in order, which contracts see as that list.
#[derive(Drop)]
pub struct Listed<T> {
    values: Vec<T>,
}

impl<T> Model for Listed<T> {
    ghost use Rattle.std.specs.Prelude.{List};

    ghost Value = { List T };

    ghost view = { λ l. l.values.items };
}

impl<T> Listed<T> {
    /// These values. It takes no memory.
    pub fn new(values: Vec<T>) -> Listed<T>
        ensures { result ≡ values.items }
    {
        Listed { values }
    }

    /// The values in order.
    pub fn as_slice(&self) -> &[T]
        ensures { result.now ≡ self.now }
    {
        &self.values
    }

    /// Gives the values back. It takes no memory.
    pub fn into_vec(self) -> Vec<T>
        ensures { result.items ≡ self }
    {
        let Listed { values } = self;
        values
    }
}

impl<T: Copy> Listed<T> {
    /// The same values once more. `Err` means out of memory.
    pub fn copy(&self, alloc: Global) -> Result<Listed<T>, Memory>
        ensures { IfOk result (λ l. l ≡ self.now) }
    {
        let values = Vec::from_slice(alloc, &self.values)?;
        Ok(Listed { values })
    }
}

impl<T: Copied> Listed<T> {
    /// A copy of each value, in order. `Err` means out of memory.
    pub fn copy_each(&self, alloc: Global) -> Result<Listed<T>, Memory>
        ensures { IfOk result (λ l. l ≡ self.now) }
    {
        let values = copy_of(alloc, &self.values)?;
        Ok(Listed { values })
    }
}

impl<T: Same> Same for Listed<T> {
    fn is_same(&self, other: &Listed<T>) -> bool {
        same_values(&self.values, &other.values)
    }
}
