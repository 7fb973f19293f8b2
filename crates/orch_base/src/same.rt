//! Exact comparisons.

ghost use Rattle.std.specs.Prelude.{◌≡◌, ◌↔◌, IsTrue};

/// What can be compared exactly.
pub trait Same {
    /// Whether both are equal. It takes no memory.
    fn is_same(&self, other: &Self) -> bool
        ensures { IsTrue result ↔ (self.now ≡ other.now) };
}

impl Same for bool {
    fn is_same(&self, other: &bool) -> bool {
        self == other
    }
}

impl Same for u64 {
    fn is_same(&self, other: &u64) -> bool {
        self == other
    }
}

impl<T: Same> Same for Option<T> {
    fn is_same(&self, other: &Option<T>) -> bool {
        match (self, other) {
            (Some(value), Some(other)) => value.is_same(other),
            (None, None) => true,
            (Some(_), None) | (None, Some(_)) => false,
        }
    }
}

/// Whether both are equal, value by value. It takes no memory.
pub fn same_values<T: Same>(values: &[T], others: &[T]) -> bool
    ensures { IsTrue result ↔ (values.now ≡ others.now) }
{
    if values.len() != others.len() {
        return false;
    }
    for (n, value) in values.iter().enumerate() {
        if !value.is_same(&others[n]) {
            return false;
        }
    }
    true
}
