//! Comparison by value.

ghost use Rattle.std.specs.Prelude.{◌≡◌, ◌↔◌, IsTrue};

/// Values that can be compared by what contracts see of them.
pub trait Same {
    /// Whether both are equal by value. Takes no memory.
    fn is_same(&self, other: &Self) -> bool
        ensures { IsTrue result ↔ (self.now ≡ other.now) };
}

/// Whether the slices have the same items in the same order, by value. Stops at the first difference, and takes no memory.
pub fn are_same<T: Same>(first: &[T], second: &[T]) -> bool
    ensures { IsTrue result ↔ (first.now ≡ second.now) }
{
    if first.len() != second.len() {
        return false;
    }
    for i in 0..first.len() {
        if !first[i].is_same(&second[i]) {
            return false;
        }
    }
    true
}
