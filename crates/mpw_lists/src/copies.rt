//! Copies of lists with room for one more item.
ghost use Rattle.std.specs.Prelude.{◌≡◌, IfOk};

use std::alloc::{AllocError, Global};

/// The same items, with room for one more. Cost: that of cloning each item.
///
/// # Errors
/// Out of memory.
pub fn roomy_copy<T: Clone + Drop>(alloc: Global, items: &[T]) -> Result<Vec<T>, AllocError>
    requires { (item copy : T) → T.is_clone item copy → copy ≡ item }
    ensures { IfOk result (λ copy. copy.items ≡ items.now) }
{
    let mut copy = Vec::with_capacity(alloc, items.len().saturating_add(1))?;
    copy.extend_with_clones(items)?;
    Ok(copy)
}
