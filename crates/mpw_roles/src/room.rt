//! Copies with room for one more.
ghost use Rattle.std.specs.Prelude.{◌≡◌, IfOk};

use std::alloc::{AllocError, Global};

/// The same items, with room for one more.
pub(crate) fn roomy_copy<T: Copy>(alloc: Global, items: &[T]) -> Result<Vec<T>, AllocError>
    ensures { IfOk result (λ copy. copy.items ≡ items.now) }
{
    let mut copy = Vec::with_capacity(alloc, items.len().saturating_add(1))?;
    copy.extend_from_slice(items)?;
    Ok(copy)
}
