//! The shapes that a session sees.
ghost use Rattle.std.specs.Prelude.{◌≡◌, ◌<◌, length, IfOk};
ghost use Rattle.std.specs.List.{flat_map};
ghost use Rattle.mpw_hier.specs.Values.{flat};
ghost use Rattle.mpw_layouts.specs.Layouts.{readable_shape};

use mpw_access::seen_by;
use mpw_hier::Shelf;
use mpw_rbac::Policy;
use mpw_replies::ShapeListing;
use std::alloc::{AllocError, Global};

/// The listing of a submission, as the connection's session may see it. Cost: one look-up for each submission on the shelf, and a pass over
/// the structures of those that this one reaches.
///
/// # Errors
/// Out of memory.
pub(crate) fn shapes_of(
    alloc: Global,
    policy: &Policy,
    shelf: &Shelf,
    connection: u32,
    number: u32,
) -> Result<ShapeListing, AllocError>
    requires { number < length shelf.now }
    ensures { IfOk result (λ listing. listing ≡ flat_map (readable_shape policy.now shelf.now connection) (flat shelf.now number)) }
{
    let seen = seen_by(alloc, policy, connection, shelf.submissions())?;
    ShapeListing::new(alloc, shelf.copy(alloc)?, number, seen)
}
