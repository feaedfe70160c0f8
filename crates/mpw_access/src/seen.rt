//! Which submissions a session sees.
ghost use Rattle.std.specs.Prelude.{◌≡◌, IfOk};
ghost use Rattle.mpw_access.specs.Seen.{seen_by};

use mpw_hier::Submission;
use mpw_permissions::{Object, Operation};
use mpw_rbac::Policy;
use std::alloc::{AllocError, Global};

/// Which submissions are of cells that the connection's session may read, by number. Cost: one look-up each.
///
/// # Errors
/// Out of memory.
pub fn seen_by(
    alloc: Global,
    policy: &Policy,
    connection: u32,
    submissions: &[Submission],
) -> Result<Vec<bool>, AllocError>
    ensures { IfOk result (λ seen. seen.items ≡ seen_by policy.now connection submissions.now) }
{
    let access = policy.access(connection, Operation::Read);
    let mut seen = Vec::new(alloc);
    for submission in submissions {
        let object = Object::Cell(submission.cell.copy()?);
        seen.push(access.permits(&object))?;
    }
    Ok(seen)
}
