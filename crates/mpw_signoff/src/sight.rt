//! Whether a marker is full for a session.
//!
//! For one marker, only the submissions that it touches are tested. A listing uses what `mpw_replies` says of the whole shelf.
ghost use Rattle.std.specs.Prelude.{◌≡◌, slice_get, IfOk};
ghost use Rattle.mpw_permissions.specs.declared.permission.Operation.TheVariants.{Read};
ghost use Rattle.mpw_replies.specs.Listing.{is_seen};
ghost use Rattle.mpw_replies.specs.Sight.{is_full};
ghost use Rattle.mpw_access.specs.Seen.{seen_by};

use mpw_hier::Shelf;
use mpw_markers::Marker;
use mpw_permissions::{Object, Operation};
use mpw_rbac::{Access, Policy};
use std::alloc::AllocError;

/// Whether the submission of a number is of a cell that may be read. Cost: one look-up.
fn may_see(access: &Access<'_>, shelf: &Shelf, number: u32) -> Result<bool, AllocError>
    requires { access.now.operation ≡ Read }
    ensures { IfOk result (λ seen. seen ≡ is_seen (slice_get (seen_by access.now.policy access.now.connection shelf.now) number)) }
{
    let Some(submission) = shelf.get(number) else {
        return Ok(false);
    };
    let object = Object::Cell(submission.cell.copy()?);
    Ok(access.permits(&object))
}

/// Whether the marker is full for the connection's session. Cost: a look-up for each submission that it touches.
///
/// # Errors
/// No more copies of a cell's name can be counted.
pub(crate) fn is_shown(
    policy: &Policy,
    connection: u32,
    shelf: &Shelf,
    marker: &Marker,
) -> Result<bool, AllocError>
    ensures { IfOk result (λ shown. shown ≡ is_full (seen_by policy.now connection shelf.now) marker.now) }
{
    let access = policy.access(connection, Operation::Read);
    for number in marker.met.as_slice() {
        if !may_see(&access, shelf, *number)? {
            return Ok(false);
        }
    }
    Ok(true)
}

/// Whether the submission of a number may be seen.
fn is_seen(seen: &[bool], number: u32) -> bool
    ensures { result ≡ is_seen (slice_get seen.now number) }
{
    match seen.get(number as usize) {
        Some(seen) => *seen,
        None => false,
    }
}

/// Whether the marker is full: each submission that it touches may be seen. One pass over their numbers.
pub(crate) fn is_full(seen: &[bool], marker: &Marker) -> bool
    ensures { result ≡ is_full seen.now marker.now }
{
    marker
        .met
        .as_slice()
        .iter()
        .all(|number| is_seen(seen, *number))
}
