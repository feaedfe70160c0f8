//! What each request needs of the connection that asks it. The file of each group has the table of its requests.
ghost use Rattle.std.specs.Prelude.{◌≡◌, IfOk};
ghost use Rattle.mpw_requests.specs.Needs.{need_of};

use crate::layouts::layout_need;
use crate::policy::policy_need;
use crate::request::Request;
use crate::run::run_need;
use crate::sign_off::sign_off_need;
use crate::wafer::wafer_need;
use mpw_geom::Name;
use mpw_permissions::{Object, Operation};
use std::alloc::AllocError;

/// What a request needs. It is tested before any other test of the request.
#[derive(Drop)]
pub enum Need {
    /// Nothing: `open` has no session yet.
    Nothing,
    /// A session.
    Session,
    /// A session that may do the operation on the object.
    Permission(Operation, Object),
}

/// An operation on the desk.
pub(crate) fn on_desk(operation: Operation) -> Need
    ensures { result ≡ Need.Permission operation Object.Desk }
{
    Need::Permission(operation, Object::Desk)
}

/// An operation on a cell.
pub(crate) fn on_cell(operation: Operation, cell: &Name) -> Result<Need, AllocError>
    ensures { IfOk result (λ need. need ≡ Need.Permission operation (Object.Cell cell.now)) }
{
    Ok(Need::Permission(operation, Object::Cell(cell.copy()?)))
}

/// What a request needs. It copies at most one name, and allocates nothing.
///
/// # Errors
/// No more copies of a name can be counted.
pub fn need_of(request: &Request) -> Result<Need, AllocError>
    ensures { IfOk result (λ need. need ≡ need_of request.now) }
{
    match request {
        Request::Policy(request) => Ok(policy_need(request)),
        Request::Whoami => Ok(Need::Session),
        Request::Layout(request) => layout_need(request),
        Request::Wafer(request) => wafer_need(request),
        Request::Run(request) => Ok(run_need(request)),
        Request::SignOff(request) => Ok(sign_off_need(request)),
        Request::Trail => Ok(on_desk(Operation::Audit)),
    }
}
