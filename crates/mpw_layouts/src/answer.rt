//! The decision table of each request of the layouts.
ghost use Rattle.std.specs.Prelude.{◌≡◌, ◌++◌, ◌∷◌, [], List, Result, Ok, is_some, true, IfOk};
ghost use Rattle.mpw_hier.specs.declared.submission.Submission.{Submission};
ghost use Rattle.mpw_layouts.specs.Internal.Answers.{IsShelved};
ghost use Rattle.mpw_layouts.specs.Layouts.{row_of};
ghost use Rattle.mpw_replies.specs.Rows.{Answers, changing};
ghost use Rattle.mpw_replies.specs.declared.reply.Line.TheVariants.{Version};
ghost use Rattle.mpw_rbac.specs.Policy.{session_of};

use crate::ending::LayoutEnding;
use crate::rows::{Shelved, cells, shapes, submit};
use mpw_hier::Shelf;
use mpw_rbac::Policy;
use mpw_replies::{Done, Fault, Line, Lines};
use mpw_requests::LayoutRequest;
use std::alloc::{AllocError, Global};

/// The new shelf, and the line with its submission's version.
fn grown(alloc: Global, next: Shelved) -> Result<Done<Shelf>, AllocError>
    ensures { (shelf : List Submission) (row : Result Submission LayoutEnding) → IsShelved shelf row next.shelf next.version → IfOk result (λ done. changing (λ s. shelf ++ s ∷ []) (λ s. Version s.version ∷ []) row ≡ Ok done) }
{
    let Shelved { shelf, version } = next;
    let lines = Lines::of_line(alloc, Line::Version(version))?;
    Ok(Done::Changes { part: shelf, lines })
}

/// What a request of the layouts lists, or the shelf with its submission. Cost of a submission: its library's size, a search for each name,
/// and the number of submissions on the shelf. `cells` costs that number. `shapes` costs it too, and the turns of a walk.
///
/// The guard was passed: the connection has a session.
///
/// # Errors
/// The first test that fails, or out of memory.
pub fn answer_request(
    alloc: Global,
    policy: &Policy,
    shelf: &Shelf,
    connection: u32,
    request: &LayoutRequest,
) -> Result<Done<Shelf>, Fault<LayoutEnding>>
    requires session { is_some (session_of policy.now connection) ≡ true }
    ensures { Answers (λ done. done) result (row_of policy.now shelf.now connection request.now) }
{
    match request {
        LayoutRequest::Submit { cell, top, text } => {
            let next = submit(alloc, policy, shelf, connection, cell, top, text)?;
            Ok(grown(alloc, next)?)
        }
        LayoutRequest::Cells => Ok(Done::Lists(cells(alloc, policy, shelf, connection)?)),
        LayoutRequest::Shapes { cell } => {
            Ok(Done::Lists(shapes(alloc, policy, shelf, connection, cell)?))
        }
    }
}
