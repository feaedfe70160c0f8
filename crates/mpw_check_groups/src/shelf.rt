//! A shelf without the shapes on other layers.

ghost use Rattle.std.specs.Prelude.{◌≡◌, ◌∷◌, [], length, IfOk, IfSome};
ghost use Rattle.mpw_structures.specs.Library.{IsLibrary};
ghost use Rattle.mpw_hier.specs.Limits.{numbered};
ghost use Rattle.mpw_hier.specs.Outline.{IsOutline};
ghost use Rattle.mpw_check_groups.specs.Layers.{is_among};
ghost use Rattle.mpw_check_groups.specs.Parts.{IsShelfOn};
ghost use Rattle.mpw_check_groups.specs.Internal.{submission_with};

use crate::elements::library_on;
use mpw_geom::Layer;
use mpw_hier::{Bindings, HierFault, MAX_SHAPES, Outline, Shelf, Submission};
use mpw_structures::Library;
use std::alloc::{AllocError, Global};

/// A submission with another library, and without bindings.
fn submission_with(
    alloc: Global,
    submission: &Submission,
    library: Library,
) -> Result<Submission, AllocError>
    ensures { IfOk result (λ s. s ≡ submission_with submission.now library) }
{
    Ok(Submission {
        cell: submission.cell.copy()?,
        version: 0,
        submitter: submission.submitter.copy()?,
        library,
        top: submission.top.copy()?,
        bound: Bindings::from_vec(alloc, Vec::new(alloc))?,
    })
}

/// The outline of a submission. `None` if its top isn't in its library, contains itself, or reaches a name outside the library. The only error is out of
/// memory.
fn outline_of(alloc: Global, submission: &Submission) -> Result<Option<Outline>, AllocError>
    ensures outline { IfOk result (λ o. IfSome o (IsOutline submission.now.library submission.now.top)) }
    ensures whole { IfOk result (λ o. IfSome o (λ outline. outline.names ≡ [])) }
{
    match Outline::new(alloc, &submission.library, &submission.top) {
        Ok(outline) if outline.names.as_slice().is_empty() => Ok(Some(outline)),
        Err(HierFault::Memory) => Err(AllocError),
        _ => Ok(None),
    }
}

/// The shelf of a submission alone. `None` if it can't be put on one. The only error is out of memory.
fn shelf_with(alloc: Global, submission: Submission) -> Result<Option<Shelf>, AllocError>
    requires library { IsLibrary submission.library }
    requires unbound { submission.bound ≡ [] }
    ensures { IfOk result (λ o. IfSome o (λ ss. ss ≡ numbered [] submission ∷ [])) }
{
    let Some(outline) = outline_of(alloc, &submission)? else {
        return Ok(None);
    };
    let mut shelf = Shelf::new(alloc);
    match shelf.put(alloc, submission, &outline, MAX_SHAPES) {
        Ok(_) => Ok(Some(shelf)),
        Err(HierFault::Memory) => Err(AllocError),
        Err(_) => Ok(None),
    }
}

/// The shelf without the shapes on other layers. `None` if it can't be made: if its top isn't in its library or reaches a name outside it. Cost: that of
/// copying the elements that stay, and of [`Shelf::put`].
///
/// # Errors
/// Out of memory.
pub fn shelf_on(alloc: Global, layers: &[Layer], shelf: &Shelf) -> Result<Option<Shelf>, AllocError>
    requires { length shelf.now ≡ 1 }
    ensures { IfOk result (λ o. IfSome o (IsShelfOn (is_among layers.now) shelf.now)) }
{
    shelf.is_shelf();
    let Some(submission) = shelf.get(0) else {
        return Ok(None);
    };
    let Some(library) = library_on(alloc, layers, &submission.library)? else {
        return Ok(None);
    };
    let submission = submission_with(alloc, submission, library)?;
    shelf_with(alloc, submission)
}
