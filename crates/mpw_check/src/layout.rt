//! Reads what is checked: the top of a library, placed where it was drawn.

ghost use Rattle.std.specs.Prelude.{◌≡◌, ◌∷◌, [], IfOk, IfErr};
ghost use Rattle.mpw_hier.specs.Outline.{IsOutline};
ghost use Rattle.mpw_structures.specs.Library.{IsLibrary};
ghost use Rattle.mpw_tiles.specs.Snapshots.{AreRoots};
ghost use Rattle.mpw_walk.specs.Roots.{root_at_origin};
ghost use Rattle.mpw_check.specs.Drawn.{offered, drawn_shelf, told, IsDrawn, IsDrawnFrom, IsOfTop, IsOfText};
ghost use Rattle.mpw_check.specs.Internal.Drawn.{IsShelved};

use crate::fault::CheckFault;
use mpw_deck::Deck;
use mpw_elements::ReadError;
use mpw_geom::{Name, Orient, Placing, Point};
use mpw_hier::{
    Bindings, HierFault, MAX_SHAPES, Outline, Shelf, Submission, shelves_have_their_numbers,
};
use mpw_library::read_shared;
use mpw_structures::Library;
use mpw_tiles::Snapshot;
use mpw_walk::{Root, roots_at_origin_show_their_submission};
use std::alloc::{AllocError, Global};
use std::sync::Arc;

/// The outline of a library whose top reaches no name outside it.
fn outline_of(alloc: Global, library: &Library, top: &Name) -> Result<Outline, CheckFault>
    ensures outline { IfOk result (IsOutline library.now top.now) }
    ensures whole { IfOk result (λ outline. outline.names ≡ []) }
    ensures faults { IfErr result (IsOfTop top.now library.now) }
{
    let outline = Outline::new(alloc, library, top)?;
    if outline.names.as_slice().is_empty() {
        return Ok(outline);
    }
    Err(CheckFault::Outside(outline.names.copy()?))
}

/// The top of a library as a submission.
fn offer(alloc: Global, library: Library, top: &Name) -> Result<Submission, AllocError>
    ensures { IfOk result (λ submission. submission ≡ offered top.now library) }
{
    Ok(Submission {
        cell: top.copy()?,
        version: 0,
        submitter: top.copy()?,
        library,
        top: top.copy()?,
        bound: Bindings::from_vec(alloc, Vec::new(alloc))?,
    })
}

/// The shelf whose only submission is the top of a library. The top reaches no name outside the library.
fn shelve(
    alloc: Global,
    library: Library,
    top: &Name,
    outline: &Outline,
) -> Result<Shelf, HierFault>
    requires library { IsLibrary library }
    requires outline { IsOutline library top.now outline.now }
    requires whole { outline.now.names ≡ [] }
    ensures ok { IfOk result (IsShelved top.now library) }
    ensures faults { IfErr result (λ fault. IsOfTop top.now library (told fault)) }
{
    let submission = offer(alloc, library, top)?;
    let mut shelf = Shelf::new(alloc);
    match shelf.put(alloc, submission, outline, MAX_SHAPES) {
        Ok(_) => Ok(shelf),
        Err(fault) => Err(fault),
    }
}

/// The shelf whose only submission is the top of a library.
fn shelf_of(alloc: Global, library: Library, top: &Name) -> Result<Shelf, CheckFault>
    requires { IsLibrary library }
    ensures ok { IfOk result (IsShelved top.now library) }
    ensures faults { IfErr result (IsOfTop top.now library) }
{
    let outline = outline_of(alloc, &library, top)?;
    Ok(shelve(alloc, library, top, &outline)?)
}

/// The first submission of a shelf, where it was drawn.
fn root() -> Root
    ensures { result ≡ root_at_origin 0 }
{
    let by = Point { x: 0, y: 0 };
    let orient = Orient::R0;
    let placing = Placing { orient, by };
    Root {
        submission: 0,
        placing,
    }
}

/// The snapshot of a shelf that has only a top.
fn snapshot_of(alloc: Global, deck: Deck, shelf: Shelf) -> Result<Snapshot, AllocError>
    requires { AreRoots shelf (root_at_origin 0 ∷ []) }
    ensures { IfOk result (λ s. s ≡ record { deck = deck; roots = root_at_origin 0 ∷ []; shelf = shelf }) }
{
    let mut roots = Vec::new(alloc);
    roots.push(root())?;
    Snapshot::new(alloc, deck, roots, shelf)
}

/// The snapshot of a library's top under a deck.
fn draw(alloc: Global, deck: Deck, library: Library, top: &Name) -> Result<Snapshot, CheckFault>
    requires { IsLibrary library }
    ensures ok { IfOk result (IsDrawn deck top.now library) }
    ensures faults { IfErr result (IsOfTop top.now library) }
{
    roots_at_origin_show_their_submission();
    shelves_have_their_numbers();
    let shelf = shelf_of(alloc, library, top)?;
    shelf.is_shelf();
    Ok(snapshot_of(alloc, deck, shelf)?)
}

/// Reads a library's text, and places its structure `top` where it was drawn (orientation R0, at the origin, in nm) under a
/// deck. Its points stay in the text, which the layout shares. Cost: that of reading, a search for each name, and a pass
/// over the structures that the top reaches.
///
/// # Errors
/// The first fault of the text; a top that isn't in it, contains itself, reaches names outside the library, or exceeds a
/// limit (2^30 nm, 2^40 shapes, 64 levels); or out of memory.
pub fn read_layout(
    alloc: Global,
    deck: Deck,
    top: &Name,
    text: &Arc<Vec<u8>>,
) -> Result<Snapshot, CheckFault>
    ensures ok { IfOk result (IsDrawnFrom deck top.now text.now.value.items) }
    ensures faults { IfErr result (IsOfText top.now text.now.value.items) }
{
    match read_shared(alloc, text) {
        Ok(library) => draw(alloc, deck, library, top),
        Err(ReadError::Fault(fault)) => Err(CheckFault::Library(fault)),
        Err(ReadError::Memory) => Err(CheckFault::Memory),
    }
}
