//! The decision tables of `submit`, `cells` and `shapes`.
//!
//! Each part of a table is a function. It returns its value, or the test that failed, or out of memory.
ghost use Rattle.std.specs.Prelude.{◌≡◌, ◌<◌, ◌++◌, slice_get, length, map, is_some, true, IfOk, IfErr, OnOk, Some};
ghost use Rattle.std.specs.List.{flat_map};
ghost use Rattle.mpw_library.specs.Grammar.{library_of};
ghost use Rattle.mpw_structures.specs.Library.{IsLibrary};
ghost use Rattle.mpw_hier.specs.Outline.{IsOutline};
ghost use Rattle.mpw_hier.specs.Shelf.{bound_to};
ghost use Rattle.mpw_hier.specs.declared.submission.Submission.{Submission as SubmissionTold};
ghost use Rattle.mpw_layouts.specs.Internal.Answers.{IsShelved, fault_of};
ghost use Rattle.mpw_replies.specs.Rows.{Answers, Told, needed};
ghost use Rattle.mpw_layouts.specs.Layouts as row;
ghost use Rattle.mpw_replies.specs.Listing.{stored};
ghost use Rattle.mpw_hier.specs.Shelf.{present};
ghost use Rattle.mpw_rbac.specs.Policy.{session_of};
ghost use Rattle.mpw_rbac.specs.Rows.{user_of};
ghost use Rattle.mpw_permissions.specs.declared.permission.Operation.TheVariants.{Read};

use crate::ending::LayoutEnding;
use crate::sight::shapes_of;
use mpw_access::session_user;
use mpw_elements::ReadError;
use mpw_geom::{Name, Names};
use mpw_hier::{
    Bindings, HierFault, Outline, Shelf, Submission, reaching_is_decided,
    shelves_have_their_numbers,
};
use mpw_library::LibraryText;
use mpw_permissions::{Object, Operation};
use mpw_rbac::{Access, Policy};
use mpw_replies::{Fault, Line, Lines};
use mpw_structures::Library;
use mpw_trail::Code;
use std::alloc::{AllocError, Global};

/// The fault of a decision table for a fault of the shelf.
fn fault_of(fault: HierFault) -> Fault<LayoutEnding>
    ensures { result ≡ fault_of fault }
{
    match fault {
        HierFault::Memory => Fault::Memory,
        HierFault::NoTop => refused(Code::NoTop),
        HierFault::Cycle => refused(Code::Cycle),
        HierFault::NoCell => refused(Code::NoCell),
        HierFault::Extent => refused(Code::Extent),
        HierFault::Shapes => refused(Code::Shapes),
        HierFault::Deep => refused(Code::Deep),
        HierFault::Full => refused(Code::Full),
    }
}

/// The fault of a refusal.
fn refused(code: Code) -> Fault<LayoutEnding>
    ensures { result ≡ Fault.Told (LayoutEnding.Refused code) }
{
    Fault::Told(LayoutEnding::Refused(code))
}

/// The library in a text.
fn read(alloc: Global, text: &LibraryText) -> Result<Library, Fault<LayoutEnding>>
    ensures read { Answers (λ library. library) result (row.read (library_of text.now)) }
    ensures shape { IfOk result IsLibrary }
{
    match text.library(alloc) {
        Ok(library) => Ok(library),
        Err(ReadError::Fault(fault)) => Err(refused(Code::Read(fault))),
        Err(ReadError::Memory) => Err(Fault::Memory),
    }
}

/// The structures that the top of the library reaches, with the names outside the library.
fn outside(alloc: Global, library: &Library, top: &Name) -> Result<Outline, Fault<LayoutEnding>>
    ensures outside { Answers (λ outline. outline.names) result (row.outside library.now top.now) }
    ensures outline { IfOk result (IsOutline library.now top.now) }
{
    reaching_is_decided();
    match Outline::new(alloc, library, top) {
        Ok(outline) => Ok(outline),
        Err(fault) => Err(fault_of(fault)),
    }
}

/// Each cell may be used. The denial names the first that may not.
fn usable(policy: &Policy, connection: u32, cells: &[Name]) -> Result<(), Fault<LayoutEnding>>
    ensures { Answers (λ x. x) result (row.usable policy.now connection cells.now) }
{
    let access = policy.access(connection, Operation::Use);
    for cell in cells {
        let object = Object::Cell(cell.copy()?);
        if !access.permits(&object) {
            return Err(Fault::Told(LayoutEnding::Unusable(cell.copy()?)));
        }
    }
    Ok(())
}

/// The present submission of each name.
fn bind(alloc: Global, shelf: &Shelf, names: &[Name]) -> Result<Bindings, Fault<LayoutEnding>>
    ensures bound { Answers (λ bindings. bindings) result (needed (LayoutEnding.Refused Code.NoCell) (bound_to shelf.now names.now)) }
    ensures is { IfOk result (λ bindings. bound_to shelf.now names.now ≡ Some bindings) }
{
    match shelf.bind(alloc, names) {
        Ok(bindings) => Ok(bindings),
        Err(fault) => Err(fault_of(fault)),
    }
}

/// A shelf with the version of the last submission.
#[derive(Drop)]
pub(crate) struct Shelved {
    pub(crate) shelf: Shelf,
    pub(crate) version: u32,
}

/// The most flat shapes of a submission on the desk, 2^20. (The shelf itself allows more.)
pub const MAX_SHAPES: u64 = 1 << 20;

/// The shelf with one more submission, if that is within the limits.
#[tactic(auto, unfolding(crate::specs::Layouts::within_limits))]
fn keep(
    alloc: Global,
    shelf: &Shelf,
    submission: Submission,
    outline: &Outline,
) -> Result<Shelved, Fault<LayoutEnding>>
    requires library { IsLibrary submission.library }
    requires outline { IsOutline submission.library submission.top outline.now }
    requires bound { bound_to shelf.now outline.now.names ≡ Some submission.bound }
    ensures ok { IfOk result (λ next. IsShelved shelf.now (row.within_limits shelf.now submission) next.shelf next.version) }
    ensures err { IfErr result (λ fault. Told fault (row.within_limits shelf.now submission)) }
{
    reaching_is_decided();
    let mut shelf = shelf.copy(alloc)?;
    match shelf.put(alloc, submission, outline, MAX_SHAPES) {
        Ok(number) => {
            let version = version_of(&shelf, number);
            Ok(Shelved { shelf, version })
        }
        Err(fault) => Err(fault_of(fault)),
    }
}

/// The version of a submission, or 0 if there is none of that number.
fn version_of(shelf: &Shelf, number: u32) -> u32
    ensures { (s : SubmissionTold) → slice_get shelf.now number ≡ Some s → result ≡ s.version }
{
    match shelf.get(number) {
        Some(submission) => submission.version,
        None => 0,
    }
}

/// What a submitter offers: a library, with the structure that is the cell's top.
#[derive(Drop)]
struct Offer {
    cell: Name,
    submitter: Name,
    library: Library,
    top: Name,
}

/// The shelf with the offered library, bound to the present submissions of the cells that it uses.
#[tactic(auto, unfolding(crate::specs::Layouts::submitted_library))]
fn submit_library(
    alloc: Global,
    policy: &Policy,
    shelf: &Shelf,
    connection: u32,
    offer: Offer,
) -> Result<Shelved, Fault<LayoutEnding>>
    requires library { IsLibrary offer.library }
    requires submitter { offer.submitter ≡ user_of policy.now connection }
    ensures ok { IfOk result (λ next. IsShelved shelf.now (row.submitted_library policy.now shelf.now connection offer.cell offer.top offer.library) next.shelf next.version) }
    ensures err { IfErr result (λ fault. Told fault (row.submitted_library policy.now shelf.now connection offer.cell offer.top offer.library)) }
{
    let outline = outside(alloc, &offer.library, &offer.top)?;
    usable(policy, connection, outline.names.as_slice())?;
    let bound = bind(alloc, shelf, outline.names.as_slice())?;
    let Offer {
        cell,
        submitter,
        library,
        top,
    } = offer;
    let submission = Submission {
        cell,
        version: 0,
        submitter,
        library,
        top,
        bound,
    };
    keep(alloc, shelf, submission, &outline)
}

/// The shelf with the submission of a text. Cost: the library's size, a search for each name, and the number of submissions, which are shared.
#[tactic(auto, unfolding(crate::specs::Layouts::submit_row))]
pub(crate) fn submit(
    alloc: Global,
    policy: &Policy,
    shelf: &Shelf,
    connection: u32,
    cell: &Name,
    top: &Name,
    text: &LibraryText,
) -> Result<Shelved, Fault<LayoutEnding>>
    requires session { is_some (session_of policy.now connection) ≡ true }
    ensures ok { IfOk result (λ next. IsShelved shelf.now (row.submit_row policy.now shelf.now connection cell.now top.now text.now) next.shelf next.version) }
    ensures err { IfErr result (λ fault. Told fault (row.submit_row policy.now shelf.now connection cell.now top.now text.now)) }
{
    let library = read(alloc, text)?;
    let submitter = session_user(policy, connection).copy()?;
    let cell = cell.copy()?;
    let top = top.copy()?;
    submit_library(
        alloc,
        policy,
        shelf,
        connection,
        Offer {
            cell,
            submitter,
            library,
            top,
        },
    )
}

/// Adds the line of a cell, if the session may read it and it has a submission.
fn push_cell(
    lines: &mut Vec<Line>,
    access: &Access<'_>,
    shelf: &Shelf,
    cell: &Name,
) -> Result<(), AllocError>
    requires { access.now.operation ≡ Read }
    ensures { OnOk result (lines.new.items ≡ lines.old.items ++ row.readable_line access.now.policy shelf.now access.now.connection cell.now) }
{
    let object = Object::Cell(cell.copy()?);
    if !access.permits(&object) {
        return Ok(());
    }
    let Some(number) = shelf.present(cell) else {
        return Ok(());
    };
    if let Some(submission) = shelf.get(number) {
        lines.push(Line::Cell {
            cell: submission.cell.copy()?,
            version: submission.version,
            submitter: submission.submitter.copy()?,
        })?;
    }
    Ok(())
}

/// The lines of the cells that the session may read.
fn cell_lines(
    alloc: Global,
    policy: &Policy,
    shelf: &Shelf,
    connection: u32,
    cells: &[Name],
) -> Result<Lines, AllocError>
    ensures { IfOk result (λ lines. lines ≡ map stored (flat_map (row.readable_line policy.now shelf.now connection) cells.now)) }
{
    let mut lines = Vec::new(alloc);
    let access = policy.access(connection, Operation::Read);
    for cell in cells {
        push_cell(&mut lines, &access, shelf, cell)?;
    }
    Lines::from_vec(alloc, lines)
}

/// The lines of `cells`. Cost: a sort of the submissions' cells, and a look-up for each.
pub(crate) fn cells(
    alloc: Global,
    policy: &Policy,
    shelf: &Shelf,
    connection: u32,
) -> Result<Lines, AllocError>
    ensures { IfOk result (λ lines. lines ≡ row.cells policy.now shelf.now connection) }
{
    let cells = shelf.cells(alloc)?;
    cell_lines(alloc, policy, shelf, connection, cells.as_slice())
}

/// The number of the present submission of a cell.
fn present_number(shelf: &Shelf, cell: &Name) -> Result<u32, Fault<LayoutEnding>>
    ensures shown { Answers (λ number. number) result (needed (LayoutEnding.Refused Code.NoCell) (present shelf.now cell.now)) }
    ensures within { IfOk result (λ number. number < length shelf.now) }
{
    shelves_have_their_numbers();
    match shelf.present(cell) {
        Some(number) => Ok(number),
        None => Err(refused(Code::NoCell)),
    }
}

/// The lines of `shapes`. Cost: a look-up for each submission on the shelf, and the turns of a walk over the submission's shapes.
#[tactic(auto, unfolding(crate::specs::Layouts::shapes))]
pub(crate) fn shapes(
    alloc: Global,
    policy: &Policy,
    shelf: &Shelf,
    connection: u32,
    cell: &Name,
) -> Result<Lines, Fault<LayoutEnding>>
    ensures { Answers (λ lines. lines) result (row.shapes policy.now shelf.now connection cell.now) }
{
    let number = present_number(shelf, cell)?;
    let listing = shapes_of(alloc, policy, shelf, connection, number)?;
    Ok(Lines::of_shapes(alloc, listing)?)
}
