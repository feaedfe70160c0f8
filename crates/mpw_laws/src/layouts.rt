//! Laws of the requests of the layouts. Each function calls at most the laws that its proof needs. Its contract is the law.
ghost use Rattle.mpw_laws.specs.LayoutLaws.{LayoutsAreOfReadable, LayoutsDenyWhatIsLacked, ShapesAreNoReferences};

use mpw_hier::shelves_have_their_numbers;
use mpw_walk::shapes_are_no_references;

/// If a decision table denies the use of a cell, the connection's session may not use it. The tables deny no other permission.
pub fn denials_of_layouts_name_what_is_lacked()
    ensures { LayoutsDenyWhatIsLacked }
{}

/// A line of a reply that names a cell, or shows a shape of one, is of a cell that the connection's session may read.
pub fn lines_of_layouts_are_of_readable_cells()
    ensures { LayoutsAreOfReadable }
{
    shelves_have_their_numbers();
}

/// Each line of a reply to `shapes` has a boundary or a path: arrays and other references are resolved.
pub fn lines_of_shapes_are_no_references()
    ensures { ShapesAreNoReferences }
{
    shapes_are_no_references();
}
