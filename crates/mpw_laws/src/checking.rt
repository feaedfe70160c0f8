//! A law of the requests of the run. The function calls the law that its proof needs. Its contract is the law.
ghost use Rattle.mpw_laws.specs.CheckingLaws.{MarkersAreOfReadable};

use crate::listings::lines_of_books_are_of_readable_cells;

/// The lines of `markers` name only cells that the connection's session may read.
pub fn lines_of_markers_are_of_readable_cells()
    ensures { MarkersAreOfReadable }
{
    lines_of_books_are_of_readable_cells();
}
