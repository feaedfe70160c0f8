//! Laws of the lines of a book. Each function has an empty body. Its contract is the law.
ghost use Rattle.mpw_laws.specs.ListingLaws.{BooksAreOfReadable, FullAreNotHidden, HiddenLeaveNoTrace};

/// A line of a book of markers names only cells that the connection's session may read.
pub fn lines_of_books_are_of_readable_cells()
    ensures { BooksAreOfReadable }
{}

/// A marker that touches a submission is not both full and hidden.
pub fn full_markers_are_not_hidden()
    ensures { FullAreNotHidden }
{}

/// A hidden marker that isn't also full leaves no trace: neither a line nor a count. Only a marker that touches nothing would be both.
pub fn hidden_markers_leave_no_trace()
    ensures { HiddenLeaveNoTrace }
{}
