//! A law of the lists of columns. Its function does nothing; its contract is the law.

ghost use Rattle.mpw_columns.specs.FollowingOn.{ColumnsFollowOn};

/// The list of a rule, an axis and a side is the concatenation of its columns' lists. It needs adjacent columns in order, each with the list of the runs
/// whose `x1` lies in it, in the order of a book.
pub fn columns_follow_on()
    ensures { ColumnsFollowOn }
{}
