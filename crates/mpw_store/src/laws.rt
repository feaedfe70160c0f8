//! What holds of every table of changes.
ghost use Rattle.mpw_store.specs.Entries.{RowsAreAtTheirPlaces, AddedRowsAreLast};

/// The rows of a table are those that are found at the places from 1 on, in that order.
pub fn rows_are_at_their_places()
    ensures { RowsAreAtTheirPlaces }
{}

/// A table with one more row, at the place after the others, has those rows and then that one.
pub fn added_rows_are_last()
    ensures { AddedRowsAreLast }
{}
