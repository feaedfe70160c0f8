//! Laws of rows, on which callers rest. Each function does nothing: its contract is the law.
ghost use Rattle.mpw_store_restoring.specs.Restoring.{RestartsAddNone, RowsAddTheirChanges, RowsLeadToOneDesk};

/// A row that a desk accepts adds its change to those of the desk's calls, and a restart adds none.
pub fn rows_add_their_changes()
    ensures rows { RowsAddTheirChanges }
    ensures restarts { RestartsAddNone }
{}

/// A row of a request, and of an end of a connection, leads a desk to one other at most.
pub fn rows_lead_to_one_desk()
    ensures { RowsLeadToOneDesk }
{}
