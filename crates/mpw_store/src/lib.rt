//! The store of a desk's changes: a SQLite database with one table, a row for each change, and the file that has it.
//!
//! A row is appended in one transaction. So a crash at any moment leaves the rows as they were, or these and the new one. All rows are read
//! again in the order of their places, one at a time. A database with anything else than the table of changes is refused before anything is
//! written to it.
//!
//! The table is generic over the database's own store, `S: Alter`: a file that sqlite3 reads too, or memory. Clauses name the state
//! of a connection by `state S.Store`. What they say of values holds if the disk has returned what was written (`HasCleanDisk`), which
//! memory always does.
//!
//! A file is opened for one process at a time ([`open_store`]). One that isn't there is made, so that its owner alone may read it: it has the
//! digests of all tokens. A file with two names is refused, since the database's log is next to one of them. What is found under the name is
//! looked at first (`found`), and one function decides by it (`terms`), so that nothing is made or written next to what is refused. The
//! database copies its log into the file while rows are added (`checkpoint`).
#![tactic(auto)]

mod added;
mod checkpoint;
mod copy;
mod fault;
mod file;
mod file_fault;
mod found;
mod laws;
mod opened;
mod rows;
mod table;
mod terms;

pub use added::append;
pub use checkpoint::{MOST_BYTES, MOST_ROWS, checkpoint_frames};
pub use copy::{StoreCopy, read_store, read_with_log};
pub use fault::StoreFault;
pub use file::{FileConnection, Opened, open_store};
pub use file_fault::{FileFault, status_of_store};
pub use found::{EMPTY_LOG, Found, Kind};
pub use laws::{added_rows_are_last, rows_are_at_their_places};
pub use opened::{find_table, open_table};
pub use rows::{TakesRows, read_rows};
pub use table::{has_changes_alone, has_nothing};
pub use terms::{Terms, opening, reading};
