//! What a desk stores can be reopened. The contracts are the laws.
ghost use Rattle.mpw_reopening_laws.specs.ReopeningLaws.{HistoriesCanBeReopened, ReopenedDesksHaveTheState, RowsAreNeverBad, StoresCanBeReopenedAgain};
ghost use Rattle.sqlite.specs.Held.{state};

use mpw_job::{answers_make_the_layout, layout_determines_markers};
use mpw_run::stitched_computes;
use mpw_store_text::stored_requests_are_read;
use sqlite::{Alter, Connection};

/// A new desk of the same officer accepts the stored changes of a legal history, as rows, one after another. Whatever computes the runs, it
/// then has the history's state: the policy with its sessions, the submissions, the wafer, the run, its markers and the waivers. A run
/// whose tiles were being checked is back at its cutting, and the trail has the requests that were stored.
pub fn histories_can_be_reopened()
    ensures { HistoriesCanBeReopened }
{
    answers_make_the_layout();
    stitched_computes();
    layout_determines_markers();
    stored_requests_are_read();
}

/// A store that was reopened can be reopened again: with the ends of the open sessions, and the changes of the desk that went on, its rows
/// lead to that desk's state. So the earlier rows lead to the same state at each later reopening.
pub fn stores_can_be_reopened_again()
    ensures { StoresCanBeReopenedAgain }
{
    answers_make_the_layout();
    stitched_computes();
    layout_determines_markers();
    stored_requests_are_read();
}

/// Such rows are never reported as bad, in any store. A store that has them is refused with a place only if it has no room for the ends of
/// the open sessions.
pub fn rows_are_never_bad<S: Alter>(_store: &Connection<S>)
    ensures { RowsAreNeverBad (state S.Store _store.now) }
{}

/// Reopening any store with such rows gives a desk with the state of the one that stored them, except that its sessions are ended.
pub fn reopened_desks_have_the_state<S: Alter>(_before: &Connection<S>, _later: &Connection<S>)
    ensures { ReopenedDesksHaveTheState (state S.Store _before.now) (state S.Store _later.now) }
{}
