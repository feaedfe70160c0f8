//! When a run is finished. The contract is the law.

ghost use Rattle.mpw_run_laws.specs.Finishing.{FinishedExactlyThen};

/// In the state that a legal history leads to, a run over a snapshot is finished exactly if the history has these calls. First an accepted
/// `run`, in a state with the deck, the placed submissions and the shelf of the snapshot, with no accepted `run` or `cancel` after it.
/// After it a stretch of calls without a restart, in which an answer of each of its tiles was accepted. So after a restart the earlier
/// answers don't count.
pub fn a_run_is_finished_once_all_was_kept()
    ensures { FinishedExactlyThen }
{}
