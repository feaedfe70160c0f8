//! A law of connections. The function calls the laws that its proof needs. Its contract is the law.
ghost use Rattle.std.specs.Prelude.{ℕ, List, Option};
ghost use Rattle.mpw_events.specs.History.{KeptDesk};
ghost use Rattle.mpw_events.specs.GoingOn.{GoesOnTo};
ghost use Rattle.mpw_serve.specs.OwnDesk.{IsAnswer, IsGone};
ghost use Rattle.mpw_serve.specs.Serving.{Serves};
ghost use Rattle.mpw_serve.specs.declared.serve.Served.{Served};

use crate::work::work_goes_on;
use mpw_events::keepers_have_the_changes_in_order;

/// A connection that is served over a private desk adds calls to its history, and nothing else. A store writer whose list is known has exactly their
/// changes, in order, after the earlier ones.
pub fn served_changes_are_kept_in_order()
    ensures { (connection : ℕ) (input left output written : Option (List ℕ)) (desk reached : KeptDesk) (served : Served) → Serves (IsAnswer connection) (IsGone connection) input left output written desk reached served → GoesOnTo desk reached }
{
    keepers_have_the_changes_in_order();
    work_goes_on();
}
