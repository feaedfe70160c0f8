//! Laws of executing a run. Each function calls the laws that its proof needs. Its contract is the law.
ghost use Rattle.mpw_laws.specs.WorkLaws.{WorkEnds, WorkGoesOn};

use mpw_events::keepers_have_the_changes_in_order;
use mpw_run::tests_are_exact;

/// After an accepted `run`, the work goes on until the run is finished, or the desk answers no event of a run any more, unless memory runs out.
pub fn work_ends()
    ensures { WorkEnds }
{
    tests_are_exact();
}

/// Executing a run adds calls to the desk's history, and nothing else. A store writer whose list is known has exactly their changes, in order, after the
/// earlier ones.
pub fn work_goes_on()
    ensures { WorkGoesOn }
{
    keepers_have_the_changes_in_order();
}
