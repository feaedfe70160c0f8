//! What a restart undoes. The contract is the law.

ghost use Rattle.mpw_run_laws.specs.Restarts.{OnlyRestartsTakeBack, RestartsTakeBack};

/// After a restart a run has the same number, and checks the same snapshot. A session that may list its markers gets the same ones, and the
/// waivers are the same. No answer of a tile is accepted until the run is cut again: a call for a job of an unfinished run gets the cut,
/// and after its windows no tile has an answer. Of no other run after it does all this hold.
pub fn restarts_take_back_answers()
    ensures so { RestartsTakeBack }
    ensures only { OnlyRestartsTakeBack }
{}
