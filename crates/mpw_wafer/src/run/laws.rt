//! Laws of the definitions alone. Each function calls at most the laws that its proof needs. Its contract is the law.
ghost use Rattle.mpw_wafer.specs.Run.Laws.{NothingIsHandedOut, NumbersAreCounted};

/// A request raises the number of runs by at most one: each change that it makes does.
pub fn a_request_counts_one_run_at_most()
    ensures { NumbersAreCounted }
{}

/// A request hands out no tile: no change that it makes does.
pub fn a_request_hands_nothing_out()
    ensures { NothingIsHandedOut }
{}
