//! Laws of the definitions alone. The contract of each function is the law.
ghost use Rattle.mpw_run.specs.Laws.{TestsAreExact, StitchedComputes};

/// The tests of equality, of snapshots and of jobs of tiles, are true exactly if the values are equal.
pub fn tests_are_exact()
    ensures { TestsAreExact }
{}

/// The computed book is the one that is stitched from the lists, if each of their markers has a row and touches submissions with ascending numbers.
pub fn stitched_computes()
    ensures { StitchedComputes }
{}
