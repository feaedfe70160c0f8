//! Laws of runs, over every list of events. Each function calls at most the laws that its proof needs. Its contract is the law.
ghost use Rattle.mpw_laws.specs.RunLaws.{EachRunKeeps, FinishedOnceAllWereKept, UnkeptLeavesTheRun, RunsGoOnOrAreFinished, TakingCountsAlone, NextIsFewest};
ghost use Rattle.mpw_run.specs.Step.{Run as RunValue};

use mpw_job::answers_make_the_layout;
use mpw_run::stitched_computes;

/// After any events, a run is sound: the windows are those of its snapshot, each stored answer is that of its tile's job, and the book of a
/// finished run has exactly the markers of its snapshot's flat layout.
pub fn each_run_keeps()
    ensures { EachRunKeeps }
{
    answers_make_the_layout();
    stitched_computes();
}

/// After any events, a run is finished exactly if, since it began, an answer of each of its tiles was accepted.
pub fn finished_once_all_were_kept()
    ensures { FinishedOnceAllWereKept }
{
    answers_make_the_layout();
    stitched_computes();
}

/// A result that is not accepted leaves the run unchanged. So does a call that gets no job.
pub fn unkept_leaves_the_run()
    ensures { UnkeptLeavesTheRun }
{}

/// A call for a job, or the windows of a cut, leaves a run unchanged, or the run goes on and is not finished. So do the markers of a tile,
/// or they finish a run that was not finished. The number of the run stays the same.
pub fn runs_go_on_or_are_finished()
    ensures { RunsGoOnOrAreFinished }
{}

/// A call for a job changes nothing but how often a tile was handed out.
pub fn taking_counts_alone()
    ensures { (run : RunValue) → TakingCountsAlone run }
{}

/// The tile that is handed out next is the unanswered one that was handed out the fewest times, and of these the one with the least number.
/// There is none if each tile is answered.
pub fn next_is_fewest()
    ensures { NextIsFewest }
{}
