//! The answers to requests of the checking run.
ghost use Rattle.std.specs.Prelude.{◌+◌, ◌<◌, ◌^◌};
ghost use Rattle.mpw_placings.specs.Placements.{ArePlacings};
ghost use Rattle.mpw_replies.specs.Rows.{AnswersBy};
ghost use Rattle.mpw_wafer.specs.Run.Answers.{Stands};
ghost use Rattle.mpw_wafer.specs.Run.Checking.{row_of};

use crate::run::begin::begin;
use crate::run::rows::{checked_lines, goes_on, phase_line};
use mpw_hier::Shelf;
use mpw_placings::Wafer;
use mpw_rbac::Policy;
use mpw_replies::{Done, Fault, Line, Lines, need};
use mpw_requests::RunRequest;
use mpw_run::{Prepared, Run};
use mpw_trail::Code;
use std::alloc::Global;

/// The change of the run by a request.
#[derive(Drop)]
pub enum NextRun {
    /// A new run begins.
    Start(Prepared),
    /// The run is cancelled.
    Cancel,
}

/// What a request of the run lists, or its change of the run. `run` is linear in the placements and the deck's rules, `status` in the run's
/// tiles. `markers` costs a look-up for each submission on the run's shelf, and a listing of the run's book.
///
/// # Errors
/// The refusal of the first test that fails, or out of memory.
pub fn answer_request(
    alloc: Global,
    policy: &Policy,
    shelf: &Shelf,
    wafer: &Wafer,
    run: &Run,
    connection: u32,
    request: &RunRequest,
) -> Result<Done<NextRun>, Fault<Code>>
    requires placings { ArePlacings shelf.now wafer.now.placings }
    requires counted { run.now.number + 1 < 2 ^ 32 }
    ensures { AnswersBy (Stands run.now) result (row_of policy.now shelf.now wafer.now run.now connection request.now) }
{
    match request {
        RunRequest::Run => {
            let planned = begin(alloc, shelf, wafer, run)?;
            Ok(Done::Changes {
                lines: Lines::of_line(alloc, Line::Run(run.number() + 1))?,
                part: NextRun::Start(run.prepare_start(planned)),
            })
        }
        RunRequest::Cancel => {
            goes_on(run.phase())?;
            Ok(Done::Changes {
                part: NextRun::Cancel,
                lines: Lines::none(),
            })
        }
        RunRequest::Status => Ok(Done::Lists(Lines::of_line(alloc, phase_line(run))?)),
        RunRequest::Markers => {
            let checked = need(run.phase().findings(), Code::NotFinished)?;
            Ok(Done::Lists(checked_lines(alloc, policy, connection, checked)?))
        }
    }
}
