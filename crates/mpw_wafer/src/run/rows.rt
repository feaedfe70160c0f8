//! The parts of the decision tables of `cancel`, `status` and `markers`.
ghost use Rattle.std.specs.Prelude.{◌≡◌, IfOk};
ghost use Rattle.mpw_wafer.specs.Run.Checking as row;
ghost use Rattle.mpw_replies.specs.Rows.{Answers};

use mpw_access::seen_by;
use mpw_rbac::Policy;
use mpw_replies::{Fault, Line, Lines, MarkerListing};
use mpw_run::{Checked, Phase, Run};
use mpw_trail::Code;
use std::alloc::{AllocError, Global};

/// A run is going on.
pub(crate) fn goes_on(phase: &Phase) -> Result<(), Fault<Code>>
    ensures { Answers (λ x. x) result (row.going_on phase.now) }
{
    match phase {
        Phase::Idle => Err(Fault::Told(Code::NoRun)),
        Phase::Cutting(_) => Ok(()),
        Phase::Checking(_) => Ok(()),
        Phase::Finished(_) => Err(Fault::Told(Code::NoRun)),
    }
}

/// How far the run is. Linear in its tiles.
pub(crate) fn phase_line(run: &Run) -> Line
    ensures { result ≡ row.phase_line run.now.number run.now.phase }
{
    let run_number = run.number();
    match run.phase() {
        Phase::Idle => Line::Idle,
        Phase::Cutting(_) => Line::Cutting(run_number),
        Phase::Checking(checks) => Line::Checking {
            run: run_number,
            done: checks.done(),
            total: checks.total(),
        },
        Phase::Finished(_) => Line::Finished(run_number),
    }
}

/// The lines of a finished run's markers, as far as the session may read the cells. Cost: a look-up for each submission on the run's shelf,
/// and that of the listing.
pub(crate) fn checked_lines(
    alloc: Global,
    policy: &Policy,
    connection: u32,
    checked: &Checked,
) -> Result<Lines, AllocError>
    ensures { IfOk result (λ lines. lines ≡ row.checked_lines policy.now connection checked.now) }
{
    let snapshot = checked.planned.snapshot();
    let shelf = snapshot.shelf();
    let seen = seen_by(alloc, policy, connection, shelf.submissions())?;
    let book = checked.book.copy()?;
    let rules = snapshot.deck().rules().copy()?;
    let listing = MarkerListing::new(alloc, book, rules, shelf, seen)?;
    Lines::of_markers(alloc, listing)
}
