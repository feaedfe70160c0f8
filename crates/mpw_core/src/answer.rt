//! *Prepare*: the response to an event and its changes, made next to the desk's present tables.
//!
//! Each group of requests has a function that gives the result of its decision tables. [`answered`] is the one function from such a result
//! to an answer.
ghost use Rattle.std.specs.Prelude.{◌≡◌, true, false, IfOk, Ok as Passed};
ghost use Rattle.mpw_core.specs.Internal.Answer.{ComesTo, Fits, IsReady, Gives, is_change, open_state, state_with};
ghost use Rattle.mpw_events.specs.History.{restarts};
ghost use Rattle.mpw_access.specs.Guard.{entered};
ghost use Rattle.mpw_events.specs.Step.{State, Outcome, event_outcome, no_change, outcome_of, parting_outcome, row_outcome};
ghost use Rattle.mpw_events.specs.declared.event.Response.TheVariants.{Told as ToldResponse};
ghost use Rattle.mpw_requests.specs.Needs.{need_of};

use crate::policy::{revised, trail_lines, whoami};
use crate::run_answer::of_run;
use crate::tables::Tables;
use mpw_access::enter;
use mpw_events::{Event, Response};
use mpw_hier::Shelf;
use mpw_placings::Wafer;
use mpw_rbac::Policy;
use mpw_replies::{Done, Ends, Fault, Reply};
use mpw_requests::{Request, need_of};
use mpw_run::Prepared;
use mpw_signoff::WaiverChange;
use mpw_wafer::run::NextRun;
use mpw_waiver::Waivers;
use std::alloc::{AllocError, Global};

/// The change that is moved in with the answer to an event.
#[derive(Drop)]
pub(crate) enum Next {
    Nothing,
    NextPolicy(Policy),
    NextShelf(Shelf),
    NextWafer(Wafer),
    /// A run begins or is cancelled, and the waivers of the one before are removed.
    NextRun(NextRun),
    /// The user asks for a waiver or signs one. It takes no memory.
    NextWaivers(WaiverChange),
    /// The run is finished, with an entry for a waiver of each of its markers.
    Finish(Prepared, Waivers),
    /// A prepared change of the run that need not be stored.
    Move(Prepared),
    /// All sessions end, and a run whose tiles are being checked goes back to its cutting. It takes no memory.
    Restart,
}

/// A response, and the change that comes with it.
#[derive(Drop)]
pub(crate) struct Answer {
    pub(crate) response: Response,
    pub(crate) next: Next,
}

/// The part of the desk that a group of requests changes.
trait Part {
    ghost over: { State → Self → State };

    ghost fits: { State → Self → Type 0 };

    /// The change that moves the part in. It takes no memory.
    fn next(self) -> Next
        ensures state { (state : State) → state_with state result ≡ over state self }
        ensures changes { is_change result ≡ true }
        ensures fits { (state : State) → fits state self → Fits state.run result };
}

impl Part for Policy {
    ghost use Rattle.std.specs.Prelude.{⊤};
    ghost use Rattle.mpw_events.specs.Step.{over_policy};

    ghost over = { over_policy };

    ghost fits = { λ _ _. ⊤ };

    fn next(self) -> Next {
        Next::NextPolicy(self)
    }
}

impl Part for Shelf {
    ghost use Rattle.std.specs.Prelude.{⊤};
    ghost use Rattle.mpw_events.specs.Step.{over_shelf};

    ghost over = { over_shelf };

    ghost fits = { λ _ _. ⊤ };

    fn next(self) -> Next {
        Next::NextShelf(self)
    }
}

impl Part for Wafer {
    ghost use Rattle.std.specs.Prelude.{⊤};
    ghost use Rattle.mpw_events.specs.Step.{over_wafer};

    ghost over = { over_wafer };

    ghost fits = { λ _ _. ⊤ };

    fn next(self) -> Next {
        Next::NextWafer(self)
    }
}

impl Part for NextRun {
    ghost use Rattle.mpw_wafer.specs.Run.Answers.{Fits as RunFits};
    ghost use Rattle.mpw_core.specs.Internal.Answer.{with_run};

    ghost over = { with_run };

    ghost fits = { λ state next. RunFits state.run next };

    fn next(self) -> Next {
        Next::NextRun(self)
    }
}

impl Part for WaiverChange {
    ghost use Rattle.std.specs.Prelude.{⊤};
    ghost use Rattle.mpw_events.specs.Step.{over_waivers};

    ghost over = { over_waivers };

    ghost fits = { λ _ _. ⊤ };

    fn next(self) -> Next {
        Next::NextWaivers(self)
    }
}

/// The answer to a request by the result of its decision table, whatever its group.
///
/// # Errors
/// Out of memory.
fn answered<P: Part + Drop, E: Ends + Drop>(
    made: Result<Done<P>, Fault<E>>,
) -> Result<Answer, AllocError>
    ensures { (state : State) (outcome : Outcome) → ComesTo E.ending (P.over state) (P.fits state) state made outcome → IfOk result (λ answer. Gives state outcome answer.response answer.next) }
{
    let (reply, next) = match made {
        Ok(Done::Lists(lines)) => (Reply::Ok(lines), Next::Nothing),
        Ok(Done::Changes { part, lines }) => (Reply::Ok(lines), part.next()),
        Err(Fault::Told(ending)) => (ending.ending().reply(), Next::Nothing),
        Err(Fault::Memory) => return Err(AllocError),
    };
    Ok(Answer {
        response: Response::Told(reply),
        next,
    })
}

/// The answer that changes nothing.
fn told(reply: Reply) -> Answer
    ensures { (state : State) → Gives state (no_change (ToldResponse reply) state) result.response result.next }
{
    Answer {
        response: Response::Told(reply),
        next: Next::Nothing,
    }
}

/// Answers a request whose connection has what it needs.
fn answer_row(
    alloc: Global,
    tables: &Tables,
    connection: u32,
    request: &Request,
) -> Result<Answer, AllocError>
    requires ready { IsReady tables.now }
    requires entered { entered tables.now.policy connection (need_of request.now) ≡ Passed tt }
    ensures { IfOk result (λ answer. Gives (open_state tables.now) (row_outcome (open_state tables.now) connection request.now) answer.response answer.next) }
{
    let Tables {
        policy,
        shelf,
        wafer,
        run,
        waivers,
        trail: requests,
    } = tables;
    match request {
        Request::Policy(request) => answered(revised(policy, connection, request)),
        Request::Whoami => answered(whoami(alloc, policy, connection)),
        Request::Layout(request) => answered(mpw_layouts::answer_request(
            alloc, policy, shelf, connection, request,
        )),
        Request::Wafer(request) => {
            answered(mpw_wafer::answer_request(alloc, shelf, wafer, request))
        }
        Request::Run(request) => answered(mpw_wafer::run::answer_request(
            alloc, policy, shelf, wafer, run, connection, request,
        )),
        Request::SignOff(request) => answered(mpw_signoff::answer_request(
            alloc, policy, wafer, run, waivers, connection, request,
        )),
        Request::Trail => Ok(told(Reply::Ok(trail_lines(alloc, requests)?))),
    }
}

/// Answers a request: the guard, and then its decision table.
fn ask(
    alloc: Global,
    tables: &Tables,
    connection: u32,
    request: &Request,
) -> Result<Answer, AllocError>
    requires { IsReady tables.now }
    ensures { IfOk result (λ answer. Gives (open_state tables.now) (outcome_of (open_state tables.now) connection request.now) answer.response answer.next) }
{
    let need = need_of(request)?;
    match enter(&tables.policy, connection, need) {
        Ok(()) => answer_row(alloc, tables, connection, request),
        Err(ending) => Ok(told(ending.reply())),
    }
}

/// Answers a connection's end. If the connection has no session, nothing changes and nothing is copied.
fn parting(policy: &Policy, connection: u32) -> Result<Answer, AllocError>
    ensures { (state : State) → state.policy ≡ policy.now → IfOk result (λ answer. Gives state (parting_outcome state connection) answer.response answer.next) }
{
    if !policy.has_session(connection) {
        return Ok(Answer {
            response: Response::Gone,
            next: Next::Nothing,
        });
    }
    let mut next = policy.copy()?;
    next.end(connection);
    Ok(Answer {
        response: Response::Gone,
        next: Next::NextPolicy(next),
    })
}

/// The answer to an event.
///
/// Cost of a request: at most the policy's size, and its own. A submission adds its library's size and the number of submissions on the shelf.
/// `cells` and `shapes` add that number. `shapes` also adds the turns of a walk. An event of the run costs what the run's own `prepare` does.
///
/// # Errors
/// Out of memory.
#[tactic(auto, unfolding(mpw_events::specs::Step::event_outcome))]
pub(crate) fn prepare(alloc: Global, tables: &Tables, event: &Event) -> Result<Answer, AllocError>
    requires { restarts event.now ≡ false → IsReady tables.now }
    ensures { IfOk result (λ answer. Gives (open_state tables.now) (event_outcome (open_state tables.now) event.now) answer.response answer.next) }
{
    match event {
        Event::Ask {
            connection,
            request,
        } => ask(alloc, tables, *connection, request.get()),
        Event::Gone { connection } => parting(&tables.policy, *connection),
        Event::Take { .. } => of_run(alloc, &tables.run, tables.run.prepare_take(alloc)?),
        Event::Cut(answer) => of_run(
            alloc,
            &tables.run,
            tables.run.prepare_cut(alloc, answer.get())?,
        ),
        Event::Tile(answer) => of_run(
            alloc,
            &tables.run,
            tables.run.prepare_tile(alloc, answer.get())?,
        ),
        Event::Restart => Ok(Answer {
            response: Response::Restarted,
            next: Next::Restart,
        }),
    }
}
