//! A private desk: nobody else asks it while it serves a connection.
ghost use Rattle.std.specs.Prelude.{◌≡◌};
ghost use Rattle.mpw_events.specs.History.{kept_desk};
ghost use Rattle.mpw_wire.specs.Reading.{read_failures};
ghost use Rattle.mpw_wire.specs.Writing.{fault_of};
ghost use Rattle.mpw_serve.specs.Serving.{LeavesNothingPending, Serves, answer_of, write_failures};
ghost use Rattle.mpw_serve.specs.OwnDesk.{IsAnswer, IsGone};

use crate::executor::Executor;
use crate::progress::Progress;
use crate::responder::Responder;
use crate::serve::{Served, serve_connection};
use crate::working::work_behind;
use mpw_devices::{Sink, Source};
use mpw_events::{Event, Handler, Keeper, Response};
use mpw_requests::SharedRequest;
use std::alloc::Global;
use std::marker::Model;
use std::thread::Threads;

/// A desk with its store writer, the connection that asks it, and the executor of its runs. Contracts see the connection, the desk and the
/// store writer.
pub struct OwnDesk<'a, H: Handler, K: Keeper, T: Threads + Sync, P: Progress> {
    core: Box<H>,
    keeper: K,
    connection: u32,
    executor: Executor<'a, T, P>,
}

impl<'a, H: Handler, K: Keeper, T: Threads + Sync, P: Progress> Model for OwnDesk<'a, H, K, T, P> {
    ghost use Rattle.mpw_events.specs.History.{kept_desk};
    ghost use Rattle.mpw_serve.specs.OwnDesk.{ConnectedDesk};

    ghost Value = { ConnectedDesk };

    ghost view = { λ own. record { connection = own.connection; desk = kept_desk (H.desk own.core.value) (K.kept own.keeper) (K.failures own.keeper) } };
}

/// Has the desk answer a request, and executes the run if one is accepted. It returns none if out of memory.
fn handle<H: Handler, K: Keeper, T: Threads + Sync, P: Progress>(
    executor: &mut Executor<'_, T, P>,
    core: &mut H,
    keeper: &mut K,
    connection: u32,
    request: SharedRequest,
) -> Option<Response>
    ensures { IsAnswer connection (kept_desk (H.desk core.old) (K.kept keeper.old) (K.failures keeper.old)) request (answer_of result) (kept_desk (H.desk core.new) (K.kept keeper.new) (K.failures keeper.new)) }
{
    let asked = request.copy().ok()?;
    let response = core
        .handle(
            keeper,
            Event::Ask {
                connection,
                request,
            },
        )
        .ok()?;
    work_behind(executor, core, keeper, asked.get(), &response);
    Some(response)
}

/// Hands the connection's end to the desk. It returns whether it was handed in; it isn't if out of memory.
fn hand_end<H: Handler, K: Keeper>(core: &mut H, keeper: &mut K, connection: u32) -> bool
    ensures { IsGone connection (kept_desk (H.desk core.old) (K.kept keeper.old) (K.failures keeper.old)) result (kept_desk (H.desk core.new) (K.kept keeper.new) (K.failures keeper.new)) }
{
    core.handle(keeper, Event::Gone { connection }).is_ok()
}

impl<'a, H: Handler, K: Keeper, T: Threads + Sync, P: Progress> Responder
    for OwnDesk<'a, H, K, T, P> {
    ghost use Rattle.std.specs.Thread.{IsSync};
    ghost use Rattle.mpw_serve.specs.OwnDesk.{IsTold, IsParted};

    ghost can_ask = { IsSync T.row };

    ghost told = { IsTold };

    ghost parted = { IsParted };

    fn ask(&mut self, request: SharedRequest) -> Option<Response> {
        handle(
            &mut self.executor,
            &mut *self.core,
            &mut self.keeper,
            self.connection,
            request,
        )
    }

    fn part(&mut self) -> bool {
        hand_end(&mut *self.core, &mut self.keeper, self.connection)
    }
}

impl<'a, H: Handler, K: Keeper, T: Threads + Sync, P: Progress> OwnDesk<'a, H, K, T, P> {
    /// Makes a private desk of this desk and store writer, for this connection. The executor executes its runs.
    pub fn new(
        core: Box<H>,
        keeper: K,
        connection: u32,
        executor: Executor<'a, T, P>,
    ) -> OwnDesk<'a, H, K, T, P>
        ensures connection { result.connection ≡ connection }
        ensures desk { result.desk ≡ kept_desk (H.desk core.value) (K.kept keeper) (K.failures keeper) }
    {
        OwnDesk {
            core,
            keeper,
            connection,
            executor,
        }
    }

    /// The allocator.
    fn alloc(&self) -> Global {
        self.executor.alloc
    }
}

impl<'a, H: Handler, K: Keeper, T: Threads + Sync, P: Progress + Drop> OwnDesk<'a, H, K, T, P> {
    /// The desk and its store writer.
    pub fn into_parts(self) -> (Box<H>, K)
        ensures { kept_desk (H.desk result.0.value) (K.kept result.1) (K.failures result.1) ≡ self.entry.desk }
    {
        let OwnDesk {
            core,
            keeper,
            connection: _,
            executor: _,
        } = self;
        (core, keeper)
    }
}

/// Serves a connection over a private desk, as [`serve_connection`] does. Each accepted change is handed to the store writer first. While
/// an accepted `run` is executed, progress is reported; no clause speaks of it.
///
/// Cost: the lines, and for each request the desk's step. An accepted `run` adds what [`work_behind`] costs.
pub fn serve_core<H: Handler, K: Keeper, T: Threads + Sync, P: Progress, R: Source, W: Sink>(
    own: &mut OwnDesk<'_, H, K, T, P>,
    reader: &mut R,
    writer: &mut W,
) -> Served
    ensures served { Serves (IsAnswer own.old.connection) (IsGone own.old.connection) (R.remaining reader.old) (R.remaining reader.new) (W.contents writer.old) (W.contents writer.new) own.old.desk own.new.desk result }
    ensures connection { own.new.connection ≡ own.old.connection }
    ensures reader { R.failures reader.new ≡ read_failures (fault_of result.ended) (R.failures reader.old) }
    ensures writer { W.failures writer.new ≡ write_failures (fault_of result.ended) (W.failures writer.old) }
    ensures handed { LeavesNothingPending (fault_of result.ended) (W.pending writer.old) (W.pending writer.new) }
{
    serve_connection(own.alloc(), own, reader, writer)
}
