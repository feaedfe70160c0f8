//! Serving a connection over the desk of a store.
ghost use Rattle.std.specs.Prelude.{◌≡◌, ◌+◌, IfErr, IfOk, None};
ghost use Rattle.mpw_events.specs.History.{kept_desk};
ghost use Rattle.mpw_store_keeper.specs.Kept.{HoldsRows, kept_in};
ghost use Rattle.mpw_stored_desk.specs.Reopening.{IsIdle};
ghost use Rattle.mpw_stored_desk.specs.Serving.{IsUnopened, ServesOver, ServesStore};
ghost use Rattle.mpw_serve.specs.Serving.{LeavesNothingPending, write_failures};
ghost use Rattle.mpw_wire.specs.Reading.{read_failures};
ghost use Rattle.mpw_wire.specs.Writing.{fault_of};
ghost use Rattle.sqlite.specs.Held.{state};
ghost use Rattle.sqlite.specs.State.{HasCleanDisk};

use crate::fault::StoredFault;
use crate::reopened::{Reopened, reopen};
use mpw_devices::{Sink, Source};
use mpw_events::Handler;
use mpw_serve::{Executor, OwnDesk, Progress, Served, serve_core};
use mpw_settings::Officer;
use mpw_store::StoreFault;
use mpw_store_keeper::StoreKeeper;
use sqlite::{Alter, Connection};
use std::thread::Threads;

/// The outcome of a connection over the desk of a store.
pub struct Stopped<S: Alter> {
    /// The store.
    pub conn: Connection<S>,
    /// The outcome of the connection.
    pub served: Served,
    /// Why a change could not be stored, which closed the desk.
    pub fault: Option<StoreFault>,
}

/// Serves a connection of that number over a desk that was reopened, and stores its changes.
fn serve_on<S, H, T, P, R, W>(
    reopened: Reopened<'_, H, T, P>,
    conn: Connection<S>,
    connection: u32,
    reader: &mut R,
    writer: &mut W,
) -> Stopped<S>
where
    S: Alter + Drop,
    H: Handler + Drop,
    T: Threads + Sync,
    P: Progress + Drop,
    R: Source,
    W: Sink,
    requires { HasCleanDisk (state S.Store conn) → HoldsRows (state S.Store conn) reopened.rows }
    ensures served { ServesOver connection (kept_desk (H.desk reopened.entry.core.value) (kept_in (state S.Store conn) reopened.entry.rows) 0) (R.remaining reader.old) (R.remaining reader.new) (W.contents writer.old) (W.contents writer.new) result.served result.fault (state S.Store result.conn) }
    ensures reader { R.failures reader.new ≡ read_failures (fault_of result.served.ended) (R.failures reader.old) }
    ensures writer { W.failures writer.new ≡ write_failures (fault_of result.served.ended) (W.failures writer.old) }
    ensures handed { LeavesNothingPending (fault_of result.served.ended) (W.pending writer.old) (W.pending writer.new) }
    ensures idle { HasCleanDisk (state S.Store result.conn) → result.fault ≡ None → IsIdle (state S.Store result.conn) }
{
    let Reopened {
        core,
        executor,
        rows,
        next: _,
    } = reopened;
    let keeper = StoreKeeper::new(executor.alloc, conn, rows);
    let mut own = OwnDesk::new(core, keeper, connection, executor);
    let served = serve_core(&mut own, reader, writer);
    let (_core, keeper) = own.into_parts();
    let (conn, fault) = keeper.into_parts();
    Stopped {
        conn,
        served,
        fault,
    }
}

/// Reopens the desk of a store, and serves a connection over it, whose number is above that of each before. What is accepted is stored before its reply is
/// written. The executor executes the runs.
///
/// # Errors
/// If the rows of the store lead to no desk, or no number is left for a connection. Nothing is read or written then, and the store is
/// returned.
pub fn serve_store<S, H, T, P, R, W>(
    executor: Executor<'_, T, P>,
    conn: Connection<S>,
    officer: Officer,
    reader: &mut R,
    writer: &mut W,
) -> Result<Stopped<S>, (StoredFault, Connection<S>)>
where
    S: Alter + Drop,
    H: Handler + Drop,
    T: Threads + Sync,
    P: Progress + Drop,
    R: Source,
    W: Sink,
    requires { HasCleanDisk (state S.Store conn) → IsIdle (state S.Store conn) }
    ensures served { IfOk result (λ stopped. ServesStore officer (state S.Store conn) (state S.Store stopped.conn) (R.remaining reader.old) (R.remaining reader.new) (W.contents writer.old) (W.contents writer.new) stopped.served stopped.fault) }
    ensures reader { IfOk result (λ stopped. R.failures reader.new ≡ read_failures (fault_of stopped.served.ended) (R.failures reader.old)) }
    ensures writer { IfOk result (λ stopped. W.failures writer.new ≡ write_failures (fault_of stopped.served.ended) (W.failures writer.old)) }
    ensures handed { IfOk result (λ stopped. LeavesNothingPending (fault_of stopped.served.ended) (W.pending writer.old) (W.pending writer.new)) }

    // The store may be served again if each change was stored.
    ensures idle { IfOk result (λ stopped. HasCleanDisk (state S.Store stopped.conn) → stopped.fault ≡ None → IsIdle (state S.Store stopped.conn)) }
    ensures unopened { IfErr result (λ e. IsUnopened officer (state S.Store conn) (state S.Store e.1) e.0) }
    ensures untouched { IfErr result (λ _. (reader.new ≡ reader.old) × (writer.new ≡ writer.old)) }
{
    let mut conn = conn;
    let Officer { name, digest } = officer;
    let reopened: Reopened<'_, H, T, P> = match reopen(executor, &mut conn, name, digest) {
        Ok(reopened) => reopened,
        Err(fault) => return Err((StoredFault::refused(fault), conn)),
    };
    match reopened.next {
        Some(connection) => Ok(serve_on(reopened, conn, connection, reader, writer)),
        None => Err((StoredFault::Full, conn)),
    }
}
