//! The desk of a service with the store writer: how it begins, and how it comes back.
ghost use Rattle.std.specs.Prelude.{◌≡◌, ◌↔◌, ◌+◌, None, IfErr, IfOk, IsSome, length};
ghost use Rattle.mpw_desk.specs.Numbers.{AreBelow};
ghost use Rattle.mpw_events.specs.History.{kept_desk, new_desk};
ghost use Rattle.mpw_store_keeper.specs.Kept.{failures_of, kept_by};
ghost use Rattle.mpw_stored_desk.specs.Reopening.{IsIdle};
ghost use Rattle.mpw_store_restoring.specs.Sessions.{greatest_connection};
ghost use Rattle.mpw_server.specs.Stored.{BeginsOver, ComesBack};
ghost use Rattle.mpw_stored_desk.specs.Serving.{IsUnopened};
ghost use Rattle.sqlite.specs.Held.{state};
ghost use Rattle.sqlite.specs.State.{HasCleanDisk};

use mpw_events::Handler;
use mpw_serve::{Executor, Progress};
use mpw_service::Begun;
use mpw_settings::Officer;
use mpw_store::StoreFault;
use mpw_store_keeper::{OptionalKeeper, StoreKeeper};
use mpw_stored_desk::{Reopened, StoredFault, reopen};
use sqlite::{Alter, Connection};
use std::alloc::{AllocError, Global};
use std::thread::Threads;

/// What is left of a desk that was shared.
#[derive(Drop)]
pub(crate) struct Left<S: Alter + Drop> {
    /// How many calls it has.
    pub(crate) calls: usize,
    /// Its store, if it has one.
    pub(crate) store: Option<Connection<S>>,
    /// Why the first change that could not be stored could not.
    pub(crate) fault: Option<StoreFault>,
}

/// A new desk of the officer, whose changes are not stored.
///
/// # Errors
/// If there is no room for it.
pub(crate) fn begin_new<S: Alter + Drop, H: Handler + Drop>(
    alloc: Global,
    officer: Officer,
) -> Result<Begun<H, OptionalKeeper<S>>, AllocError>
    ensures desk { IfOk result (λ begun. H.desk begun.core.value ≡ new_desk officer.name officer.digest) }
    ensures keeper { IfOk result (λ begun. begun.keeper ≡ None) }
    ensures first { IfOk result (λ begun. begun.first ≡ 1) }
    ensures above { IfOk result (λ begun. AreBelow begun.first (H.desk begun.core.value).history) }
    ensures whole { IfOk result (λ begun. failures_of begun.keeper ≡ 0) }
{
    let Officer { name, digest } = officer;
    let core = H::new_boxed(alloc, name, digest)?;
    Ok(Begun {
        core,
        keeper: OptionalKeeper::none(),
        first: 1,
    })
}

/// The desk that the rows of a store lead to, whose changes are stored there. The executor executes again the runs that were finished.
///
/// # Errors
/// If the rows lead to no desk, or no number is left for a connection. The store is returned.
pub(crate) fn begin_over<S, H, T, P>(
    executor: Executor<'_, T, P>,
    conn: Connection<S>,
    officer: Officer,
) -> Result<Begun<H, OptionalKeeper<S>>, (StoredFault, Connection<S>)>
where
    S: Alter + Drop,
    H: Handler + Drop,
    T: Threads + Sync,
    P: Progress + Drop,
    requires { HasCleanDisk (state S.Store conn) → IsIdle (state S.Store conn) }
    ensures begins { IfOk result (λ begun. BeginsOver officer (state S.Store conn) (kept_desk (H.desk begun.core.value) (kept_by begun.keeper) (failures_of begun.keeper))) }
    ensures keeper { IfOk result (λ begun. IsSome begun.keeper) }
    ensures whole { IfOk result (λ begun. failures_of begun.keeper ≡ 0) }
    ensures next { IfOk result (λ begun. begun.first ≡ greatest_connection (H.desk begun.core.value) + 1) }
    ensures above { IfOk result (λ begun. AreBelow begun.first (H.desk begun.core.value).history) }
    ensures unopened { IfErr result (λ e. IsUnopened officer (state S.Store conn) (state S.Store e.1) e.0) }
{
    let mut conn = conn;
    let alloc = executor.alloc;
    let Officer { name, digest } = officer;
    let reopened: Reopened<'_, H, T, P> = match reopen(executor, &mut conn, name, digest) {
        Ok(reopened) => reopened,
        Err(fault) => return Err((StoredFault::refused(fault), conn)),
    };
    let Reopened {
        core,
        executor,
        rows,
        next,
    } = reopened;
    drop(executor);
    match next {
        Some(first) => {
            let keeper = OptionalKeeper::of(StoreKeeper::new(alloc, conn, rows));
            Ok(Begun {
                core,
                keeper,
                first,
            })
        }
        None => Err((StoredFault::Full, conn)),
    }
}

/// The store of a store writer, if there is one, and why the first change that could not be stored could not.
pub(crate) fn parts_of<S: Alter + Drop>(
    keeper: OptionalKeeper<S>,
) -> (Option<Connection<S>>, Option<StoreFault>)
    ensures told { (result.1 ≡ None) ↔ (failures_of keeper ≡ 0) }
    ensures comes { ComesBack result.0 (λ conn. state S.Store conn) (kept_by keeper) result.1 }
{
    match keeper.into_keeper() {
        Some(keeper) => {
            let (conn, fault) = keeper.into_parts();
            (Some(conn), fault)
        }
        None => (None, None),
    }
}

/// What is left of a desk with its store writer.
pub(crate) fn left_of<S: Alter + Drop, H: Handler + Drop>(
    desk: (Box<H>, OptionalKeeper<S>),
) -> Left<S>
    ensures calls { result.calls ≡ length (H.desk desk.0.value).history }
    ensures told { (result.fault ≡ None) ↔ (failures_of desk.1 ≡ 0) }
    ensures comes { ComesBack result.store (λ conn. state S.Store conn) (kept_by desk.1) result.fault }
{
    let (core, keeper) = desk;
    let calls = core.calls().len();
    drop(core);
    let (store, fault) = parts_of(keeper);
    Left {
        calls,
        store,
        fault,
    }
}
