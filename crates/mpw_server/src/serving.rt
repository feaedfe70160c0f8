//! Serving a desk that may have a store, and how that ends.
ghost use Rattle.std.specs.Prelude.{◌≡◌, ◌<◌, Err, IfErr, IfOk, IsSome, IsSomeAnd, None, Ok, Some, is_some};
ghost use Rattle.mpw_desk.specs.Numbers.{AreBelow};
ghost use Rattle.mpw_events.specs.History.{kept_desk};
ghost use Rattle.mpw_store_keeper.specs.Kept.{failures_of, kept_by};
ghost use Rattle.mpw_stored_desk.specs.Reopening.{IsIdle};
ghost use Rattle.mpw_server.specs.Stored.{ComesBack, Ends, EndsOver, IsNoStore, Leaves, ended_with};
ghost use Rattle.mpw_server.specs.declared.fault.ServiceFault.{ServiceFault as Fault};
ghost use Rattle.mpw_server.specs.declared.fault.ServiceFault.TheVariants as told;
ghost use Rattle.mpw_store.specs.declared.fault.StoreFault.{StoreFault as Why};
ghost use Rattle.mpw_stored_desk.specs.Serving.{IsUnopened};
ghost use Rattle.mpw_stored_desk.specs.declared.fault.StoredFault.{StoredFault as Stored};
ghost use Rattle.mpw_stored_desk.specs.declared.fault.StoredFault.TheVariants.{Closed};
ghost use Rattle.sqlite.specs.Held.{state};
ghost use Rattle.sqlite.specs.State.{HasCleanDisk};

use crate::desk::{Left, begin_over, left_of, parts_of};
use crate::fault::ServiceFault;
use crate::opening::{Opened, open};
use crate::terms::Terms;
use mpw_desk::Blank;
use mpw_events::Handler;
use mpw_serve::{Executor, Progress};
use mpw_service::{Begun, Opening, ServeFault, Staff, serve_desk};
use mpw_settings::Officer;
use mpw_store_keeper::OptionalKeeper;
use mpw_stored_desk::StoredFault;
use sqlite::{Alter, Connection};
use std::alloc::Global;
use std::net::{Net, TcpListener, TcpStream};
use std::sync::Wait;
use std::thread::Threads;
use std::time::Clock;

/// Serves a desk. What is left of it is returned, with whether serving ended well.
///
/// # Errors
/// If the passes don't account for every call, or there was no memory for them.
fn serve_kept<S, H, R>(
    rt: &R,
    alloc: Global,
    begun: Begun<H, OptionalKeeper<S>>,
    blank: Blank,
    opening: Opening<'_>,
) -> Result<(Left<S>, Result<(), ServeFault>), ServiceFault>
where
    S: Alter + Send + Drop,
    H: Handler + Send + Drop,
    R: Threads + Wait + Clock + Net<Listener = TcpListener, Stream = TcpStream> + Sync,
    requires first { 0 < begun.first }
    requires above { AreBelow begun.first (H.desk begun.core.value).history }
    requires parts { blank.parts ≡ 2097152 }
    ensures leaves { IfOk result (λ served. Leaves (kept_desk (H.desk begun.core.value) (kept_by begun.keeper) (failures_of begun.keeper)) served.0.calls served.0.fault (ComesBack served.0.store (λ conn. state S.Store conn))) }
    ensures lost { IfErr result IsNoStore }
{
    let (back, ended) = serve_desk(rt, alloc, begun, blank, opening);
    match back {
        Ok(desk) => Ok((left_of(desk), ended)),
        Err(mismatch) => Err(match ended {
            Ok(()) => ServiceFault::from(mismatch),
            Err(fault) => ServiceFault::Serve(fault),
        }),
    }
}

/// Prints how many calls a desk has.
fn print_calls(host: &HostRuntime, calls: usize) -> Result<(), ServiceFault>
    ensures { IfErr result IsNoStore }
{
    match println!(host; "calls {calls}") {
        Ok(()) => Ok(()),
        Err(_) => Err(ServiceFault::Print),
    }
}

/// How a service ended whose desk came back. If serving ended well, its calls are printed. That a change could not be stored comes before each other
/// fault.
fn end<S: Alter + Drop>(
    host: &HostRuntime,
    left: Left<S>,
    ended: Result<(), ServeFault>,
) -> (Result<(), ServiceFault>, Option<Connection<S>>)
    ensures store { result.1 ≡ left.store }
    ensures well { result.0 ≡ Ok tt → left.fault ≡ None }
    ensures closed { (why : Why) → left.fault ≡ Some why → result.0 ≡ Err (told.Store (Closed why)) }
    ensures reason { (stored : Stored) → result.0 ≡ Err (told.Store stored) → (why : Why) × (left.fault ≡ Some why) × (stored ≡ Closed why) }
{
    let Left {
        calls,
        store,
        fault,
    } = left;
    let told = match ended {
        Ok(()) => print_calls(host, calls),
        Err(fault) => Err(ServiceFault::Serve(fault)),
    };
    match fault {
        Some(fault) => (Err(ServiceFault::Store(StoredFault::Closed(fault))), store),
        None => (told, store),
    }
}

/// The store of a desk that wasn't shared, if it has one.
fn store_of<S: Alter + Drop, H: Handler + Drop>(
    begun: Begun<H, OptionalKeeper<S>>,
) -> Option<Connection<S>>
    requires { failures_of begun.keeper ≡ 0 }
    ensures { (fault : Fault) → IsNoStore fault → Ends (kept_desk (H.desk begun.core.value) (kept_by begun.keeper) (failures_of begun.keeper)) (Err fault) (ComesBack result (λ conn. state S.Store conn)) }
{
    let Begun {
        core,
        keeper,
        first: _,
    } = begun;
    drop(core);
    parts_of(keeper).0
}

/// Serves a desk over what was opened for it. Its store is returned if it has one and the desk came back.
fn serve_opened<S, H, R>(
    host: &HostRuntime,
    rt: &R,
    terms: &Terms<'_>,
    begun: Begun<H, OptionalKeeper<S>>,
    opened: Opened,
) -> (Result<(), ServiceFault>, Option<Connection<S>>)
where
    S: Alter + Send + Drop,
    H: Handler + Send + Drop,
    R: Threads + Wait + Clock + Net<Listener = TcpListener, Stream = TcpStream> + Sync,
    requires first { 0 < begun.first }
    requires above { AreBelow begun.first (H.desk begun.core.value).history }
    requires parts { opened.blank.parts ≡ 2097152 }
    ensures { Ends (kept_desk (H.desk begun.core.value) (kept_by begun.keeper) (failures_of begun.keeper)) result.0 (ComesBack result.1 (λ conn. state S.Store conn)) }
{
    let Opened { blank, listener } = opened;
    let opening = Opening {
        listener,
        staff: terms.staff,
        log: terms.log,
    };
    match serve_kept(rt, host.alloc(), begun, blank, opening) {
        Ok(served) => {
            let (left, ended) = served;
            end(host, left, ended)
        }
        Err(fault) => (Err(fault), None),
    }
}

/// Serves a desk as the settings say. Its store is returned if it has one and the desk came back.
pub(crate) fn serve_begun<S, H, R>(
    host: &HostRuntime,
    rt: &R,
    terms: &mut Terms<'_>,
    begun: Begun<H, OptionalKeeper<S>>,
) -> (Result<(), ServiceFault>, Option<Connection<S>>)
where
    S: Alter + Send + Drop,
    H: Handler + Send + Drop,
    R: Threads + Wait + Clock + Net<Listener = TcpListener, Stream = TcpStream> + Sync,
    requires first { 0 < begun.first }
    requires above { AreBelow begun.first (H.desk begun.core.value).history }
    requires whole { failures_of begun.keeper ≡ 0 }
    ensures { Ends (kept_desk (H.desk begun.core.value) (kept_by begun.keeper) (failures_of begun.keeper)) result.0 (ComesBack result.1 (λ conn. state S.Store conn)) }
{
    match open(host, rt, terms) {
        Ok(opened) => serve_opened(host, rt, terms, begun, opened),
        Err(fault) => (Err(fault), store_of(begun)),
    }
}

/// Whether an ongoing service ends before it serves: the store's rows come to all calls that a desk answers.
fn is_full<H: Handler>(core: &H, staff: Staff) -> bool {
    staff.is_ongoing && core.calls().len() >= staff.calls
}

/// Serves the desk of a store as the settings say, unless it is full.
fn serve_unless_full<S, H, R>(
    host: &HostRuntime,
    rt: &R,
    terms: &mut Terms<'_>,
    begun: Begun<H, OptionalKeeper<S>>,
) -> (Result<(), ServiceFault>, Option<Connection<S>>)
where
    S: Alter + Send + Drop,
    H: Handler + Send + Drop,
    R: Threads + Wait + Clock + Net<Listener = TcpListener, Stream = TcpStream> + Sync,
    requires first { 0 < begun.first }
    requires above { AreBelow begun.first (H.desk begun.core.value).history }
    requires whole { failures_of begun.keeper ≡ 0 }
    ensures { Ends (kept_desk (H.desk begun.core.value) (kept_by begun.keeper) (failures_of begun.keeper)) result.0 (ComesBack result.1 (λ conn. state S.Store conn)) }
{
    if is_full(&*begun.core, terms.staff) {
        (Err(ServiceFault::FullStore), store_of(begun))
    } else {
        serve_begun(host, rt, terms, begun)
    }
}

/// How a service over a store ended: without its store it didn't end well.
fn with_store<S: Alter + Drop>(
    served: (Result<(), ServiceFault>, Option<Connection<S>>),
) -> (Result<(), ServiceFault>, Option<Connection<S>>)
    ensures store { result.1 ≡ served.1 }
    ensures ended { result.0 ≡ ended_with (is_some served.1) served.0 }
    ensures back { result.0 ≡ Ok tt → IsSome result.1 }
{
    let (ended, store) = served;
    let ended = match ended {
        Ok(()) if store.is_none() => Err(ServiceFault::Mismatch),
        _ => ended,
    };
    (ended, store)
}

/// Serves the desk that the rows of a store lead to as the settings say. If a change could not be stored, that is the fault. The rows are then those that
/// were found, the ends of the sessions that were open, and the changes of the calls, in order ([`services_store_their_changes`]). A bad row is
/// reported only if the rows lead to no desk. An ongoing service doesn't begin if the rows come to all calls that a desk answers. The store is returned if that is possible, and always if the service ends well.
///
/// [`services_store_their_changes`]: crate::services_store_their_changes
pub fn serve_over<S, H, R, P>(
    host: &HostRuntime,
    executor: Executor<'_, R, P>,
    terms: &mut Terms<'_>,
    store: (Connection<S>, Officer),
) -> (Result<(), ServiceFault>, Option<Connection<S>>)
where
    S: Alter + Send + Drop,
    H: Handler + Send + Drop,
    R: Threads + Wait + Clock + Net<Listener = TcpListener, Stream = TcpStream> + Sync,
    P: Progress + Drop,
    requires { HasCleanDisk (state S.Store store.0) → IsIdle (state S.Store store.0) }
    ensures over { EndsOver store.1 (state S.Store store.0) (λ fault. IsSomeAnd result.1 (λ conn. IsUnopened store.1 (state S.Store store.0) (state S.Store conn) fault)) (ComesBack result.1 (λ conn. state S.Store conn)) result.0 }
    ensures back { result.0 ≡ Ok tt → IsSome result.1 }
{
    let rt = executor.threads;
    let (conn, officer) = store;
    match begin_over::<S, H, R, P>(executor, conn, officer) {
        Ok(begun) => with_store(serve_unless_full(host, rt, terms, begun)),
        Err(unopened) => {
            let (fault, conn) = unopened;
            (Err(ServiceFault::Store(fault)), Some(conn))
        }
    }
}
