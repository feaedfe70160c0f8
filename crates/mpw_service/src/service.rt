//! Serves a desk that is shared, and gives it back.
ghost use Rattle.std.specs.Prelude.{◌≡◌, ◌+◌, ◌≤◌, ◌<◌, IfOk, Ok, vec_len};
ghost use Rattle.mpw_desk.specs.Numbers.{AreBelow};
ghost use Rattle.mpw_events.specs.History.{kept_desk};
ghost use Rattle.mpw_service.specs.Served.{IsServed};

use crate::fault::ServeFault;
use crate::hall::Hall;
use crate::lobby::Lobby;
use crate::opening::{Begun, Opening};
use crate::parts::Gathered;
use crate::threads::run_threads;
use mpw_desk::{Blank, Mismatch, Room, Shared};
use mpw_events::{Handler, Keeper};
use std::alloc::Global;
use std::marker::Brand;
use std::net::{Net, TcpListener, TcpStream};
use std::sync::Wait;
use std::thread::Threads;
use std::time::Clock;

/// Serves the connections that the listener accepts, and executes runs, each in threads of their own. A service ends when as many connections ended as
/// are served in all; an ongoing one when the desk has answered all its calls. Either ends too after a connection that was answered that the desk is
/// closed. Then the workers finish what is left, and the passes are returned for [`Shared::finish`]. The listener is closed after the last connection was
/// accepted.
///
/// It ends early if a connection can't be accepted, no pass is left, a thread can't be started, or memory runs out. Connections are then ended, the
/// workers are stopped, and all threads are joined.
pub fn serve<H, K, N, R>(
    rt: &R,
    alloc: Global,
    shared: &Shared<H, K, N>,
    opening: Opening<'_>,
) -> Gathered<N>
where
    H: Handler + Send + Drop,
    K: Keeper + Send + Drop,
    N: Room + Send + Sync,
    R: Threads + Wait + Clock + Net<Listener = TcpListener, Stream = TcpStream> + Sync,
    ensures { result.ended ≡ Ok tt → vec_len result.passes ≡ result.served + opening.entry.staff.workers }
{
    let (listener, staff, log) = opening.into_parts();
    let Ok(address) = listener.local_addr() else {
        return Gathered::none(alloc, ServeFault::Accept);
    };
    let Ok(lobby) = Lobby::new(alloc, address, staff) else {
        return Gathered::none(alloc, ServeFault::Memory);
    };
    let hall = Hall {
        rt,
        alloc,
        shared,
        lobby: &lobby,
        log,
    };
    run_threads(&hall, listener).with_workers(staff.workers)
}

/// Serves a desk under its name, as [`serve_desk`] does.
fn serve_named<H, K, N, R>(
    rt: &R,
    alloc: Global,
    begun: Begun<H, K>,
    blank: Blank,
    opening: Opening<'_>,
) -> (Result<(Box<H>, K), Mismatch>, Result<(), ServeFault>)
where
    H: Handler + Send + Drop,
    K: Keeper + Send + Drop,
    N: Room + Send + Sync,
    R: Threads + Wait + Clock + Net<Listener = TcpListener, Stream = TcpStream> + Sync,
    requires begun { N.begun ≡ kept_desk (H.desk begun.core.value) (K.kept begun.keeper) (K.failures begun.keeper) }
    requires name { blank.name ≡ N.name }
    requires parts { (blank.parts ≡ N.parts) × (N.all ≡ N.parts) × (1048577 ≤ N.all) }
    requires table { blank.table ≡ N.table }
    requires first { (0 < begun.first) × (N.first ≡ begun.first) }
    requires above { AreBelow begun.first (H.desk begun.core.value).history }
    ensures { IfOk result.0 (λ back. IsServed opening.entry.staff.workers N.begun (kept_desk (H.desk back.0.value) (K.kept back.1) (K.failures back.1)) result.1) }
{
    let Begun {
        core,
        keeper,
        first,
    } = begun;
    let shared: Shared<H, K, N> = Shared::new(core, keeper, blank, first);
    let (passes, ended) = serve(rt, alloc, &shared, opening).into_parts();
    match shared.finish(passes) {
        Ok(back) => (Ok(back), ended),
        Err(mismatch) => (Err(mismatch), ended),
    }
}

/// Shares a desk, and serves it as [`serve`] does. If the passes account for all calls, the core and the store writer are returned, and whether it
/// ended well.
pub fn serve_desk<H, K, R>(
    rt: &R,
    alloc: Global,
    begun: Begun<H, K>,
    blank: Blank,
    opening: Opening<'_>,
) -> (Result<(Box<H>, K), Mismatch>, Result<(), ServeFault>)
where
    H: Handler + Send + Drop,
    K: Keeper + Send + Drop,
    R: Threads + Wait + Clock + Net<Listener = TcpListener, Stream = TcpStream> + Sync,
    requires first { 0 < begun.first }
    requires above { AreBelow begun.first (H.desk begun.core.value).history }
    requires parts { blank.parts ≡ 2097152 }

    // The desk went on by calls, and its store writer has just their changes after those before. The passes made all of them.
    ensures { IfOk result.0 (λ back. IsServed opening.entry.staff.workers (kept_desk (H.desk begun.core.value) (K.kept begun.keeper) (K.failures begun.keeper)) (kept_desk (H.desk back.0.value) (K.kept back.1) (K.failures back.1)) result.1) }
{
    serve_named::<H, K, Brand, R>(rt, alloc, begun, blank, opening)
}
