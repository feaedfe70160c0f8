//! The threads of a service: one accepts connections, some serve them, and workers execute runs.

use crate::accepting::accept_all;
use crate::arrival::{Served, serve_arrival};
use crate::fault::ServeFault;
use crate::hall::Hall;
use crate::lobby::Lobby;
use crate::parts::{Gathered, Part, Parts};
use crate::patience::Patience;
use crate::staff::is_over;
use mpw_desk::{Pass, Room};
use mpw_events::{Handler, Keeper};
use std::alloc::Global;
use std::net::{Net, TcpListener, TcpStream};
use std::sync::Wait;
use std::thread::{self, JoinHandle, Threads};
use std::time::Clock;

/// Takes in what came of a connection, and returns whether it was answered that the desk is closed. If no pass was left for it, or there is no room for its
/// pass, the service ends.
fn take_in<H, K, N, R>(hall: &Hall<'_, H, K, N, R>, part: &mut Part<N>, served: Served<N>) -> bool
where
    H: Handler + Drop,
    K: Keeper + Drop,
    N: Room,
    R: Wait + Net,
{
    match served {
        Served::Silent => false,
        Served::NoPass => {
            hall.lobby.end(hall.rt, Some(ServeFault::Full));
            false
        }
        Served::Ended(pass, was_closed) => {
            if !part.put(pass) {
                hall.lobby.end(hall.rt, Some(ServeFault::Memory));
            }
            was_closed
        }
    }
}

/// Serves the next connection, and adds its pass to the others. It returns whether there was one.
fn serve_next<H, K, N, R>(hall: &Hall<'_, H, K, N, R>, part: &mut Part<N>) -> bool
where
    H: Handler + Drop,
    K: Keeper + Drop,
    N: Room,
    R: Wait + Clock + Net,
{
    let (rt, lobby) = (hall.rt, hall.lobby);
    if part.passes.reserve(1).is_err() {
        lobby.end(rt, Some(ServeFault::Memory));
    }
    let Some(arrival) = lobby.reception.next(rt) else {
        return false;
    };
    let served = serve_arrival(hall, &arrival);
    lobby.reception.note_end(rt, arrival.ticket);
    drop(arrival);
    let was_closed = take_in(hall, part, served);
    if is_over(was_closed, hall.shared.calls(rt), lobby.staff.calls) {
        lobby.end(rt, None);
    }
    true
}

/// Serves connections, one after the other, until none arrives any more, and returns their passes. It ends the service if the desk has answered all its
/// calls, if a connection was answered that the desk is closed, or if there is no room for another pass.
fn serve_arrivals<H, K, N, R>(hall: &Hall<'_, H, K, N, R>) -> Part<N>
where
    H: Handler + Drop,
    K: Keeper + Drop,
    N: Room,
    R: Wait + Clock + Net,
{
    let mut part = Part::new(hall.alloc);
    for _ in hall.rt.forever() {
        if !serve_next(hall, &mut part) {
            return part;
        }
    }
    unreachable!()
}

/// Executes runs with a pass of its own until the desk is stopped, and returns the pass. If the run of the beginning is held, it waits for an order first.
/// It ends the service if no pass is left.
fn work<H, K, N, R>(hall: &Hall<'_, H, K, N, R>) -> Option<Pass<N>>
where
    H: Handler + Drop,
    K: Keeper + Drop,
    N: Room,
    R: Wait + Clock + Net,
{
    let (rt, shared) = (hall.rt, hall.shared);
    let Some(mut pass) = shared.pass(rt) else {
        hall.lobby.end(rt, Some(ServeFault::Full));
        return None;
    };
    let steering = &hall.lobby.steering;
    if steering.await_order(rt) {
        let patience = Patience::new(rt, steering);
        let _ = shared.worker(rt, hall.alloc, &mut pass, &patience);
    }
    Some(pass)
}

/// Takes part in a service: the first threads that come are its workers, and the others serve its connections. It returns their passes.
fn take_part<H, K, N, R>(hall: &Hall<'_, H, K, N, R>) -> Part<N>
where
    H: Handler + Drop,
    K: Keeper + Drop,
    N: Room,
    R: Wait + Clock + Net,
{
    let reception = &hall.lobby.reception;
    if reception.is_worker(hall.rt) {
        return Part::of_worker(hall.alloc, work(hall));
    }
    let part = serve_arrivals(hall);
    reception.leave(hall.rt);
    part
}

/// Accepts the connections of a service of which so many threads have begun, waits until the threads that serve have ended, and stops the
/// workers. If not all threads began, or a connection can't be accepted, the connections are ended.
fn lead<H, K, N, R>(
    hall: &Hall<'_, H, K, N, R>,
    listener: TcpListener,
    threads: usize,
    begun: Result<(), ServeFault>,
) -> Result<(), ServeFault>
where
    H: Handler + Drop,
    K: Keeper + Drop,
    N: Room,
    R: Wait + Clock,
{
    let (rt, lobby, reception) = (hall.rt, hall.lobby, &hall.lobby.reception);
    let ended = match begun {
        Ok(()) => accept_all(rt, hall.alloc, lobby, hall.log, listener),
        Err(fault) => {
            drop(listener);
            Err(fault)
        }
    };
    if ended.is_err() {
        reception.shut(rt);
    }
    reception.close(rt);
    reception.wait_for_all(rt, threads);
    hall.shared.stop(rt);
    lobby.steering.end(rt);
    ended
}

/// Joins the threads of a service, and gathers their passes.
fn gather<N, R>(
    rt: &R,
    alloc: Global,
    lobby: &Lobby,
    threads: Vec<JoinHandle<Part<N>>>,
    ended: Result<(), ServeFault>,
) -> Gathered<N>
where
    N: Room,
    R: Threads + Wait,
{
    let mut parts = Parts::new(alloc);
    for handle in threads {
        parts.take_in(handle.join(rt));
    }
    let ended = match ended {
        Ok(()) => lobby.outcome(rt, parts.is_whole),
        Err(fault) => Err(fault),
    };
    parts.gathered(ended)
}

/// Starts the threads of a service, leads it, and joins them.
pub(crate) fn run_threads<H, K, N, R>(
    hall: &Hall<'_, H, K, N, R>,
    listener: TcpListener,
) -> Gathered<N>
where
    H: Handler + Send + Drop,
    K: Keeper + Send + Drop,
    N: Room + Send + Sync,
    R: Threads + Wait + Clock + Net<Listener = TcpListener, Stream = TcpStream> + Sync,
{
    thread::scope(thread::scope_env(), hall.rt, |scope| {
        let mut threads = Vec::new(hall.alloc);
        let mut begun = Ok(());
        let staff = hall.lobby.staff;
        for _ in 0..staff.workers.saturating_add(staff.connections) {
            if threads.reserve(1).is_err() {
                begun = Err(ServeFault::Memory);
                break;
            }
            match scope.spawn(move || take_part(hall)) {
                Ok(handle) => {
                    let _ = threads.push(handle);
                }
                Err(_) => {
                    begun = Err(ServeFault::Thread);
                    break;
                }
            }
        }
        let ended = lead(hall, listener, threads.len(), begun);
        gather(hall.rt, hall.alloc, hall.lobby, threads, ended)
    })
}
