//! Hands connections that were accepted to threads that serve them, and sees to their places.
ghost use Rattle.std.specs.Prelude.{◌≡◌, ◌==◌, not, filter};

use crate::notice::Notice;
use crate::watch::Watch;
use mpw_admission::{Placed, leaving};
use std::alloc::{AllocError, Global};
use std::net::{Net, Shutdown, SocketAddr, TcpStream};
use std::sync::{Arc, Condvar, Mutex, Wait};

/// A connection that was accepted.
#[derive(Drop)]
pub struct Arrival {
    /// Its number among the connections that were accepted.
    pub ticket: u64,
    /// Its socket.
    pub stream: TcpStream,
    /// What is known of it while it is served.
    pub watch: Watch,
    /// Whether it has to leave its place.
    pub(crate) notice: Arc<Notice>,
}

/// A connection that has a place, with a second handle of its socket.
#[derive(Drop)]
struct Open {
    ticket: u64,
    is_stranger: bool,
    stream: TcpStream,
    notice: Arc<Notice>,
}

impl Open {
    /// A stranger that was just accepted. There is none if its socket has no second handle, so that it can't be shut.
    fn of(arrival: &Arrival) -> Option<Open> {
        Some(Open {
            ticket: arrival.ticket,
            is_stranger: true,
            stream: arrival.stream.try_clone().ok()?,
            notice: Arc::try_clone(&arrival.notice).ok()?,
        })
    }

    /// Ends the connection: its client gets no more answers, and it waits for no turn.
    fn shut<R: Wait>(&self, rt: &R) {
        let _ = self.stream.shutdown(Shutdown::Both);
        self.notice.give(rt);
    }
}

impl Placed for Open {
    ghost is_stranger = { λ place. place.is_stranger };

    fn is_stranger(&self) -> bool {
        self.is_stranger
    }
}

/// What the thread that accepts and those that serve share.
#[derive(Drop)]
struct Waiting {
    /// A connection that no thread has taken yet.
    arrival: Option<Arrival>,
    /// How many connections were accepted.
    accepted: u64,
    /// How many threads wait for one.
    free: u32,
    /// How many threads have begun.
    begun: u32,
    /// How many of those that serve have ended.
    left: usize,
    /// Whether nothing arrives any more.
    is_closed: bool,
    /// The connections that have a place, the oldest first.
    served: Vec<Open>,
}

/// Hands each connection that was accepted to a thread that is free.
#[derive(Drop)]
pub struct Reception {
    waiting: Mutex<Waiting>,
    changed: Condvar,
    alloc: Global,
    /// The address at which connections are accepted.
    address: SocketAddr,
    /// How many workers execute runs.
    workers: u32,
    /// How many connections may have a place.
    places: u32,
    /// Whether places are reserved for connections with a session.
    keeps_places: bool,
}

impl Waiting {
    /// Notes that the connection is served, so that it can be shut.
    fn note_open(&mut self, arrival: &Arrival) {
        if let Some(open) = Open::of(arrival) {
            let _ = self.served.push(open);
        }
    }

    /// Forgets a connection that ended.
    fn forget(&mut self, ticket: u64)
        ensures { self.new.served.items ≡ filter (λ other. not (ticket == other.ticket)) self.old.served.items }
    {
        self.served.retain(
            |other: &Open| -> bool
                ensures { result ≡ not (ticket == other.now.ticket) }
            { ticket != other.ticket },
        );
    }

    /// Ends the connection that leaves for a newcomer, and returns its ticket.
    fn leaver<R: Wait>(&self, rt: &R, places: u32) -> Option<u64> {
        let taken = u32::try_from(self.served.len()).unwrap_or(u32::MAX);
        let index = leaving(places, places.saturating_sub(taken), self.served.as_slice())?;
        let leaver = self.served.get(index)?;
        leaver.shut(rt);
        Some(leaver.ticket)
    }

    /// Makes room for a newcomer: if no more places are free than are reserved for connections with a session, the oldest stranger is ended.
    fn make_room<R: Wait>(&mut self, rt: &R, places: u32) {
        if let Some(ticket) = self.leaver(rt, places) {
            self.forget(ticket);
        }
    }

    /// Notes that a connection has a session.
    fn note_session(&mut self, ticket: u64) {
        for place in self.served.iter_mut() {
            if place.ticket == ticket {
                place.is_stranger = false;
            }
        }
    }

    /// Whether a stranger has a place.
    fn has_stranger(&self) -> bool {
        self.served.iter().any(|place| place.is_stranger)
    }

    /// Ends all connections that are served: their clients get no more answers.
    fn shut_all<R: Wait>(&self, rt: &R) {
        for other in &self.served {
            other.shut(rt);
        }
    }
}

impl Reception {
    /// The reception of a socket that is bound to the address, with so many places and workers.
    ///
    /// # Errors
    /// If there is no room for the places.
    pub fn new(
        alloc: Global,
        address: SocketAddr,
        places: u32,
        workers: u32,
        keeps_places: bool,
    ) -> Result<Reception, AllocError> {
        let served = Vec::with_capacity(alloc, places as usize)?;
        Ok(Reception {
            waiting: Mutex::new(Waiting {
                arrival: None,
                accepted: 0,
                free: 0,
                begun: 0,
                left: 0,
                is_closed: false,
                served,
            }),
            changed: Condvar::new(),
            alloc,
            address,
            workers,
            places,
            keeps_places,
        })
    }

    /// Notes that a thread has begun, and returns whether it is a worker: the first that come are.
    pub fn is_worker<R: Wait>(&self, rt: &R) -> bool {
        let mut waiting = self.waiting.lock(rt);
        waiting.begun = waiting.begun.saturating_add(1);
        waiting.begun <= self.workers
    }

    /// Notes that a thread serves no more connections.
    pub fn leave<R: Wait>(&self, rt: &R) {
        let mut waiting = self.waiting.lock(rt);
        waiting.left = waiting.left.saturating_add(1);
        drop(waiting);
        self.changed.notify_all();
    }

    /// Waits until all of so many threads but the workers have ended.
    pub fn wait_for_all<R: Wait>(&self, rt: &R, threads: usize) {
        let serving = threads.saturating_sub(self.workers as usize);
        let mut waiting = self.waiting.lock(rt);
        for _ in rt.forever() {
            if waiting.left >= serving {
                return;
            }
            waiting = self.changed.wait(rt, waiting);
        }
    }

    /// Waits until there is room for a newcomer, and returns whether one may still arrive. There is room if a thread is free, or if a stranger can
    /// leave.
    pub fn is_awaited<R: Wait>(&self, rt: &R) -> bool {
        let mut waiting = self.waiting.lock(rt);
        for _ in rt.forever() {
            if waiting.is_closed {
                return false;
            }
            let has_room = waiting.free > 0 || self.keeps_places && waiting.has_stranger();
            if has_room && waiting.arrival.is_none() {
                return true;
            }
            waiting = self.changed.wait(rt, waiting);
        }
        unreachable!()
    }

    /// Hands over a connection that was accepted. If there is no memory for it, it is closed.
    pub fn hand_over<R: Wait>(&self, rt: &R, stream: TcpStream) {
        let Ok(notice) = Arc::new(self.alloc, Notice::new()) else {
            return;
        };
        let mut waiting = self.waiting.lock(rt);
        if self.keeps_places {
            waiting.make_room(rt, self.places);
        }
        let ticket = waiting.accepted;
        waiting.accepted = ticket.wrapping_add(1);
        let arrival = Arrival {
            ticket,
            stream,
            watch: Watch::new(),
            notice,
        };
        waiting.note_open(&arrival);
        waiting.arrival = Some(arrival);
        drop(waiting);
        self.changed.notify_all();
    }

    /// Waits for the next connection, and takes it. There is none if none arrives any more.
    pub fn next<R: Wait>(&self, rt: &R) -> Option<Arrival> {
        let mut waiting = self.waiting.lock(rt);
        waiting.free = waiting.free.saturating_add(1);
        self.changed.notify_all();
        for _ in rt.forever() {
            let arrival = waiting.arrival.take();
            if arrival.is_some() || waiting.is_closed {
                waiting.free = waiting.free.saturating_sub(1);
                drop(waiting);
                self.changed.notify_all();
                return arrival;
            }
            waiting = self.changed.wait(rt, waiting);
        }
        unreachable!()
    }

    /// Notes that a connection has a session: it is no stranger from then on.
    pub fn note_session<R: Wait>(&self, rt: &R, ticket: u64) {
        self.waiting.lock(rt).note_session(ticket);
    }

    /// Notes that a connection ended.
    pub fn note_end<R: Wait>(&self, rt: &R, ticket: u64) {
        self.waiting.lock(rt).forget(ticket);
    }

    /// Lets nothing arrive any more. The connections that are served go on.
    pub fn close<R: Wait>(&self, rt: &R) {
        self.waiting.lock(rt).is_closed = true;
        self.changed.notify_all();
    }

    /// Lets nothing arrive any more, and ends the connections that are served.
    pub fn shut<R: Wait>(&self, rt: &R) {
        let mut waiting = self.waiting.lock(rt);
        waiting.is_closed = true;
        waiting.shut_all(rt);
        drop(waiting);
        self.changed.notify_all();
    }

    /// Does the same for a thread that serves. It wakes the thread that accepts by a connection of its own, which is not served.
    pub fn end<R: Wait + Net>(&self, rt: &R) {
        self.shut(rt);
        let _ = TcpStream::connect(rt, self.address);
    }

    /// Whether nothing arrives any more.
    pub fn is_closed<R: Wait>(&self, rt: &R) -> bool {
        self.waiting.lock(rt).is_closed
    }
}
